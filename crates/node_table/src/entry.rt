use fan_order::SectionList;
use plane_exact::Node;

/// A node with its sections.
#[derive(Debug, Drop)]
pub struct Entry {
    /// The node.
    pub node: Node,
    /// Its sections in the order in which they were added.
    pub sections: SectionList,
}
