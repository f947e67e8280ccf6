use super::{Entry, NodeTable};
use fan_order::Section;
use im_matrix::Which;
use plane_exact::{Dir, Node, Pt};
use point_set::Hand;
use std::process::Abort;
use std::test::Fail;

const ORIGIN: Pt = Pt { x: 0, y: 0 };

const UP_RIGHT: Pt = Pt { x: 1, y: 1 };

const EASTWARD: Section = Section {
    dir: Dir { dx: 1, dy: 0 },
    hand: Hand::Line,
    which: Which::A,
    area: None,
};

const NORTHWARD: Section = Section {
    dir: Dir { dx: 0, dy: 1 },
    hand: Hand::Left,
    which: Which::B,
    area: Some(3),
};

fn assert_entry(rt: &impl Abort, entry: &Entry, p: Pt, sections: &[Section]) {
    assert_eq!(rt; entry.node.position(), Some(p));
    assert_eq!(rt; entry.sections.as_slice(), sections);
}

#[test]
fn each_node_comes_once_with_its_sections(rt: HostRuntime) -> Result<(), Fail> {
    let mut table = NodeTable::new(rt.alloc());
    table.add(Node::at_point(UP_RIGHT), NORTHWARD)?;
    table.add_node(Node::at_point(ORIGIN))?;
    table.add(Node::at_point(UP_RIGHT), EASTWARD)?;
    table.add_node(Node::at_point(UP_RIGHT))?;
    let first = table.take_next().ok_or("a first node")?;
    assert_entry(&rt, &first, ORIGIN, &[]);
    let second = table.take_next().ok_or("a second node")?;
    assert_entry(&rt, &second, UP_RIGHT, &[NORTHWARD, EASTWARD]);
    assert!(rt; table.take_next().is_none());
    Ok(())
}
