ghost use Rattle.std.specs.Prelude.{◌≡◌, [], ◌∷◌, OnOk, OnErr, IfSome, IfNone, IsNone, ◌↔◌};
ghost use Rattle.node_table.specs.Places.{IsNew};
ghost use Rattle.node_table.specs.Tables.{with_sections, AreInOrder};

use crate::entry::Entry;
use crate::place::Place;
use fan_order::{Section, SectionList};
use plane_exact::{NoMemory, Node};
use std::alloc::Global;
use std::collections::BTreeMap;
use std::marker::Model;
use std::mem::replace;

/// Nodes with their sections, each node once.
#[derive(Drop)]
pub struct NodeTable {
    alloc: Global,
    places: BTreeMap<Place, usize>,
    lists: Vec<SectionList>,
}

impl Model for NodeTable {
    ghost use Rattle.std.specs.Prelude.{List};
    ghost use Rattle.node_table.specs.declared.entry.Entry.{Entry};
    ghost use Rattle.node_table.specs.Places.{listed, AreKept};

    ghost Value = { List Entry };

    ghost view = { λ t. listed t.places.entries t.lists.items };

    ghost invariant = { λ t. AreKept t.places.entries t.lists.items };
}

impl NodeTable {
    /// The empty table. Takes no memory.
    pub fn new(alloc: Global) -> NodeTable
        ensures empty { result ≡ [] }
    {
        NodeTable {
            alloc,
            places: BTreeMap::new(alloc),
            lists: Vec::new(alloc),
        }
    }

    /// Puts a node in, with its sections as before or none.
    ///
    /// # Errors
    /// `NoMemory`, and then the table is as it was.
    pub fn add_node(&mut self, n: Node) -> Result<(), NoMemory>
        ensures added { OnOk result (self.new ≡ with_sections self.old n []) }
        ensures kept { OnErr result (self.new ≡ self.old) }
        ensures in_order { AreInOrder self.new }
    {
        if self.places.contains_key(&Place { node: n }) {
            return Ok(());
        }
        self.add_list(n, SectionList::new(self.alloc))
    }

    /// Puts a node in, and a section after those that it has.
    ///
    /// # Errors
    /// `NoMemory`, and then the table is as it was.
    pub fn add(&mut self, n: Node, s: Section) -> Result<(), NoMemory>
        ensures added { OnOk result (self.new ≡ with_sections self.old n (s ∷ [])) }
        ensures kept { OnErr result (self.new ≡ self.old) }
        ensures in_order { AreInOrder self.new }
    {
        if let Some(&at) = self.places.get(&Place { node: n }) {
            let list = &mut self.lists[at];
            return list.push(s);
        }
        let mut sections = SectionList::new(self.alloc);
        sections.push(s)?;
        self.add_list(n, sections)
    }

    /// Takes out the least node by x, and at the same x by y, with all its sections. None exactly where the table is
    /// empty. Takes no memory.
    pub fn take_next(&mut self) -> Option<Entry>
        ensures first { IfSome result (λ e. self.old ≡ e ∷ self.new) }
        ensures in_order { AreInOrder self.old }
        ensures none { IsNone result ↔ (self.old ≡ []) }
        ensures kept { IfNone result (self.new ≡ self.old) }
    {
        let (place, at) = self.places.pop_first()?;
        let sections = replace(&mut self.lists[at], SectionList::new(self.alloc));
        Some(Entry {
            node: place.node,
            sections,
        })
    }

    /// Puts a node that isn't there in, with a list of sections.
    fn add_list(&mut self, n: Node, sections: SectionList) -> Result<(), NoMemory>
        requires new { IsNew n self.old }
        ensures added { OnOk result (self.new ≡ with_sections self.old n sections) }
        ensures kept { OnErr result (self.new ≡ self.old) }
        ensures in_order { AreInOrder self.new }
    {
        let at = self.lists.len();
        self.lists.push(sections).map_err(|_| NoMemory)?;
        match self.places.insert(Place { node: n }, at) {
            Ok(_) => Ok(()),
            Err(_) => {
                self.lists.truncate(at);
                Err(NoMemory)
            }
        }
    }
}
