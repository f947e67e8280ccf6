ghost use Rattle.std.specs.List.{All, range_with_len};
ghost use Rattle.std.specs.Prelude.{◌≡◌, ◌≢◌, ◌+◌, ◌<◌, ◌⊎◌, ◌∷◌, [], length, map, IfOk, OnErr, OnOk};
ghost use Rattle.point_set.specs.Validity.{IsAtPlace};
ghost use Rattle.ring_faults.specs.Classes.{lists_of, ArePutUnder};
ghost use Rattle.ring_faults.specs.Links.{IsRelabelled};

use plane_exact::NoMemory;
use std::alloc::Global;
use std::marker::Model;
use std::mem::replace;

/// Rings with a label each, and for each label the list of its rings. Contracts see the labels, ring by ring.
#[derive(Drop)]
pub(crate) struct Classes {
    alloc: Global,
    labels: Vec<usize>,
    members: Vec<Vec<usize>>,
}

impl Model for Classes {
    ghost use Rattle.std.specs.Prelude.{List, ℕ};
    ghost use Rattle.ring_faults.specs.Classes.{lists_of, AreClasses};

    ghost Value = { List ℕ };

    ghost view = { λ c. c.labels.items };

    ghost invariant = { λ c. AreClasses c.labels.items (lists_of c.members.items) };
}

impl Classes {
    /// Each ring up to the last in a class of its own, with its place as the label.
    ///
    /// # Errors
    /// `NoMemory`.
    pub(crate) fn new(alloc: Global, last: usize) -> Result<Classes, NoMemory>
        ensures labels { IfOk result (λ classes. classes ≡ range_with_len 0 (last + 1)) }
    {
        let labels = own_labels(alloc, last)?;
        let members = own_lists(alloc, labels.as_slice())?;
        Ok(Classes {
            alloc,
            labels,
            members,
        })
    }

    /// The label of a ring.
    pub(crate) fn label(&self, ring: usize) -> usize
        requires ring { ring < length self.now }
        ensures label { IsAtPlace self.now ring result }
        ensures within { result < length self.now }
    {
        self.labels[ring]
    }

    /// Makes two classes one, under the label of the greater: only the smaller one's rings are walked.
    ///
    /// # Errors
    /// `NoMemory`, and then the classes are as they were.
    pub(crate) fn join(&mut self, one: usize, other: usize) -> Result<(), NoMemory>
        requires one { one < length self.old }
        requires other { other < length self.old }
        requires apart { one ≢ other }
        ensures joined { OnOk result (IsRelabelled one other self.old self.new ⊎ IsRelabelled other one self.old self.new) }
        ensures kept { OnErr result (self.new ≡ self.old) }
    {
        if self.members[one].len() < self.members[other].len() {
            self.put_under(one, other)
        } else {
            self.put_under(other, one)
        }
    }

    /// Puts the rings of one label under another, by a walk over them alone.
    fn put_under(&mut self, from: usize, to: usize) -> Result<(), NoMemory>
        requires from { from < length self.old }
        requires to { to < length self.old }
        requires apart { from ≢ to }
        ensures put { OnOk result (IsRelabelled from to self.old self.new) }
        ensures kept { OnErr result (self.new ≡ self.old) }
    {
        let rings = replace(&mut self.members[from], Vec::new(self.alloc));
        match self.members[to].extend_from_slice(rings.as_slice()) {
            Ok(()) => {
                relabel(self.labels.as_mut_slice(), rings.as_slice(), to);
                Ok(())
            }
            Err(_) => {
                self.members[from] = rings;
                Err(NoMemory)
            }
        }
    }
}

/// A label of its own for each ring up to the last.
fn own_labels(alloc: Global, last: usize) -> Result<Vec<usize>, NoMemory>
    ensures labels { IfOk result (λ v. v.items ≡ range_with_len 0 (last + 1)) }
{
    let mut labels: Vec<usize> = (0..last).collect(alloc)?;
    match labels.push(last) {
        Ok(()) => Ok(labels),
        Err(_) => Err(NoMemory),
    }
}

/// For each ring a list in which it stands alone.
fn own_lists(alloc: Global, rings: &[usize]) -> Result<Vec<Vec<usize>>, NoMemory>
    ensures lists { IfOk result (λ lists. lists_of lists.items ≡ map (λ ring. ring ∷ []) rings.now) }
{
    let mut lists = Vec::new(alloc);
    for ring in rings {
        let own = Vec::from_array(alloc, [*ring]).map_err(|_| NoMemory)?;
        lists.push(own).map_err(|_| NoMemory)?;
    }
    Ok(lists)
}

/// Gives rings a label.
fn relabel(labels: &mut [usize], rings: &[usize], label: usize)
    requires rings { All (λ ring. ring < length labels.old) rings.now }
    ensures put { ArePutUnder label rings.now labels.old labels.new }
{
    for ring in rings {
        labels[*ring] = label;
    }
}
