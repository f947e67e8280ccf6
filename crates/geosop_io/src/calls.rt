ghost use Rattle.std.specs.Prelude.{◌≡◌, ◌≤◌, IsTrue, ◌↔◌, Contains};

use crate::sink::Failed;
use plane_exact::PlaceList;

/// Calls that are numbered from 1, which numbers fail, and how many faults there were.
#[derive(Debug, Drop)]
pub struct Calls {
    pub fails: PlaceList,
    pub made: u64,
    pub faults: u64,
}

impl Calls {
    ghost use Rattle.geosop_io.specs.Counts.{one_more};
    ghost use Rattle.geosop_io.specs.Calls.{IsNextFailing, after_call};

    /// No calls so far.
    pub fn new(fails: PlaceList) -> Calls
        ensures none { result ≡ record { fails = fails; made = 0; faults = 0 } }
    {
        Calls {
            fails,
            made: 0,
            faults: 0,
        }
    }

    /// Numbers one more call, and tells whether it is one that fails.
    pub fn next(&mut self) -> bool
        ensures made { self.new ≡ after_call self.old }
        ensures failing { IsTrue result ↔ IsNextFailing self.old }
    {
        self.made = self.made.saturating_add(1);
        let number = self.made;
        is_listed(&self.fails, number)
    }

    /// Counts a fault.
    pub fn fault(&mut self) -> Failed
        ensures counted { self.new ≡ record self.old { faults = one_more self.old.faults } }
        ensures rising { self.old.faults ≤ self.new.faults }
    {
        self.faults = self.faults.saturating_add(1);
        Failed
    }
}

/// Whether a number is in a list.
fn is_listed(list: &PlaceList, number: u64) -> bool
    ensures listed { IsTrue result ↔ Contains list.now number }
{
    list.as_slice()
        .iter()
        .any(|&place| u64::from(place) == number)
}
