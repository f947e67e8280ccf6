//! Sources and sinks in memory.
ghost use Rattle.std.specs.Prelude.{◌≡◌, None};

use geosop_io::{MemInputs, MemSink, NamedBytes};
use plane_exact::{NoMemory, PlaceList};
use std::alloc::Global;

/// Three figures.
pub const THREE: &str = "POINT (1 1)\nPOLYGON ((0 0, 4 0, 4 4, 0 4, 0 0))\nLINESTRING (0 0, 4 4)\n";

/// Five more.
pub const FIVE: &str =
    "POINT (1 1)\nPOINT (0 0)\nLINESTRING (0 4, 4 0)\nPOLYGON ((2 2, 6 2, 6 6, 2 6, 2 2))\nPOINT EMPTY\n";

/// Which of the three meet which of the five.
pub const MEET: &str =
    "true\nfalse\nfalse\nfalse\nfalse\ntrue\ntrue\ntrue\ntrue\nfalse\ntrue\ntrue\ntrue\ntrue\nfalse\n";

/// The room of each sink, which no run of the tests fills.
pub const ROOM: usize = 1000;

/// A list of numbers, as of the calls that fail.
///
/// # Errors
/// `NoMemory`.
pub fn places_of(alloc: Global, numbers: &[u32]) -> Result<PlaceList, NoMemory> {
    let mut places = PlaceList::new(alloc);
    for number in numbers {
        places.push(*number)?;
    }
    Ok(places)
}

/// A sink with ample room that never fails.
///
/// # Errors
/// `NoMemory`.
pub fn ample(alloc: Global) -> Result<MemSink, NoMemory> {
    MemSink::new(alloc, ROOM, PlaceList::new(alloc))
}

/// Sources without names, for runs whose sources stand in the words.
pub fn no_files(alloc: Global) -> MemInputs
    ensures a_new { result.asked.a ≡ None }
    ensures b_new { result.asked.b ≡ None }
{
    MemInputs::new(NamedBytes::new(alloc), PlaceList::new(alloc), 1)
}
