use crate::random::Random;
use edge_index::EdgeIndex;
use plane_exact::{MOST_POSITIONS, NoMemory, PlaceList, Seg, SegList, Window};
use std::alloc::Global;

/// 100,000 short segments anywhere.
pub(crate) fn segments(alloc: Global) -> Result<SegList, NoMemory> {
    let mut random = Random::new();
    let mut segments = SegList::new(alloc);
    for _ in 0..100_000 {
        let a = random.position();
        let b = random.position_near(a);
        segments.push(Seg { a, b })?;
    }
    Ok(segments)
}

/// How many segments meet windows, by the tree over them. Asks `count` times.
pub(crate) fn windows(alloc: Global, count: u32) -> Result<u64, NoMemory> {
    let segments = segments(alloc)?;
    if segments.len() > MOST_POSITIONS {
        return Ok(0);
    }
    let index = EdgeIndex::build(alloc, segments)?;
    let mut random = Random::new();
    let mut places = PlaceList::new(alloc);
    let mut found: u64 = 0;
    for _ in 0..count {
        index.query(random.window(), &mut places)?;
        found = found.wrapping_add(places.len() as u64);
    }
    Ok(found)
}

/// How many segments meet windows, by a scan. Asks `count` times.
pub(crate) fn windows_by_scan(alloc: Global, count: u32) -> Result<u64, NoMemory> {
    let segments = segments(alloc)?;
    let mut random = Random::new();
    let mut found: u64 = 0;
    for _ in 0..count {
        found = found.wrapping_add(meeting(segments.as_slice(), random.window()));
    }
    Ok(found)
}

fn meeting(segments: &[Seg], window: Window) -> u64 {
    segments
        .iter()
        .filter(|segment| Window::of(**segment).meets(&window))
        .count() as u64
}
