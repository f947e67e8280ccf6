ghost use Rattle.std.specs.Prelude.{◌↔◌, All, IsTrue};
ghost use Rattle.area_locator.specs.Indexed.{AreRowsOfEdges, IsEdge};
ghost use Rattle.point_set.specs.Shape.{IsWayInLimit};
ghost use Rattle.y_index.specs.Index.{rows_of};

use crate::random::Random;
use area_locator::{are_edges, locate_by, ring_locate, spans_of};
use im_matrix::Loc;
use plane_exact::{Count, MOST_POSITIONS, NoMemory, Path, Pt, Seg, SegList, in_limit};
use std::alloc::Global;
use y_index::{YIndex, are_spans};

/// The corners of a star of twenty arms, closed.
const CORNERS: &[(i64, i64)] = &[
    (999076, 42987),
    (392020, 79499),
    (936894, 349614),
    (348267, 196749),
    (783002, 622019),
    (270423, 294740),
    (552465, 833536),
    (166108, 363879),
    (267849, 963461),
    (45533, 397400),
    (-42987, 999076),
    (-79499, 392020),
    (-349614, 936894),
    (-196749, 348267),
    (-622019, 783002),
    (-294740, 270423),
    (-833536, 552465),
    (-363879, 166108),
    (-963461, 267849),
    (-397400, 45533),
    (-999076, -42987),
    (-392020, -79499),
    (-936894, -349614),
    (-348267, -196749),
    (-783002, -622019),
    (-270423, -294740),
    (-552465, -833536),
    (-166108, -363879),
    (-267849, -963461),
    (-45533, -397400),
    (42987, -999076),
    (79499, -392020),
    (349614, -936894),
    (196749, -348267),
    (622019, -783002),
    (294740, -270423),
    (833536, -552465),
    (363879, -166108),
    (963461, -267849),
    (397400, -45533),
    (999076, 42987),
];

/// How many edges stand between two corners.
const PIECES: i64 = 2500;

fn between(a: i64, b: i64, piece: i64) -> i64 {
    let rest = PIECES.wrapping_sub(piece);
    a.wrapping_mul(rest).wrapping_add(b.wrapping_mul(piece)) / PIECES
}

/// A ring of 100,000 edges.
pub(crate) fn ring(alloc: Global) -> Result<Path, NoMemory> {
    let mut ring = Path::new(alloc);
    for (start, end) in CORNERS.iter().zip(CORNERS.iter().skip(1)) {
        for piece in 0..PIECES {
            ring.push(Pt {
                x: between(start.0, end.0, piece),
                y: between(start.1, end.1, piece),
            })?;
        }
    }
    let first = CORNERS[0];
    ring.push(Pt {
        x: first.0,
        y: first.1,
    })?;
    Ok(ring)
}

/// The edges of a ring, in order.
fn edges_of(alloc: Global, ring: &Path) -> Result<SegList, NoMemory> {
    let positions = ring.as_slice();
    let mut edges = SegList::new(alloc);
    for (start, end) in positions.iter().zip(positions.iter().skip(1)) {
        edges.push(Seg { a: *start, b: *end })?;
    }
    Ok(edges)
}

fn is_way(ring: &Path) -> bool
    ensures way { IsTrue result ↔ (IsWayInLimit ring.now) }
{
    ring.as_slice().iter().all(|p| in_limit(*p))
}

/// How many nodes are inside edges that are tested to be such, by the index built over them. Asks `count` times.
pub(crate) fn locations(alloc: Global, count: u32) -> Result<u64, NoMemory> {
    let edges = edges_of(alloc, &ring(alloc)?)?;
    let spans = spans_of(alloc, edges.as_slice())?;
    if edges.len() > MOST_POSITIONS
        || !are_edges(edges.as_slice())
        || !are_spans(spans.as_slice())
    {
        return Ok(0);
    }
    let rows = YIndex::build(alloc, &spans)?;
    Ok(inside(&rows, &edges, count))
}

fn inside(rows: &YIndex, edges: &SegList, count: u32) -> u64
    requires edges { All IsEdge edges.now }
    requires rows { AreRowsOfEdges edges.now (rows_of rows.now) }
{
    let mut random = Random::new();
    let mut found: u64 = 0;
    for _ in 0..count {
        let node = random.node();
        if locate_by(rows, edges, &node, &mut Count::new()) == Loc::Interior {
            found = found.wrapping_add(1);
        }
    }
    found
}

/// How many nodes are inside a ring whose positions are tested to be within the limit, by a scan. Asks `count` times.
pub(crate) fn locations_by_scan(alloc: Global, count: u32) -> Result<u64, NoMemory> {
    let ring = ring(alloc)?;
    if !is_way(&ring) {
        return Ok(0);
    }
    Ok(inside_by_scan(&ring, count))
}

fn inside_by_scan(ring: &Path, count: u32) -> u64
    requires limit { IsWayInLimit ring.now }
{
    let mut random = Random::new();
    let mut found: u64 = 0;
    for _ in 0..count {
        let node = random.node();
        if ring_locate(ring, &node) == Loc::Interior {
            found = found.wrapping_add(1);
        }
    }
    found
}
