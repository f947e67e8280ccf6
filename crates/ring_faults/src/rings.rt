ghost use Rattle.std.specs.Prelude.{◌≡◌, ◌≢◌, ◌↔◌, ◌⊎◌, ◌≤◌, length, All, Contains, IfNone, IfOk, IfSome, IsTrue};
ghost use Rattle.point_set.specs.Shape.{IsAreaShaped, IsRingShaped, positions_of_area};
ghost use Rattle.point_set.specs.Validity.{CrossesItself, HasTooFewPoints, RingsShareSegment};

use crate::clash::{Clash, some_clash};
use crate::part::{PartEdges, add_ring, edges_by_ring};
use plane_exact::{NoMemory, Path, Pt};
use point_set::Area;
use std::alloc::Global;

/// Whether a ring has fewer than three distinct positions. Takes no memory.
pub fn has_too_few(ring: &Path) -> bool
    ensures few { IsTrue result ↔ HasTooFewPoints ring.now }
{
    match ring.as_slice().split_first() {
        None => true,
        Some((first, others)) => match other_than(*first, others) {
            None => true,
            Some(second) => are_all_of(others, *first, second),
        },
    }
}

/// The first position that isn't the given one.
fn other_than(one: Pt, positions: &[Pt]) -> Option<Pt>
    ensures other { IfSome result (λ p. Contains positions.now p × (p ≢ one)) }
    ensures none { IfNone result (All (λ p. p ≡ one) positions.now) }
{
    positions.iter().copied().find(|p| *p != one)
}

/// Whether each position is one of two.
fn are_all_of(positions: &[Pt], one: Pt, other: Pt) -> bool
    ensures two { IsTrue result ↔ All (λ p. (p ≡ one) ⊎ (p ≡ other)) positions.now }
{
    positions.iter().all(|p| is_one_of(p, one, other))
}

/// Whether a position is one of two.
fn is_one_of(p: &Pt, one: Pt, other: Pt) -> bool
    ensures two { IsTrue result ↔ ((p.now ≡ one) ⊎ (p.now ≡ other)) }
{
    is_equal(p, one) || is_equal(p, other)
}

/// Whether two positions are equal.
fn is_equal(p: &Pt, q: Pt) -> bool
    ensures same { IsTrue result ↔ (p.now ≡ q) }
{
    *p == q
}

/// Whether a ring crosses or touches itself.
///
/// # Errors
/// `NoMemory`.
pub fn crosses_itself(alloc: Global, ring: &Path) -> Result<bool, NoMemory>
    requires few { length ring.now ≤ 1048576 }
    requires shaped { IsRingShaped ring.now }
    ensures crosses { IfOk result (λ b. IsTrue b ↔ CrossesItself ring.now) }
{
    let mut edges = PartEdges::new(alloc);
    add_ring(&mut edges, ring, 0)?;
    some_clash(alloc, edges, Clash::Crossing)
}

/// Whether two rings of an area have a common segment.
///
/// # Errors
/// `NoMemory`.
pub fn rings_share(alloc: Global, area: &Area) -> Result<bool, NoMemory>
    requires few { positions_of_area area.now ≤ 1048576 }
    requires shaped { IsAreaShaped area.now }
    ensures share { IfOk result (λ b. IsTrue b ↔ RingsShareSegment area.now) }
{
    if area.holes.len() == 0 {
        return Ok(false);
    }
    some_clash(alloc, edges_by_ring(alloc, area)?, Clash::Sharing)
}
