ghost use Rattle.std.specs.Prelude.{◌≡◌, ◌<◌, ◌≤◌, ◌+◌, ◌*◌, ◌↔◌, ◌⊎◌, ◌∷◌, [], ℕ, length, AllPairs, Any, IfOk, IsOk, IsTrue};
ghost use Rattle.std.specs.Prelude.{slice_index_or, false};
ghost use Rattle.std.specs.declared.cmp.Ordering.TheVariants.{Less};
ghost use Rattle.plane_exact.specs.Orders.{compare_angles, IsSameDirection};
ghost use Rattle.point_set.specs.declared.edge.Hand.TheVariants as hand;
ghost use Rattle.point_set.specs.Validity.{IsAtPlace};
ghost use Rattle.plane_exact.specs.declared.dir.Dir.{Dir};
ghost use Rattle.fan_order.specs.Passes.{IsRound};
ghost use Rattle.fan_order.specs.Rays.{AreRaysOf};
ghost use Rattle.fan_order.specs.Sections.{IsLineAlong, IsSectorInside, AreHandsAlike, AreSided};

use crate::pass::{open_at, passes_of, reach_of};
use crate::ray::{Ray, place_of};
use crate::section::Section;
use im_matrix::Which;
use plane_exact::NoMemory;
use point_set::Hand;
use smallvec::SmallVec;
use std::alloc::Global;

/// What a walk round the rays finds of one figure.
#[derive(Debug, Drop)]
pub(crate) struct Walk {
    /// For each place of the walk twice round the rays, whether the sector after it is inside an area. The first turn starts
    /// outside all areas, and the second as the first ended.
    pub(crate) inside: SmallVec<bool, 16>,
    /// For each ray, whether a line runs along it.
    pub(crate) lines: SmallVec<bool, 8>,
}

impl Walk {
    /// Walks round the rays of the sections.
    pub(crate) fn round(
        alloc: Global,
        sections: &[Section],
        rays: &[Ray],
        which: Which,
    ) -> Result<Walk, NoMemory>
        requires rays { AreRaysOf sections.now rays.now }
        ensures round { IfOk result (IsRound which sections.now rays.now) }
        ensures room { length sections.now ≤ 8 → length rays.now ≤ 8 → IsOk result }
    {
        let inside = inside_of(alloc, sections, rays, which)?;
        let mut lines = SmallVec::from_elem(alloc, false, rays.len())?;
        note_lines(lines.as_mut_slice(), sections, rays, which);
        Ok(Walk { inside, lines })
    }
}

/// For each place of the walk twice round the rays, whether the sector after it is inside an area of the figure.
fn inside_of(
    alloc: Global,
    sections: &[Section],
    rays: &[Ray],
    which: Which,
) -> Result<SmallVec<bool, 16>, NoMemory>
    requires rays { AreRaysOf sections.now rays.now }
    ensures turns { IfOk result (λ inside. length inside.items ≡ 2 * length rays.now) }
    ensures inside { IfOk result (λ inside. AreHandsAlike which sections.now → AreSided which sections.now → (i : ℕ)
        → i < length rays.now
        → (IsTrue (slice_index_or inside.items (length rays.now + i) false) ↔ IsSectorInside which sections.now rays.now i)) }
    ensures room { length sections.now ≤ 8 → length rays.now ≤ 8 → IsOk result }
{
    let mut passes = passes_of(alloc, sections, rays, which)?;
    passes.sort_unstable();
    let reach = reach_of(alloc, passes.as_slice(), 2 * rays.len())?;
    open_at(alloc, reach.as_slice())
}

/// Notes the rays along which a line of the figure runs.
fn note_lines(lines: &mut [bool], sections: &[Section], rays: &[Ray], which: Which)
    requires rays { AreRaysOf sections.now rays.now }
    requires length { length lines.old ≡ length rays.now }
    requires none { (i : ℕ) → ¬ IsTrue (slice_index_or lines.old i false) }
    ensures length { length lines.new ≡ length rays.now }
    ensures lines { (i : ℕ) (ray : Dir) → IsAtPlace rays.now i ray
        → (IsTrue (slice_index_or lines.new i false) ↔ IsLineAlong which sections.now ray) }
{
    for section in sections {
        note_line(lines, section, rays, which);
    }
}

/// Notes the ray of a section where it is one of a line of the figure.
fn note_line(lines: &mut [bool], section: &Section, rays: &[Ray], which: Which)
    requires ascending { AllPairs (λ d e. compare_angles d e ≡ Less) rays.now }
    requires along { Any (IsSameDirection section.now.dir) rays.now }
    requires length { length lines.old ≡ length rays.now }
    ensures length { length lines.new ≡ length rays.now }
    ensures lines { (i : ℕ) (ray : Dir) → IsAtPlace rays.now i ray → (IsTrue (slice_index_or lines.new i false)
        ↔ (IsTrue (slice_index_or lines.old i false) ⊎ IsLineAlong which (section.now ∷ []) ray)) }
{
    if is_of_line(section, which) {
        lines[place_of(rays, section.dir)] = true;
    }
}

/// Whether the section is one of a line of the figure.
fn is_of_line(section: &Section, which: Which) -> bool
    ensures line { IsTrue result ↔ ((section.now.which ≡ which) × (section.now.hand ≡ hand.Line)) }
{
    section.which == which && section.hand == Hand::Line
}
