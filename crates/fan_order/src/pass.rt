ghost use Rattle.std.specs.Prelude.{◌≡◌, ◌<◌, ◌≤◌, ◌+◌, ◌*◌, ◌++◌, ◌∷◌, [], ◌↔◌, ◌⊎◌, ℕ, length, All, AllPairs, Any, IfOk, IsOk};
ghost use Rattle.std.specs.Prelude.{IfSome, IsNone, IsTrue, Some};
ghost use Rattle.std.specs.Prelude.{slice_index, slice_index_or, false};
ghost use Rattle.std.specs.declared.cmp.Ordering.TheVariants.{Less};
ghost use Rattle.plane_exact.specs.Orders.{compare_angles, IsSameDirection};
ghost use Rattle.fan_order.specs.Passes.{twice, IsPassOf, ArePasses, AddsPasses, IsUntil, IsOpened, AreReaches, IsReachedOver};
ghost use Rattle.fan_order.specs.Rays.{AreRaysOf};

use crate::ray::{Ray, place_of};
use crate::section::Section;
use im_matrix::Which;
use plane_exact::NoMemory;
use point_set::Hand;
use smallvec::SmallVec;
use std::alloc::Global;

/// A section of an area, passed by the walk twice round the rays. Passes are ordered by area, and then by place.
#[derive(Clone, Copy, Debug, Default, PartialEq, Eq, PartialOrd, Ord)]
pub(crate) struct Pass {
    /// The area's place in its figure.
    pub(crate) area: u32,
    /// The place of the section's ray on the way: that of the ray, or in the second turn as many more as there are rays.
    pub(crate) place: usize,
    /// Whether the walk enters the area.
    pub(crate) enters: bool,
}

/// The passes of the sections of areas of a figure, two for each.
pub(crate) fn passes_of(
    alloc: Global,
    sections: &[Section],
    rays: &[Ray],
    which: Which,
) -> Result<SmallVec<Pass, 16>, NoMemory>
    requires rays { AreRaysOf sections.now rays.now }
    ensures passes { IfOk result (λ passes. ArePasses which (twice rays.now) sections.now passes.items) }
    ensures room { length sections.now ≤ 8 → IsOk result }
{
    let mut passes = SmallVec::new(alloc);
    passes.reserve(2 * sections.len())?;
    for section in sections {
        add_passes(&mut passes, section, rays, which);
    }
    Ok(passes)
}

/// Appends the passes of a section where it is one of an area of the figure.
fn add_passes(passes: &mut SmallVec<Pass, 16>, section: &Section, rays: &[Ray], which: Which)
    requires ascending { AllPairs (λ d e. compare_angles d e ≡ Less) rays.now }
    requires along { Any (IsSameDirection section.now.dir) rays.now }
    requires room { length passes.old.items + 2 ≤ passes.old.capacity }
    ensures passes { AddsPasses which (twice rays.now) section.now passes.old.items passes.new.items }
    ensures room { passes.new.capacity ≡ passes.old.capacity }
{
    if let Some(pass) = pass_of(section, rays, which) {
        passes.push_reserved(pass);
        passes.push_reserved(Pass {
            place: pass.place + rays.len(),
            ..pass
        });
    }
}

/// The pass of a section in the first turn. None where it isn't one of an area of the figure.
fn pass_of(section: &Section, rays: &[Ray], which: Which) -> Option<Pass>
    requires ascending { AllPairs (λ d e. compare_angles d e ≡ Less) rays.now }
    requires along { Any (IsSameDirection section.now.dir) rays.now }
    ensures pass { IfSome result (IsPassOf which rays.now section.now) }
    ensures none { IsNone result → (area : ℕ) → section.now.which ≡ which → ¬ (section.now.area ≡ Some area) }
{
    if section.which != which {
        return None;
    }
    let area = section.area?;
    Some(Pass {
        area,
        place: place_of(rays, section.dir),
        enters: section.hand == Hand::Left,
    })
}

/// For each place of the way the place up to which it is surely inside an area that it enters there: the farthest at which such an
/// area is passed next, or the end of the way.
pub(crate) fn reach_of(
    alloc: Global,
    passes: &[Pass],
    end: usize,
) -> Result<SmallVec<usize, 16>, NoMemory>
    requires places { All (λ pass. pass.place < end) passes.now }
    ensures length { IfOk result (λ reach. length reach.items ≡ end) }
    ensures reach { IfOk result (λ reach. AreReaches passes.now reach.items) }
    ensures room { end ≤ 16 → IsOk result }
{
    let mut reach = SmallVec::from_elem(alloc, 0, end)?;
    fill_reach(reach.as_mut_slice(), passes);
    Ok(reach)
}

/// Raises the reach of each place, from 0, by the passes there.
fn fill_reach(reach: &mut [usize], passes: &[Pass])
    requires places { All (λ pass. pass.place < length reach.old) passes.now }
    requires zero { (place : ℕ) → slice_index reach.old place ≡ 0 }
    ensures length { length reach.new ≡ length reach.old }
    ensures reach { AreReaches passes.now reach.new }
{
    for i in 0..passes.len() {
        raise_reach(reach, passes, i);
    }
}

/// Raises the reach of the place of a pass.
fn raise_reach(reach: &mut [usize], passes: &[Pass], i: usize)
    requires place { i < length passes.now }
    requires places { All (λ pass. pass.place < length reach.old) passes.now }
    ensures length { length reach.new ≡ length reach.old }
    ensures reach { (place beyond : ℕ) → (beyond < slice_index reach.new place
        ↔ ((beyond < slice_index reach.old place) ⊎ IsOpened passes.now (length reach.old) i place beyond)) }
{
    let pass = passes[i];
    if pass.enters {
        let until = until(passes, i, reach.len());
        reach[pass.place] = reach[pass.place].max(until);
    }
}

/// The place at which the area of a pass is passed next, or the end of the way.
fn until(passes: &[Pass], i: usize, end: usize) -> usize
    requires place { i < length passes.now }
    ensures until { IsUntil passes.now end i result }
{
    let area = passes[i].area;
    match passes.get(i + 1) {
        Some(next) if next.area == area => next.place,
        _ => end,
    }
}

/// For each place whether an earlier one, or it itself, reaches beyond it.
pub(crate) fn open_at(alloc: Global, reach: &[usize]) -> Result<SmallVec<bool, 16>, NoMemory>
    ensures length { IfOk result (λ opened. length opened.items ≡ length reach.now) }
    ensures open { IfOk result (λ opened. (place : ℕ) → place < length reach.now
        → (IsTrue (slice_index_or opened.items place false) ↔ IsReachedOver reach.now place)) }
    ensures room { length reach.now ≤ 16 → IsOk result }
{
    let mut opened = SmallVec::new(alloc);
    opened.reserve(reach.len())?;
    let mut farthest = 0;
    for until in reach {
        farthest = farthest.max(*until);
        opened.push_reserved(opened.len() < farthest);
    }
    Ok(opened)
}
