ghost use Rattle.std.specs.Prelude.{◌≡◌, ◌≤◌, ◌++◌, ◌∷◌, [], length, true, false, IfOk, OnOk};
ghost use Rattle.point_set.specs.Shape.{IsAreaShaped, IsWellShaped};
ghost use Rattle.union_locator.specs.Shells.{AreBoxesNear, AreShellBoxes, IsShellBox};

use edge_index::EdgeIndex;
use figure_extent::of_way;
use plane_exact::{BoxList, NoMemory, Node, PlaceList, Window, diagonals_of};
use point_set::{Area, Figure};
use std::alloc::Global;
use std::marker::Model;

/// The greatest number of areas that are looked at one by one, since making an index of their boxes would take longer.
pub(crate) const FEW_AREAS: usize = 32;

/// The boxes of the shells of a figure's areas, in order, and once it is made an index that finds those near a node.
#[derive(Drop)]
pub struct IndexedShells {
    boxes: BoxList,
    index: Option<EdgeIndex>,
}

impl Model for IndexedShells {
    ghost use Rattle.std.specs.Prelude.{List};
    ghost use Rattle.plane_exact.specs.declared.window.Window.{Window};
    ghost use Rattle.union_locator.specs.Shells.{AreIndexedShells};

    ghost Value = { List Window };

    ghost view = { λ s. s.boxes };

    ghost invariant = { λ s. AreIndexedShells s.boxes s.index };
}

impl IndexedShells {
    ghost use Rattle.std.specs.Prelude.{◌≡◌, ◌<◌, List, length, slice_index_or, IfOk, OnOk};
    ghost use Rattle.plane_exact.specs.NodePoints.{point_at};
    ghost use Rattle.point_set.specs.Shape.{IsWellShaped};
    ghost use Rattle.point_set.specs.declared.figure.Area.{Area};
    ghost use Rattle.union_locator.specs.Shells.{AreShellBoxes, AreShellsNear};

    /// The boxes of a figure's shells, without an index.
    ///
    /// # Errors
    /// `NoMemory`.
    pub fn of(alloc: Global, figure: &Figure) -> Result<IndexedShells, NoMemory>
        requires shaped { IsWellShaped figure.now }
        ensures boxes { IfOk result (AreShellBoxes figure.now.areas) }
    {
        Ok(IndexedShells {
            boxes: shells_of(alloc, figure)?,
            index: None,
        })
    }

    /// The box of the shell of the area at a place. Takes no memory.
    pub fn at(&self, place: usize) -> &Window
        requires within { place < length self.now }
        ensures item { result.now ≡ slice_index_or self.now place result.now }
    {
        self.boxes.at(place)
    }

    /// Makes the index where there is none and the areas are more than a few.
    ///
    /// # Errors
    /// `NoMemory`, and then nothing has changed.
    pub fn make_index(&mut self, alloc: Global) -> Result<(), NoMemory>
        ensures same { self.new ≡ self.old }
    {
        if self.index.is_none() && self.boxes.len() > FEW_AREAS {
            let diagonals = diagonals_of(alloc, self.boxes.as_slice())?;
            self.index = Some(EdgeIndex::build(alloc, diagonals)?);
        }
        Ok(())
    }

    /// Makes `out` the places of exactly the areas whose shells are near a node, ascending.
    ///
    /// # Errors
    /// `NoMemory`, and then `out` holds any list.
    pub fn near(&self, n: &Node, out: &mut PlaceList) -> Result<(), NoMemory>
        ensures near { OnOk result ((areas : List Area) → AreShellBoxes areas self.now → AreShellsNear areas (point_at n.now) out.new) }
    {
        let window = Window::round(n);
        match &self.index {
            Some(index) => index.query(window, out),
            None => scan_boxes(&self.boxes, window, out),
        }
    }
}

/// Makes `out` the places of exactly the boxes that have a common point with `w`, ascending, by a look at each box.
///
/// # Errors
/// `NoMemory`, and then `out` holds any list.
#[tactic(auto, using(crate::proofs::Scans::all_boxes))]
fn scan_boxes(boxes: &BoxList, w: Window, out: &mut PlaceList) -> Result<(), NoMemory>
    requires few { length boxes.now ≤ 1048576 }
    ensures places { OnOk result (AreBoxesNear w boxes.now out.new) }
{
    out.clear();
    for (place, around) in boxes.as_slice().iter().enumerate() {
        push_met(out, place, w.meets(around))?;
    }
    Ok(())
}

/// Puts a place at the end of a list where it is met.
///
/// # Errors
/// `NoMemory`.
pub(crate) fn push_met(out: &mut PlaceList, place: usize, met: bool) -> Result<(), NoMemory>
    requires few { place ≤ 1048576 }
    ensures met { OnOk result (met ≡ true → out.new ≡ out.old ++ place ∷ []) }
    ensures passed { OnOk result (met ≡ false → out.new ≡ out.old) }
{
    if met {
        out.push(place as u32)?;
    }
    Ok(())
}

/// The box of the shell of each area of a figure.
///
/// # Errors
/// `NoMemory`.
fn shells_of(alloc: Global, figure: &Figure) -> Result<BoxList, NoMemory>
    requires shaped { IsWellShaped figure.now }
    ensures boxes { IfOk result (AreShellBoxes figure.now.areas) }
{
    let mut boxes = BoxList::new(alloc);
    for area in figure.areas.as_slice() {
        boxes.push(shell_box(area))?;
    }
    Ok(boxes)
}

/// The box of an area's shell.
fn shell_box(area: &Area) -> Window
    requires shaped { IsAreaShaped area.now }
    ensures shell { IsShellBox area.now result }
{
    match of_way(&area.shell) {
        Some(window) => window,
        None => unreachable!(),
    }
}
