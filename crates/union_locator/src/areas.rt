ghost use Rattle.std.specs.Prelude.{◌≡◌, ◌<◌, length, IfOk, OnOk};
ghost use Rattle.plane_exact.specs.NodePoints.{point_at};
ghost use Rattle.point_set.specs.declared.figure.Figure.{Figure};
ghost use Rattle.point_set.specs.Shape.{IsWellShaped};
ghost use Rattle.union_locator.specs.Areas.{AreEdgesByArea, AreNearAreas, IsInAreaAt, IsInAreas};

use crate::shells::{FEW_AREAS, IndexedShells};
use area_locator::{AreaIndex, law_areas_of_valid_figures_are_valid, locate_plain};
use im_matrix::Loc;
use plane_exact::{Count, ItemList, NoMemory, Node, PlaceList, Window};
use point_set::{Figure, Valid};
use std::alloc::Global;
use std::marker::Model;

/// A way to locate nodes in the areas of a valid figure, one by one.
pub trait AreaLocs {
    /// The figure. No call changes it.
    ghost figure: { Self → Figure };

    /// Where a node lies in the area at a place, counted from 0.
    ///
    /// # Errors
    /// `NoMemory`.
    fn loc(&mut self, area: u32, n: &Node) -> Result<Loc, NoMemory>
        requires place { area < length (figure self.old).areas }
        ensures location { IfOk result (IsInAreaAt (figure self.new) area (point_at n.now)) }
        ensures figure { figure self.new ≡ figure self.old };

    /// Makes `out` places of areas, ascending, such that a node is outside of every area at another place.
    ///
    /// # Errors
    /// `NoMemory`, and then `out` holds any list.
    fn near(&mut self, n: &Node, out: &mut PlaceList) -> Result<(), NoMemory>
        ensures near { OnOk result (AreNearAreas (figure self.new).areas (point_at n.now) out.new) }
        ensures figure { figure self.new ≡ figure self.old };
}

/// The greatest number of positions of a shell without holes that are looked at one by one, since making an index of its edges would
/// take longer.
const FEW_POSITIONS: usize = 32;

/// The areas of a figure, with the boxes of their shells. The indexes over the heights of their edges are made when a node is first
/// near an area with more than a few positions.
#[derive(Drop)]
pub(crate) struct IndexedAreas<'a> {
    valid: &'a Valid,
    shells: IndexedShells,
    indexes: Option<ItemList<AreaIndex>>,
    alloc: Global,
}

impl<'a> Model for IndexedAreas<'a> {
    ghost use Rattle.union_locator.specs.Areas.{SeenAreas, AreAreas};

    ghost Value = { SeenAreas };

    ghost view = { λ a. record { figure = a.valid.now; shells = a.shells; indexes = a.indexes } };

    ghost invariant = { λ a. AreAreas (record { figure = a.valid.now; shells = a.shells; indexes = a.indexes }) };
}

impl AreaLocs for IndexedAreas<'_> {
    ghost figure = { λ a. a.figure };

    fn loc(&mut self, area: u32, n: &Node) -> Result<Loc, NoMemory> {
        let place = area as usize;
        if Window::round(n).meets(self.shells.at(place)) {
            self.loc_near(place, n)
        } else {
            Ok(Loc::Exterior)
        }
    }

    fn near(&mut self, n: &Node, out: &mut PlaceList) -> Result<(), NoMemory> {
        self.shells.make_index(self.alloc)?;
        self.shells.near(n, out)
    }
}

impl<'a> IndexedAreas<'a> {
    ghost use Rattle.std.specs.Prelude.{◌≡◌, ◌<◌, None, length, IfOk, OnOk};
    ghost use Rattle.plane_exact.specs.NodePoints.{point_at};
    ghost use Rattle.union_locator.specs.Areas.{IsInAreaAt};

    /// The areas of a figure, in which no node was located.
    ///
    /// # Errors
    /// `NoMemory`.
    pub(crate) fn new(alloc: Global, v: &'a Valid) -> Result<IndexedAreas<'a>, NoMemory>
        ensures figure { IfOk result (λ areas. areas.figure ≡ v.now) }
    {
        Ok(IndexedAreas {
            valid: v,
            shells: IndexedShells::of(alloc, v.figure())?,
            indexes: None,
            alloc,
        })
    }

    /// Makes the indexes where there are none.
    ///
    /// # Errors
    /// `NoMemory`.
    fn make_indexes(&mut self) -> Result<(), NoMemory>
        ensures figure { self.new.figure ≡ self.old.figure }
        ensures made { OnOk result (¬ (self.new.indexes ≡ None)) }
    {
        if self.indexes.is_none() {
            self.indexes = Some(indexes_of(self.alloc, self.valid)?);
        }
        Ok(())
    }

    /// Where a node lies in the area at a place, by the area's index where it has more than a few positions.
    fn loc_near(&mut self, place: usize, n: &Node) -> Result<Loc, NoMemory>
        requires place { place < length self.old.figure.areas }
        ensures figure { self.new.figure ≡ self.old.figure }
        ensures location { IfOk result (IsInAreaAt self.new.figure place (point_at n.now)) }
    {
        let area = self.valid.figure().areas.at(place);
        if area.holes.len() == 0 && area.shell.len() <= FEW_POSITIONS {
            return Ok(locate_plain(area, n));
        }
        self.make_indexes()?;
        // An index locates in an area that is valid alone.
        law_areas_of_valid_figures_are_valid();
        match &self.indexes {
            Some(indexes) => Ok(indexes.at(place).locate(n, &mut Count::new())),
            None => unreachable!(),
        }
    }
}

/// The index of each area of a figure, in order.
///
/// # Errors
/// `NoMemory`.
pub(crate) fn indexes_of(alloc: Global, v: &Valid) -> Result<ItemList<AreaIndex>, NoMemory>
    ensures indexes { IfOk result (AreEdgesByArea v.now) }
{
    let count = v.figure().areas.len();
    let mut indexes = ItemList::new(alloc);
    for place in 0..count {
        indexes.push(AreaIndex::build(alloc, v, place as u32)?)?;
    }
    Ok(indexes)
}

/// What the single areas of a figure say of a node: Interior at the first that has it inside, else Boundary where one of
/// them has it on its boundary, else Exterior. Where the areas are more than a few only those near the node are asked.
pub(crate) fn locate_in_areas<L: AreaLocs>(
    alloc: Global,
    figure: &Figure,
    areas: &mut L,
    n: &Node,
) -> Result<Loc, NoMemory>
    requires shaped { IsWellShaped figure.now }
    requires figure { L.figure areas.old ≡ figure.now }
    ensures location { IfOk result (IsInAreas figure.now.areas (point_at n.now)) }
    ensures figure { L.figure areas.new ≡ L.figure areas.old }
{
    if figure.areas.len() <= FEW_AREAS {
        return locate_in_all(figure, areas, n);
    }
    let mut places = PlaceList::new(alloc);
    areas.near(n, &mut places)?;
    locate_in_near(areas, &places, n)
}

/// What all areas of a figure say of a node, one after the other.
fn locate_in_all<L: AreaLocs>(figure: &Figure, areas: &mut L, n: &Node) -> Result<Loc, NoMemory>
    requires shaped { IsWellShaped figure.now }
    requires figure { L.figure areas.old ≡ figure.now }
    ensures location { IfOk result (IsInAreas figure.now.areas (point_at n.now)) }
    ensures figure { L.figure areas.new ≡ L.figure areas.old }
{
    let mut loc = Loc::Exterior;
    for place in 0..figure.areas.len() {
        match areas.loc(place as u32, n)? {
            Loc::Interior => return Ok(Loc::Interior),
            Loc::Boundary => loc = Loc::Boundary,
            Loc::Exterior => {}
        }
    }
    Ok(loc)
}

/// What the areas at some places say of a node that is outside of all others, one after the other.
fn locate_in_near<L: AreaLocs>(areas: &mut L, places: &PlaceList, n: &Node) -> Result<Loc, NoMemory>
    requires near { AreNearAreas (L.figure areas.old).areas (point_at n.now) places.now }
    ensures location { IfOk result (IsInAreas (L.figure areas.old).areas (point_at n.now)) }
    ensures figure { L.figure areas.new ≡ L.figure areas.old }
{
    let mut found = Loc::Exterior;
    for place in places.as_slice() {
        match areas.loc(*place, n)? {
            Loc::Interior => return Ok(Loc::Interior),
            Loc::Boundary => found = Loc::Boundary,
            Loc::Exterior => {}
        }
    }
    Ok(found)
}
