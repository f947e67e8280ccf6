ghost use Rattle.std.specs.Prelude.{◌≡◌, ◌<◌, ℕ, List, length, map, IfOk, OnOk};
ghost use Rattle.once_cell.specs.Once.{cell_name};
ghost use Rattle.plane_exact.specs.NodePoints.{point_at};
ghost use Rattle.point_set.specs.Location.{IsKind};
ghost use Rattle.union_locator.specs.Areas.{IsInAreaAt};
ghost use Rattle.union_locator.specs.Nearby.{ArePlacesRound};
ghost use Rattle.relate_prep.specs.Cells.{AreAreaCells, AreLater};
ghost use Rattle.relate_prep.specs.Sessions.{AreAskedNear, AreKeptFar};
ghost use Rattle.union_locator.specs.Shells.{AreShellBoxes};

use crate::asked::Asked;
use crate::basis::Basis;
use crate::sources::AreaEdges;
use area_locator::{AreaIndex, law_areas_of_valid_figures_are_valid, locate_plain};
use im_matrix::Loc;
use once_cell::race::OnceBox;
use plane_exact::{Count, NoMemory, Node, PlaceList, Window};
use point_set::{DimLoc, Rule, Valid};
use std::alloc::Global;
use std::marker::Model;
use union_locator::{AreaLocs, IndexedShells, locate_with};

/// The areas of a figure, with what a session knows of the cells of their indexes.
#[derive(Drop)]
pub(crate) struct AskedAreas<'s, 'a> {
    pub(crate) valid: &'s Valid,
    /// The box of the shell of each area.
    pub(crate) shells: &'s IndexedShells,
    pub(crate) asked: &'s [Asked<'a, AreaIndex>],
}

impl<'s, 'a> Model for AskedAreas<'s, 'a> {
    ghost use Rattle.relate_prep.specs.Sessions.{SeenAreas, AreAskedAreas};

    ghost Value = { SeenAreas };

    ghost view = { λ a. record { figure = a.valid.now; shells = a.shells.now; cells = a.asked.now } };

    ghost invariant = { λ a. AreAskedAreas (record { figure = a.valid.now; shells = a.shells.now; cells = a.asked.now }) };
}

impl AreaLocs for AskedAreas<'_, '_> {
    ghost figure = { λ a. a.figure };

    fn loc(&mut self, area: u32, n: &Node) -> Result<Loc, NoMemory> {
        let place = area as usize;
        if Window::round(n).meets(self.shells.at(place)) {
            Ok(self.loc_near(place, n))
        } else {
            Ok(Loc::Exterior)
        }
    }

    fn near(&mut self, n: &Node, out: &mut PlaceList) -> Result<(), NoMemory> {
        self.shells.near(n, out)
    }
}

impl AskedAreas<'_, '_> {
    /// Where a node lies in the area at a place: by its index where there is one, and else the plain way.
    fn loc_near(&self, place: usize, n: &Node) -> Loc
        requires place { place < length self.now.figure.areas }
        ensures location { IsInAreaAt self.now.figure place (point_at n.now) result }
    {
        // An index locates in an area that is valid alone.
        law_areas_of_valid_figures_are_valid();
        let asked = self.asked;
        match asked[place].index() {
            Some(index) => index.locate(n, &mut Count::new()),
            None => locate_plain(self.valid.figure().areas.at(place), n),
        }
    }
}

/// Asks the cell of each area whose shell's box meets the least box round a node, and makes `near` the places of these areas.
///
/// # Errors
/// `NoMemory`, and then what was asked before is known, and `near` holds any list.
pub(crate) fn ask_near<'a>(
    alloc: Global,
    valid: &Valid,
    shells: &IndexedShells,
    cells: &'a [OnceBox<AreaIndex>],
    n: &Node,
    near: &mut PlaceList,
    asked: &mut [Asked<'a, AreaIndex>],
) -> Result<(), NoMemory>
    requires shells { AreShellBoxes valid.now.areas shells.now }
    requires cells { AreAreaCells valid.now (map cell_name cells.now) asked.old }
    ensures cells { AreAreaCells valid.now (map cell_name cells.now) asked.new }
    ensures later { AreLater asked.old asked.new }
    ensures asked { OnOk result (AreAskedNear valid.now.areas (point_at n.now) asked.new) }
    ensures kept { AreKeptFar valid.now.areas (point_at n.now) asked.old asked.new }
{
    shells.near(n, near)?;
    for place in near.as_slice() {
        let source = AreaEdges {
            alloc,
            valid,
            area: *place,
        };
        let area = *place as usize;
        asked[area].ask(alloc, &cells[area], &source)?;
    }
    Ok(())
}

/// Where a node lies in a figure, with the kind of element that decides, by what the session knows of the areas' cells. `near` are
/// the places of exactly the edges whose windows meet the least box round the node.
///
/// # Errors
/// `NoMemory`.
pub(crate) fn locate_asked(
    alloc: Global,
    basis: &Basis,
    asked: &[Asked<'_, AreaIndex>],
    near: &PlaceList,
    n: &Node,
    rule: Rule,
) -> Result<DimLoc, NoMemory>
    requires cells { (names : List ℕ) × AreAreaCells basis.now.figure names asked.now }
    requires near { ArePlacesRound basis.now.figure (point_at n.now) near.now }
    ensures kind { IfOk result (IsKind basis.now.figure rule (point_at n.now)) }
{
    let mut areas = AskedAreas {
        valid: &basis.valid,
        shells: &basis.shells,
        asked,
    };
    locate_with(
        alloc,
        &basis.valid,
        &basis.rows,
        near,
        &basis.ends,
        &mut areas,
        n,
        rule,
    )
}
