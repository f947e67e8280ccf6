ghost use Rattle.std.specs.Prelude.{◌≡◌, ℕ, ◌+◌, ◌<◌, ◌≤◌, length, IfOk, OnOk, MatchOption, slice_get};
ghost use Rattle.plane_exact.specs.NodePoints.{point_at};
ghost use Rattle.point_set.specs.declared.figure.Figure.{Figure};
ghost use Rattle.point_set.specs.Location.{IsKind};
ghost use Rattle.point_set.specs.Edges.{edges_of_figure, ArePlacesIn, IsEdgeAt, HasHand};
ghost use Rattle.point_set.specs.Extents.{IsExtent};

use crate::dim_loc::DimLoc;
use crate::edge::{Edge, EdgeId};
use crate::extent::Extent;
use crate::rule::Rule;
use crate::valid::Valid;
use plane_exact::{NoMemory, Node, PlaceList, Window};

/// A valid figure that can be asked where nodes lie in it, and which edges are near.
pub trait Target {
    /// The figure. No call changes it.
    ghost figure: { Self → Figure };

    /// A number that only `locate` raises, by at most one.
    ghost looks: { Self → ℕ };

    /// The figure.
    fn valid(&self) -> &Valid
        ensures figure { result.now ≡ figure self.now };

    /// The edge at a place of the list of the figure's edges. Takes no memory.
    fn edge(&self, id: EdgeId) -> Edge
        requires within { id.place < length (edges_of_figure (figure self.now)) }
        ensures edge { IsEdgeAt (edges_of_figure (figure self.now)) id.place result }
        ensures hand { HasHand (figure self.now) result.owner result.seg result.hand };

    /// Where a node lies, with the kind of element that decides.
    ///
    /// # Errors
    /// `NoMemory`.
    fn locate(&mut self, n: &Node, rule: Rule) -> Result<DimLoc, NoMemory>
        ensures kind { IfOk result (IsKind (figure self.new) rule (point_at n.now)) }
        ensures figure { figure self.new ≡ figure self.old }
        ensures looks_kept { looks self.old ≤ looks self.new }
        ensures looks { looks self.new ≤ looks self.old + 1 };

    /// Makes `out` the places of exactly the edges whose windows meet `w`, ascending.
    ///
    /// # Errors
    /// `NoMemory`, and then `out` holds any list.
    fn edges_in(&mut self, w: Window, out: &mut PlaceList) -> Result<(), NoMemory>
        ensures places { OnOk result (ArePlacesIn w (edges_of_figure (figure self.new)) out.new) }
        ensures figure { figure self.new ≡ figure self.old }
        ensures looks { looks self.new ≡ looks self.old };

    /// The envelopes of the figure's rings, of its lines with two different positions, of its points and other lines, and of
    /// the line ends that are boundary under the rule. Takes no memory.
    fn extent(&self, rule: Rule) -> Extent
        ensures extent { IsExtent (figure self.now) rule result };
}
