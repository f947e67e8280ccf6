ghost use Rattle.std.specs.Prelude.{◌<◌, length};
ghost use Rattle.im_matrix.specs.Cells.{cell};
ghost use Rattle.plane_laws.specs.Plane.{Point};
ghost use Rattle.plane_laws.specs.Directions.{Direction};
ghost use Rattle.plane_exact.specs.Orders.{direction_of};
ghost use Rattle.plane_exact.specs.declared.dir.Dir.{Dir};
ghost use Rattle.point_set.specs.declared.figure.Figure.{Figure};
ghost use Rattle.point_set.specs.declared.rule.Rule.{Rule};
ghost use Rattle.point_set.specs.Germ.{IsPairGerm};
ghost use Rattle.point_set.specs.Sectors.{IsInSector, sectors_of};
ghost use Rattle.point_set.specs.Validity.{IsAtPlace};
ghost use Rattle.fan_label.specs.Seen.{AreSeenAt};

use crate::pair::Pair;
use crate::part::{part_of_ray, part_of_sector};
use fan_order::Fan;
use im_matrix::Which;
use point_set::DimLoc;

/// The parts of both figures along ray `i` of a node's fan, where `at_a` and `at_b` are the kinds of the node in them. Takes no
/// memory.
pub fn label_ray(fan: &Fan, at_a: DimLoc, at_b: DimLoc, i: usize) -> Pair
    requires within { i < length fan.now.rays }
    ensures germ { (a b : Figure) (rule : Rule) (v : Point) → AreSeenAt a b rule v at_a at_b fan.now.sections
        → (ray : Dir) → IsAtPlace fan.now.rays i ray → IsPairGerm a b rule v (direction_of ray) (cell result.a result.b) }
{
    prove!(i < fan.rays());
    Pair {
        a: part_of_ray(fan, at_a, Which::A, i),
        b: part_of_ray(fan, at_b, Which::B, i),
    }
}

/// The parts of both figures along each direction of the sector after ray `i` of a node's fan, where `at_a` and `at_b` are the
/// kinds of the node in them. Takes no memory.
pub fn label_sector(fan: &Fan, at_a: DimLoc, at_b: DimLoc, i: usize) -> Pair
    requires within { i < sectors_of fan.now.rays }
    ensures germ { (a b : Figure) (rule : Rule) (v : Point) → AreSeenAt a b rule v at_a at_b fan.now.sections
        → (d : Direction) → IsInSector fan.now.rays i d → IsPairGerm a b rule v d (cell result.a result.b) }
{
    prove!(i < fan.rays().max(1));
    Pair {
        a: part_of_sector(fan, at_a, Which::A, i),
        b: part_of_sector(fan, at_b, Which::B, i),
    }
}
