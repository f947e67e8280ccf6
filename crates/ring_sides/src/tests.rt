//! Each of the three calls once with ample memory, on triangles and a line.
ghost use Rattle.std.specs.Prelude.{◌≡◌, ◌∷◌, [], ◌-ℤ◌, ◌*ℤ◌, pos, IfOk};
ghost use Rattle.plane_exact.specs.Places.{IsInLimit};
ghost use Rattle.point_set.specs.Shape.{IsRingShaped};
ghost use Rattle.point_set.specs.Validity.{HasTooFewPoints, CrossesItself, IsValid};

use super::{edges_of, interior_side, orient_ring};
use plane_exact::{NoMemory, Path, Pt, Seg};
use point_set::{Area, Edge, Figure, Hand, Owner, Paths, Valid, well_shaped};
use std::alloc::Global;
use std::test::Fail;

/// The closed ring of three positions that aren't on one line.
fn triangle(alloc: Global, a: Pt, b: Pt, c: Pt) -> Result<Path, NoMemory>
    requires a { IsInLimit a }
    requires b { IsInLimit b }
    requires c { IsInLimit c }
    requires broad { ¬ (((b.x -ℤ a.x) *ℤ (c.y -ℤ a.y)) -ℤ ((b.y -ℤ a.y) *ℤ (c.x -ℤ a.x)) ≡ pos 0) }
    ensures positions { IfOk result (λ ring. ring ≡ a ∷ b ∷ c ∷ a ∷ []) }
    ensures shaped { IfOk result (λ ring. IsRingShaped ring) }
    ensures enough { IfOk result (λ ring. ¬ HasTooFewPoints ring) }
    ensures simple { IfOk result (λ ring. ¬ CrossesItself ring) }
{
    let mut ring = Path::new(alloc);
    ring.push(a)?;
    ring.push(b)?;
    ring.push(c)?;
    ring.push(a)?;
    Ok(ring)
}

/// The figure of a line and of one area without holes.
fn figure_of(alloc: Global, line: Path, shell: Path) -> Result<Figure, NoMemory>
    requires enough { ¬ HasTooFewPoints shell }
    requires simple { ¬ CrossesItself shell }
    ensures valid { IfOk result (λ figure. IsValid figure) }
{
    let mut figure = Figure::empty(alloc);
    let holes = Paths::new(alloc);
    figure.lines.push(line)?;
    figure.areas.push(Area {
        shell,
        holes,
        group: 0,
    })?;
    Ok(figure)
}

/// The figure sealed, or None where it isn't well shaped.
fn sealed(figure: Figure) -> Option<Valid>
    requires valid { IsValid figure }
{
    if well_shaped(&figure) {
        Some(Valid::seal(figure))
    } else {
        None
    }
}

fn at(x: i64, y: i64) -> Pt
    ensures x { result.x ≡ x }
    ensures y { result.y ≡ y }
{
    Pt { x, y }
}

#[test]
fn sides_of_triangles(rt: HostRuntime) -> Result<(), Fail> {
    let left = triangle(rt.alloc(), at(0, 0), at(4, 0), at(0, 4))?;
    assert_eq!(rt; interior_side(&left), Hand::Left);
    let right = triangle(rt.alloc(), at(0, 0), at(0, 4), at(4, 0))?;
    assert_eq!(rt; interior_side(&right), Hand::Right);
    Ok(())
}

#[test]
fn triangles_turned(rt: HostRuntime) -> Result<(), Fail> {
    let turned = [at(0, 0), at(0, 4), at(4, 0), at(0, 0)];
    let mut left = triangle(rt.alloc(), at(0, 0), at(4, 0), at(0, 4))?;
    orient_ring(&mut left);
    assert_eq!(rt; left.as_slice(), turned.as_slice());
    let mut right = triangle(rt.alloc(), at(0, 0), at(0, 4), at(4, 0))?;
    orient_ring(&mut right);
    assert_eq!(rt; right.as_slice(), turned.as_slice());
    Ok(())
}

fn edge(a: Pt, b: Pt, owner: Owner, hand: Hand) -> Edge {
    Edge {
        seg: Seg { a, b },
        owner,
        hand,
    }
}

#[test]
fn edges_of_a_line_and_a_triangle(rt: HostRuntime) -> Result<(), Fail> {
    let mut line = Path::new(rt.alloc());
    line.push(at(1, 1))?;
    line.push(at(1, 1))?;
    line.push(at(3, 1))?;
    let shell = triangle(rt.alloc(), at(0, 0), at(4, 0), at(0, 4))?;
    let figure = figure_of(rt.alloc(), line, shell)?;
    let valid = sealed(figure).ok_or("not well shaped")?;
    let rows = edges_of(rt.alloc(), &valid)?;
    let shell_edge = Owner::Ring(0, 0);
    let expected = [
        edge(at(1, 1), at(3, 1), Owner::Line(0), Hand::Line),
        edge(at(0, 0), at(4, 0), shell_edge, Hand::Left),
        edge(at(4, 0), at(0, 4), shell_edge, Hand::Left),
        edge(at(0, 4), at(0, 0), shell_edge, Hand::Left),
    ];
    assert_eq!(rt; rows.as_slice(), expected.as_slice());
    Ok(())
}
