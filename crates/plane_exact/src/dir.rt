ghost use Rattle.plane_exact.specs.Directions.{IsWay};

/// A direction: a way of `dx` to the right and `dy` up. The two aren't both 0, and have a size of at most 2^23 each.
#[derive(Clone, Copy, Debug, PartialEq, Eq)]
pub struct Dir {
    /// The way to the right.
    pub dx: i64,
    /// The way up.
    pub dy: i64,
    pub ghost way: { IsWay dx dy },
}
