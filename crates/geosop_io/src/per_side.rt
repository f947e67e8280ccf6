ghost use Rattle.std.specs.Prelude.{◌≡◌};

use im_matrix::Which;

/// A value for each side of a pair.
#[derive(Debug, Drop)]
pub struct PerSide<T> {
    pub a: T,
    pub b: T,
}

impl<T> PerSide<T> {
    ghost use Rattle.geosop_io.specs.PerSide.{on_side, with_side};

    /// The value of a side.
    pub fn get(&self, side: Which) -> &T
        ensures value { result.now ≡ on_side self.now side }
    {
        match side {
            Which::A => &self.a,
            Which::B => &self.b,
        }
    }

    /// Puts another value in a side's place.
    pub fn set(&mut self, side: Which, value: T)
    where
        T: Drop,
        ensures put { self.new ≡ with_side self.old side value }
    {
        match side {
            Which::A => self.a = value,
            Which::B => self.b = value,
        }
    }
}
