ghost use Rattle.std.specs.Prelude.{None};

use geosop_io::{Failed, Sink};

/// A sink that takes everything and keeps nothing.
#[derive(Clone, Copy, Debug)]
pub(crate) struct Discard;

impl Sink for Discard {
    ghost seen = { λ _. record { taken = None; faults = 0 } };

    fn write(&mut self, piece: &[u8]) -> Result<usize, Failed> {
        Ok(piece.len())
    }
}
