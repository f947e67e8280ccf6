ghost use Rattle.std.specs.Prelude.{◌≡◌, [], Some};

use geosop_io::{Failed, Sink};
use std::alloc::Global;

/// A sink that keeps what it takes in memory. It counts a fault where memory is wanting.
#[derive(Debug, Drop)]
pub(crate) struct Gathered {
    pub(crate) text: Vec<u8>,
    faults: u64,
}

impl Gathered {
    /// A sink that has taken nothing yet.
    pub(crate) fn new(alloc: Global) -> Gathered
        ensures empty { result.text.items ≡ [] }
    {
        Gathered {
            text: Vec::new(alloc),
            faults: 0,
        }
    }
}

impl Sink for Gathered {
    ghost seen = { λ s. record { taken = Some s.text.items; faults = s.faults } };

    fn write(&mut self, piece: &[u8]) -> Result<usize, Failed> {
        let one_more = self.faults.saturating_add(1);
        if self.text.extend_from_slice(piece).is_err() {
            self.faults = one_more;
            return Err(Failed);
        }
        Ok(piece.len())
    }
}
