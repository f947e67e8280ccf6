ghost use Rattle.std.specs.Prelude.{◌≡◌, ◌<◌, ◌≤◌, ◌^◌, length, take, IfOk, OnErr};
ghost use Rattle.geosop_io.specs.Sink.{SinkSeen, IsOffered, after_taking, after_fault};

/// The answer of a call that met a fault, which its object has counted.
#[derive(Clone, Copy, Debug, PartialEq, Eq)]
pub struct Failed;

/// Something that takes bytes and counts its faults.
pub trait Sink {
    // What contracts see of it.
    ghost seen: { Self → SinkSeen };

    /// Offers a piece that isn't empty, and answers how many bytes of its front were taken, which
    /// is at least one.
    ///
    /// # Errors
    /// `Failed` where a fault was counted, and then nothing was taken.
    fn write(&mut self, piece: &[u8]) -> Result<usize, Failed>
        requires nonempty { 0 < length piece.now }

        // From one byte to the whole piece is taken, and stands behind what was taken before.
        ensures some { IfOk result (λ count. 0 < count) }
        ensures bound { IfOk result (λ count. count ≤ length piece.now) }
        ensures ok { IfOk result (λ count. seen self.new ≡ after_taking (seen self.old) (take count piece.now)) }

        // A failure takes nothing, and is counted.
        ensures err { OnErr result (seen self.new ≡ after_fault (seen self.old)) }

        // The count of faults never falls, and ends at 2^64 - 1.
        ensures rising { (seen self.old).faults ≤ (seen self.new).faults }
        ensures ends { (seen self.new).faults < 2 ^ 64 };
}

/// Offers a piece whole, and again what wasn't taken of it, until all of it is.
///
/// # Errors
/// `Failed` where the sink counted a fault, and then a front of the piece was taken.
pub fn offer_whole<O: Sink>(out: &mut O, piece: &[u8]) -> Result<(), Failed>
    ensures offered { IsOffered result (O.seen out.old) (O.seen out.new) piece.now }
    ensures rising { (O.seen out.old).faults ≤ (O.seen out.new).faults }
{
    let mut at = 0;
    while at < piece.len() {
        at += out.write(&piece[at..])?;
    }
    Ok(())
}
