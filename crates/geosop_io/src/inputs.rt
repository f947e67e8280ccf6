ghost use Rattle.std.specs.Prelude.{◌≡◌, ◌<◌, ◌≤◌, ◌^◌, true, length, None, IfOk, OnOk, OnErr};
ghost use Rattle.geosop_io.specs.Inputs.{InputsSeen, HasStarted, HasFailedToStart, HasRead, KeepsOthers, after_fault, meets_end};

use crate::sink::Failed;
use crate::word::Word;
use im_matrix::Which;

/// The two sources of a run, each read under a name, and a count of their faults.
pub trait Inputs {
    // What contracts see of them.
    ghost seen: { Self → InputsSeen };

    /// Asks for a side by its name, once for each side.
    ///
    /// # Errors
    /// `Failed` where a fault was counted. The side was asked for all the same, and isn't started.
    fn start(&mut self, side: Which, name: Word) -> Result<(), Failed>
        requires new { (seen self.old).asked side ≡ None }

        ensures ok { OnOk result (HasStarted side name (seen self.old) (seen self.new)) }
        ensures err { OnErr result (HasFailedToStart side name (seen self.old) (seen self.new)) }
        ensures others { KeepsOthers side (seen self.old) (seen self.new) }

        // The count of faults never falls, and ends at 2^64 - 1.
        ensures rising { (seen self.old).faults ≤ (seen self.new).faults }
        ensures ends { (seen self.new).faults < 2 ^ 64 };

    /// Reads bytes of a side into the front of a buffer, and answers how many. None for a buffer
    /// with room means that the side has ended.
    ///
    /// # Errors
    /// `Failed` where a fault was counted, and then no byte of the side was passed over.
    fn read(&mut self, side: Which, buf: &mut [u8]) -> Result<usize, Failed>
        requires started { (seen self.old).started side ≡ true }

        ensures bound { IfOk result (λ count. count ≤ length buf.old) }
        ensures ok { IfOk result (λ count. HasRead side count buf.new (length buf.old) (seen self.old) (seen self.new)) }
        ensures err { OnErr result (seen self.new ≡ after_fault (seen self.old)) }
        ensures others { KeepsOthers side (seen self.old) (seen self.new) }

        // The count of faults never falls, and ends at 2^64 - 1.
        ensures rising { (seen self.old).faults ≤ (seen self.new).faults }
        ensures ends { (seen self.new).faults < 2 ^ 64 };
}

/// Whether a read that gave so many bytes into a buffer with so much room has met the end.
pub(crate) fn is_end(count: usize, room: usize) -> bool
    ensures end { result ≡ meets_end count room }
{
    count == 0 && room > 0
}
