ghost use Rattle.std.specs.Prelude.{◌≡◌, ◌<◌, ◌≤◌, ◌^◌, List, [], length, Some, None, IfOk, OnErr, IsErr, ◌↔◌};
ghost use Rattle.geosop_io.specs.MemSink.{seen_of, WriteFails, fitting, after_write, after_failed_write};

use crate::calls::Calls;
use crate::sink::{Failed, Sink};
use plane_exact::{NoMemory, PlaceList};
use std::alloc::Global;
use std::marker::Model;

/// A sink that keeps what it takes in memory, and fails where it is told to.
#[derive(Debug, Drop)]
pub struct MemSink {
    bytes: Vec<u8>,
    room: usize,
    most: Option<usize>,
    calls: Calls,
}

impl Model for MemSink {
    ghost use Rattle.std.specs.Prelude.{◌<◌, ◌≤◌, ◌^◌, length, vec_capacity, IfSome};
    ghost use Rattle.geosop_io.specs.MemSink.{MemTaken};

    ghost Value = { MemTaken };

    ghost view = { λ s. record { taken = s.bytes.items; room = s.room; most = s.most; calls = s.calls } };

    ghost invariant = { λ s. (length s.bytes.items ≤ s.room) × (s.room ≤ vec_capacity s.bytes)
        × IfSome s.most (λ most. 0 < most) × (s.calls.faults < 2 ^ 64) };
}

impl MemSink {
    /// An empty sink with room for so many bytes, whose writes with these numbers fail. It takes
    /// the memory for all of its room.
    ///
    /// # Errors
    /// `NoMemory`.
    pub fn new(alloc: Global, room: usize, fails: PlaceList) -> Result<MemSink, NoMemory>
        ensures empty { IfOk result (λ sink. sink ≡ record {
          taken = [];
          room = room;
          most = None;
          calls = record { fails = fails; made = 0; faults = 0 };
        }) }
    {
        let bytes = Vec::with_capacity(alloc, room)?;
        Ok(MemSink {
            bytes,
            room,
            most: None,
            calls: Calls::new(fails),
        })
    }

    /// A sink as that of `new`, each write of which takes at most so many bytes.
    ///
    /// # Errors
    /// `NoMemory`.
    pub fn cut(
        alloc: Global,
        most: usize,
        room: usize,
        fails: PlaceList,
    ) -> Result<MemSink, NoMemory>
        requires some { 1 ≤ most }
        ensures empty { IfOk result (λ sink. sink ≡ record {
          taken = [];
          room = room;
          most = Some most;
          calls = record { fails = fails; made = 0; faults = 0 };
        }) }
    {
        let mut sink = MemSink::new(alloc, room, fails)?;
        sink.most = Some(most);
        Ok(sink)
    }

    /// The bytes taken so far.
    pub fn bytes(&self) -> &[u8]
        ensures bytes { result.now ≡ self.now.taken }
    {
        self.bytes.as_slice()
    }
}

impl Sink for MemSink {
    ghost seen = { seen_of };

    /// Takes as much of the piece as there is room for and as a write may take. It fails by its
    /// number, and where no room is left.
    fn write(&mut self, piece: &[u8]) -> Result<usize, Failed>
        requires nonempty { 0 < length piece.now }
        ensures failed { IsErr result ↔ WriteFails self.old }
        ensures count { IfOk result (λ count. count ≡ fitting self.old piece.now) }
        ensures after { IfOk result (λ count. self.new ≡ after_write self.old piece.now count) }
        ensures after_failed { OnErr result (self.new ≡ after_failed_write self.old) }

        ensures some { IfOk result (λ count. 0 < count) }
        ensures rising { self.old.calls.faults ≤ self.new.calls.faults }
        ensures ends { self.new.calls.faults < 2 ^ 64 }
    {
        let is_failing = self.calls.next();
        let count = piece.len().min(self.room - self.bytes.len());
        let count = self.most.map_or(count, |most| most.min(count));
        if is_failing || count == 0 || self.bytes.extend_from_slice(&piece[..count]).is_err() {
            return Err(self.calls.fault());
        }
        Ok(count)
    }
}
