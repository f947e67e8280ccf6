ghost use Rattle.std.specs.Prelude.{◌≡◌, ◌<◌, ◌≤◌, ◌^◌, false, true, length, take, None, IfOk, OnOk, OnErr, IsErr, ◌↔◌};
ghost use Rattle.geosop_io.specs.Calls.{IsNextFailing};
ghost use Rattle.geosop_io.specs.Inputs.{HasRead};
ghost use Rattle.geosop_io.specs.PerSide.{on_side};
ghost use Rattle.geosop_io.specs.MemInputs.{is_started, seen_of, bytes_left, StartFails, after_start, after_failed_start, next_given};
ghost use Rattle.geosop_io.specs.MemInputs.{after_giving, after_read, after_failed_read};

use crate::calls::Calls;
use crate::inputs::{Inputs, is_end};
use crate::named::NamedBytes;
use crate::per_side::PerSide;
use crate::sink::Failed;
use crate::word::Word;
use im_matrix::Which;
use plane_exact::PlaceList;
use std::marker::Model;

/// Where a started side stands: at the place of its pair, behind so many of its bytes, and whether
/// a read has met its end.
#[derive(Clone, Copy, Debug)]
struct Cursor {
    place: usize,
    at: usize,
    ended: bool,
}

/// Sources over memory, which give their bytes in pieces and fail where they are told to.
#[derive(Debug, Drop)]
pub struct MemInputs {
    files: NamedBytes,
    calls: Calls,
    piece: usize,
    asked: PerSide<Option<Word>>,
    cursors: PerSide<Option<Cursor>>,
}

impl Model for MemInputs {
    ghost use Rattle.std.specs.Prelude.{◌<◌, ◌^◌};
    ghost use Rattle.geosop_io.specs.MemInputs.{MemSources};
    ghost use Rattle.geosop_io.specs.Cursors.{given_at, ended_at, left_at, IsWithin};

    ghost Value = { MemSources };

    ghost view = { λ s. record {
      files = s.files;
      calls = s.calls;
      piece = s.piece;
      asked = s.asked;
      given = record { a = given_at s.cursors.a; b = given_at s.cursors.b };
      ended = record { a = ended_at s.cursors.a; b = ended_at s.cursors.b };
      left = record { a = left_at s.files s.cursors.a; b = left_at s.files s.cursors.b };
    } };

    ghost invariant = { λ s. (0 < s.piece) × IsWithin s.files s.cursors.a × IsWithin s.files s.cursors.b
        × (s.calls.faults < 2 ^ 64) };
}

impl MemInputs {
    /// Sources with these bytes under their names, whose calls with these numbers fail. A read
    /// gives at most `piece` bytes. Neither side is asked for or started.
    pub fn new(files: NamedBytes, fails: PlaceList, piece: usize) -> MemInputs
        requires some { 0 < piece }
        ensures fresh { result ≡ record {
          files = files;
          piece = piece;
          calls = record { fails = fails; made = 0; faults = 0 };
          asked = record { a = None; b = None };
          given = record { a = 0; b = 0 };
          ended = record { a = false; b = false };
          left = record { a = None; b = None };
        } }
    {
        MemInputs {
            files,
            calls: Calls::new(fails),
            piece,
            asked: PerSide { a: None, b: None },
            cursors: PerSide { a: None, b: None },
        }
    }

    /// How many calls of `start` and `read` were made. The number stays once it has reached
    /// 2^64 - 1.
    pub fn calls(&self) -> u64
        ensures made { result ≡ self.now.calls.made }
    {
        self.calls.made
    }

    /// Whether a side was started.
    pub fn was_started(&self, side: Which) -> bool
        ensures started { result ≡ is_started self.now side }
    {
        self.cursors.get(side).is_some()
    }

    /// Gives as many bytes of a started side as there are, as the buffer has room for and as a piece
    /// has.
    fn give(&mut self, side: Which, buf: &mut [u8]) -> usize
        requires started { is_started self.old side ≡ true }
        ensures count { result ≡ next_given self.old side (length buf.old) }
        ensures bytes { take result buf.new ≡ take result (bytes_left self.old side) }
        ensures after { self.new ≡ after_giving self.old side (length buf.old) result }
    {
        let Some(cursor) = *self.cursors.get(side) else {
            unreachable!()
        };
        let rest = &self.files.at(cursor.place)[cursor.at..];
        let count = rest.len().min(buf.len()).min(self.piece);
        buf[..count].copy_from_slice(&rest[..count]);
        self.cursors.set(
            side,
            Some(Cursor {
                place: cursor.place,
                at: cursor.at + count,
                ended: cursor.ended || is_end(count, buf.len()),
            }),
        );
        count
    }
}

impl Inputs for MemInputs {
    ghost seen = { seen_of };

    /// Starts a side. It fails by its number, and where the name isn't there.
    fn start(&mut self, side: Which, name: Word) -> Result<(), Failed>
        requires new { on_side self.old.asked side ≡ None }
        ensures failed { IsErr result ↔ StartFails self.old name }
        ensures after { OnOk result (self.new ≡ after_start self.old side name) }
        ensures after_failed { OnErr result (self.new ≡ after_failed_start self.old side name) }

        ensures rising { self.old.calls.faults ≤ self.new.calls.faults }
        ensures ends { self.new.calls.faults < 2 ^ 64 }
    {
        let is_failing = self.calls.next();
        let place = self.files.find(name.bytes());
        self.asked.set(side, Some(name));
        match place {
            Some(place) if !is_failing => {
                self.cursors.set(
                    side,
                    Some(Cursor {
                        place,
                        at: 0,
                        ended: false,
                    }),
                );
                Ok(())
            }
            _ => Err(self.calls.fault()),
        }
    }

    /// Reads as many bytes as there are, as the buffer has room for and as a piece has. It fails
    /// by its number.
    fn read(&mut self, side: Which, buf: &mut [u8]) -> Result<usize, Failed>
        requires started { is_started self.old side ≡ true }
        ensures failed { IsErr result ↔ IsNextFailing self.old.calls }
        ensures count { IfOk result (λ count. count ≡ next_given self.old side (length buf.old)) }
        ensures bytes { IfOk result (λ count. take count buf.new ≡ take count (bytes_left self.old side)) }
        ensures after { IfOk result (λ count. self.new ≡ after_read self.old side (length buf.old) count) }
        ensures after_failed { OnErr result (self.new ≡ after_failed_read self.old) }

        ensures ok { IfOk result (λ count. HasRead side count buf.new (length buf.old) (seen_of self.old) (seen_of self.new)) }
        ensures rising { self.old.calls.faults ≤ self.new.calls.faults }
        ensures ends { self.new.calls.faults < 2 ^ 64 }
    {
        if self.calls.next() {
            return Err(self.calls.fault());
        }
        Ok(self.give(side, buf))
    }
}
