ghost use Rattle.std.specs.Prelude.{◌≡◌, ◌<◌, ◌≤◌, ◌^◌, ◌||◌, false, true, length, None, is_some, IfOk};
ghost use Rattle.geosop_io.specs.Counts.{one_more, more_by};
ghost use Rattle.geosop_io.specs.Inputs.{meets_end};
ghost use Rattle.geosop_io.specs.PerSide.{on_side, with_side};
ghost use Rattle.geosop_io.specs.FileInputs.{seen_of};

use crate::inputs::{Inputs, is_end};
use crate::per_side::PerSide;
use crate::sink::Failed;
use crate::word::Word;
use im_matrix::Which;
use std::io::Read;
use std::marker::Model;
use std::rt::Files;
use std::{fs, io};

/// The name of standard input.
const STDIN: &str = "stdin";

/// A source that was opened.
#[derive(Drop)]
enum Opened<R: Files + Input> {
    File(R::File),
    Stdin(R::Reader),
}

impl<R: Files + Input> Opened<R> {
    fn open(rt: &R, name: &str) -> io::Result<Opened<R>> {
        if name == STDIN {
            Ok(Opened::Stdin(rt.reader()))
        } else {
            Ok(Opened::File(fs::open(rt, name)?))
        }
    }

    fn read(&mut self, buf: &mut [u8]) -> io::Result<usize>
        ensures bound { IfOk result (λ count. count ≤ length buf.old) }
    {
        match self {
            Opened::File(file) => file.read(buf),
            Opened::Stdin(reader) => reader.read(buf),
        }
    }
}

/// Reads from a source that was opened.
fn read_opened<R: Files + Input>(
    source: &mut Option<Opened<R>>,
    buf: &mut [u8],
) -> io::Result<usize>
    requires opened { is_some source.old ≡ true }
    ensures bound { IfOk result (λ count. count ≤ length buf.old) }
    ensures stays { is_some source.new ≡ true }
{
    match source {
        Some(opened) => opened.read(buf),
        None => unreachable!(),
    }
}

/// Files as sources, and standard input under the name `stdin`. It tells nothing of what they
/// hold. Each error of the system is a fault, as where a name is that of no file or of a folder.
#[derive(Drop)]
pub struct FileInputs<'a, R: Files + Input> {
    rt: &'a R,
    asked: PerSide<Option<Word>>,
    opened: PerSide<Option<Opened<R>>>,
    given: PerSide<u64>,
    ended: PerSide<bool>,
    faults: u64,
}

impl<'a, R: Files + Input> Model for FileInputs<'a, R> {
    ghost use Rattle.std.specs.Prelude.{◌<◌, ◌^◌, is_some};
    ghost use Rattle.geosop_io.specs.FileInputs.{FileSources};

    ghost Value = { FileSources };

    ghost view = { λ s. record {
      asked = s.asked;
      started = record { a = is_some s.opened.a; b = is_some s.opened.b };
      given = s.given;
      ended = s.ended;
      faults = s.faults;
    } };

    ghost invariant = { λ s. s.faults < 2 ^ 64 };
}

impl<'a, R: Files + Input> FileInputs<'a, R> {
    /// Sources that were not asked for yet.
    pub fn new(rt: &'a R) -> FileInputs<'a, R>
        ensures fresh { result ≡ record {
          asked = record { a = None; b = None };
          started = record { a = false; b = false };
          given = record { a = 0; b = 0 };
          ended = record { a = false; b = false };
          faults = 0;
        } }
    {
        FileInputs {
            rt,
            asked: PerSide { a: None, b: None },
            opened: PerSide { a: None, b: None },
            given: PerSide { a: 0, b: 0 },
            ended: PerSide { a: false, b: false },
            faults: 0,
        }
    }

    /// Counts a fault.
    fn fault(&mut self) -> Failed
        ensures counted { self.new ≡ record self.old { faults = one_more self.old.faults } }
        ensures rising { self.old.faults ≤ self.new.faults }
    {
        self.faults = self.faults.saturating_add(1);
        Failed
    }

    /// Reads from a side that was started.
    fn read_started(&mut self, side: Which, buf: &mut [u8]) -> io::Result<usize>
        requires started { on_side self.old.started side ≡ true }
        ensures bound { IfOk result (λ count. count ≤ length buf.old) }
        ensures kept { self.new ≡ self.old }
    {
        match side {
            Which::A => read_opened(&mut self.opened.a, buf),
            Which::B => read_opened(&mut self.opened.b, buf),
        }
    }

    /// Notes that a read into a buffer of this length gave so many bytes of a side.
    fn note_read(&mut self, side: Which, count: usize, room: usize)
        ensures noted { self.new ≡ record self.old {
          given = with_side self.old.given side (more_by count (on_side self.old.given side));
          ended = with_side self.old.ended side (on_side self.old.ended side || meets_end count room);
        } }
        ensures ends { self.new.faults < 2 ^ 64 }
    {
        let given = self.given.get(side).saturating_add(count as u64);
        let ended = *self.ended.get(side) || is_end(count, room);
        self.given.set(side, given);
        self.ended.set(side, ended);
    }
}

impl<'a, R: Files + Input> Inputs for FileInputs<'a, R> {
    ghost seen = { seen_of };

    fn start(&mut self, side: Which, name: Word) -> Result<(), Failed> {
        let opened = Opened::open(self.rt, name.as_str());
        self.asked.set(side, Some(name));
        match opened {
            Ok(opened) => {
                self.opened.set(side, Some(opened));
                self.given.set(side, 0);
                self.ended.set(side, false);
                Ok(())
            }
            Err(_) => Err(self.fault()),
        }
    }

    fn read(&mut self, side: Which, buf: &mut [u8]) -> Result<usize, Failed> {
        match self.read_started(side, buf) {
            Ok(count) => {
                self.note_read(side, count, buf.len());
                Ok(count)
            }
            Err(_) => Err(self.fault()),
        }
    }
}
