use geom_valid::InvalidKind;
use geosop_line::UsageFault;
use im_matrix::Which;
use wkt_text::WktKind;

/// The first refusal of the input.
#[derive(Clone, Copy, Debug, PartialEq, Eq)]
pub enum Refusal {
    /// A side has more bytes than the limit.
    TooLong(Which),
    /// A geometry's text has its first fault of this kind at this place. Geometries count from 1, places from 0.
    Text(Which, u32, WktKind, usize),
    /// A geometry's figure isn't valid: its first fault is of this kind, in this element. Geometries and elements count from 1.
    Shape(Which, u32, InvalidKind, u32),
}

/// How a run ended.
#[derive(Clone, Copy, Debug, PartialEq, Eq)]
pub enum Status {
    /// All lines are written.
    Ok,
    /// The command line has this fault.
    Usage(UsageFault),
    /// The input has this first refusal.
    Refused(Refusal),
    /// A source couldn't be read.
    ReadFault,
    /// The output didn't take a line.
    WriteFault,
    /// Want of memory.
    NoMemory,
}

impl Status {
    ghost use Rattle.std.specs.Prelude.{◌≡◌};
    ghost use Rattle.geosop_run.specs.Statuses.{code_of};

    /// The exit status of the program. Takes no memory.
    pub fn code(&self) -> u8
        ensures code { result ≡ code_of self.now }
    {
        match self {
            Status::Ok => 0,
            Status::Usage(_) => 1,
            Status::Refused(_) => 2,
            Status::ReadFault => 3,
            Status::WriteFault => 4,
            Status::NoMemory => 5,
        }
    }
}
