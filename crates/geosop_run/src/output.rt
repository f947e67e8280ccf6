ghost use Rattle.std.specs.Prelude.{◌≡◌, flat_map};
ghost use Rattle.std.specs.List.{concat};
ghost use Rattle.geosop_io.specs.Sink.{IsOffered};
ghost use Rattle.geosop_run.specs.Statuses.{side_name as side_bytes, kind_name as kind_bytes, invalid_name as invalid_bytes};
ghost use Rattle.geosop_run.specs.Statuses.{usage_name as usage_bytes, place_of, usage_pieces, refusal_pieces, fault_line};

use crate::status::{Refusal, Status};
use geom_valid::InvalidKind;
use geosop_io::{Failed, Sink, offer_whole};
use geosop_line::UsageFault;
use im_matrix::Which;
use itoa::Buffer;
use wkt_text::WktKind;

/// Offers several pieces one after the other, until one isn't taken.
fn offer_pieces<O: Sink>(out: &mut O, pieces: &[&[u8]]) -> Result<(), Failed>
    ensures offered { IsOffered result (O.seen out.old) (O.seen out.new) (flat_map (λ x. x.now) pieces.now) }
{
    for piece in pieces {
        offer_whole(out, piece)?;
    }
    Ok(())
}

/// The letter of a side.
fn side_name(side: Which) -> &'static [u8]
    ensures name { result.now ≡ side_bytes side }
{
    match side {
        Which::A => b"A",
        Which::B => b"B",
    }
}

/// The name of a text's fault.
fn kind_name(kind: WktKind) -> &'static [u8]
    ensures name { result.now ≡ kind_bytes kind }
{
    match kind {
        WktKind::Syntax => b"Syntax",
        WktKind::UnknownType => b"UnknownType",
        WktKind::NotWhole => b"NotWhole",
        WktKind::TooWide => b"TooWide",
        WktKind::LongNumber => b"LongNumber",
        WktKind::Ragged => b"Ragged",
        WktKind::RingOpen => b"RingOpen",
        WktKind::RingShort => b"RingShort",
        WktKind::LineShort => b"LineShort",
        WktKind::Deep => b"Deep",
        WktKind::TooMany => b"TooMany",
    }
}

/// The name of a figure's fault.
fn invalid_name(kind: InvalidKind) -> &'static [u8]
    ensures name { result.now ≡ invalid_bytes kind }
{
    match kind {
        InvalidKind::TooFewPoints => b"TooFewPoints",
        InvalidKind::RingCross => b"RingCross",
        InvalidKind::RingsShareEdge => b"RingsShareEdge",
        InvalidKind::HoleOutside => b"HoleOutside",
        InvalidKind::HolesOverlap => b"HolesOverlap",
        InvalidKind::Disconnected => b"Disconnected",
        InvalidKind::ElementsShareEdge => b"ElementsShareEdge",
        InvalidKind::ElementsOverlap => b"ElementsOverlap",
    }
}

/// The name of a usage fault.
fn usage_name(fault: UsageFault) -> &'static [u8]
    ensures name { result.now ≡ usage_bytes fault }
{
    match fault {
        UsageFault::Line => b"Line",
        UsageFault::Sample => b"Sample",
        UsageFault::Sources => b"Sources",
        UsageFault::Operation => b"Operation",
        UsageFault::Argument => b"Argument",
        UsageFault::BadMatch(_) => b"Pattern",
        UsageFault::RuleName => b"Rule",
        UsageFault::Threads => b"Threads",
        UsageFault::Scale => b"Scale",
    }
}

/// The place of a usage fault, where it has one.
fn usage_place(fault: UsageFault) -> Option<u32>
    ensures place { result ≡ place_of fault }
{
    match fault {
        UsageFault::BadMatch(place) => Some(place),
        UsageFault::Line
        | UsageFault::Sample
        | UsageFault::Sources
        | UsageFault::Operation
        | UsageFault::Argument
        | UsageFault::RuleName
        | UsageFault::Threads
        | UsageFault::Scale => None,
    }
}

/// Offers the fault line of a geometry's text.
fn offer_text_fault<E: Sink>(
    err: &mut E,
    side: Which,
    number: u32,
    kind: WktKind,
    place: usize,
) -> Result<(), Failed>
    ensures offered { IsOffered result (E.seen err.old) (E.seen err.new) (concat (refusal_pieces (Refusal.Text side number kind place))) }
{
    let mut number_buffer = Buffer::new();
    let mut place_buffer = Buffer::new();
    let number = number_buffer.format(number).as_bytes();
    let place = place_buffer.format(place).as_bytes();
    let kind = kind_name(kind);
    offer_pieces(
        err,
        &[
            b"geosop: ",
            side_name(side),
            b" ",
            number,
            b": ",
            kind,
            b" at ",
            place,
            b"\n",
        ],
    )
}

/// Offers the fault line of a geometry's figure.
fn offer_shape_fault<E: Sink>(
    err: &mut E,
    side: Which,
    number: u32,
    kind: InvalidKind,
    element: u32,
) -> Result<(), Failed>
    ensures offered { IsOffered result (E.seen err.old) (E.seen err.new)
        (concat (refusal_pieces (Refusal.Shape side number kind element))) }
{
    let mut number_buffer = Buffer::new();
    let mut element_buffer = Buffer::new();
    let number = number_buffer.format(number).as_bytes();
    let element = element_buffer.format(element).as_bytes();
    let kind = invalid_name(kind);
    offer_pieces(
        err,
        &[
            b"geosop: ",
            side_name(side),
            b" ",
            number,
            b": ",
            kind,
            b" in element ",
            element,
            b"\n",
        ],
    )
}

/// Offers the fault line of a refusal.
fn offer_refusal<E: Sink>(err: &mut E, refusal: Refusal) -> Result<(), Failed>
    ensures offered { IsOffered result (E.seen err.old) (E.seen err.new) (concat (refusal_pieces refusal)) }
{
    match refusal {
        Refusal::TooLong(side) => offer_pieces(
            err,
            &[b"geosop: ", side_name(side), b": TooLong", b"\n"],
        ),
        Refusal::Text(side, number, kind, place) => {
            offer_text_fault(err, side, number, kind, place)
        }
        Refusal::Shape(side, number, kind, element) => {
            offer_shape_fault(err, side, number, kind, element)
        }
    }
}

/// Offers the fault line of a command line.
fn offer_usage_fault<E: Sink>(err: &mut E, fault: UsageFault) -> Result<(), Failed>
    ensures offered { IsOffered result (E.seen err.old) (E.seen err.new) (concat (usage_pieces fault)) }
{
    let name = usage_name(fault);
    match usage_place(fault) {
        Some(place) => {
            let mut buffer = Buffer::new();
            let place = buffer.format(place).as_bytes();
            offer_pieces(
                err,
                &[b"geosop: usage fault: ", name, b" at ", place, b"\n"],
            )
        }
        None => offer_pieces(err, &[b"geosop: usage fault: ", name, b"\n"]),
    }
}

/// Tries the fault line of a status; Ok has none. A failure changes nothing else. Takes no memory.
pub(crate) fn offer_fault_line<E: Sink>(err: &mut E, status: Status) -> Result<(), Failed>
    ensures offered { IsOffered result (E.seen err.old) (E.seen err.new) (fault_line status) }
    ensures quiet { status ≡ Status.Ok → E.seen err.new ≡ E.seen err.old }
{
    match status {
        Status::Ok => Ok(()),
        Status::Usage(fault) => offer_usage_fault(err, fault),
        Status::Refused(refusal) => offer_refusal(err, refusal),
        Status::ReadFault => offer_pieces(err, &[b"geosop: read fault", b"\n"]),
        Status::WriteFault => offer_pieces(err, &[b"geosop: write fault", b"\n"]),
        Status::NoMemory => offer_pieces(err, &[b"geosop: no memory", b"\n"]),
    }
}
