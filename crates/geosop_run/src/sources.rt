ghost use Rattle.std.specs.Prelude.{◌≡◌, ℕ, ◌≤◌, length, None, Some, IfOk, IfErr};
ghost use Rattle.geosop_io.specs.Inputs.{KeepsOthers};
ghost use Rattle.geosop_run.specs.Asking.{AreBytesFrom, IsAskedOrNot, IsSideFault, IsTextFault};
ghost use Rattle.geosop_run.specs.Sources.{most_bytes};

use crate::status::Refusal;
use geosop_io::{Failed, Inputs, Word};
use geosop_line::Source;
use im_matrix::Which;
use plane_exact::NoMemory;
use std::alloc::{AllocError, Global};

/// The greatest number of bytes of a source.
const MOST_BYTES: usize = 33_554_432;

/// Why a side gave no figures.
#[derive(Clone, Copy, Debug, PartialEq, Eq)]
pub(crate) enum SideFault {
    /// The input is refused.
    Refused(Refusal),
    /// A read failed.
    ReadFault,
    /// Want of memory.
    NoMemory,
}

impl From<Refusal> for SideFault {
    ghost use Rattle.geosop_run.specs.declared.sources.SideFault.TheVariants as fault;

    ghost from_gives = { λ refusal e. e ≡ fault.Refused refusal };

    fn from(value: Refusal) -> Self {
        SideFault::Refused(value)
    }
}

impl From<Failed> for SideFault {
    ghost use Rattle.geosop_run.specs.declared.sources.SideFault.TheVariants as fault;

    ghost from_gives = { λ _ e. e ≡ fault.ReadFault };

    fn from(_value: Failed) -> Self {
        SideFault::ReadFault
    }
}

impl From<NoMemory> for SideFault {
    ghost use Rattle.geosop_run.specs.declared.sources.SideFault.TheVariants as fault;

    ghost from_gives = { λ _ e. e ≡ fault.NoMemory };

    fn from(_value: NoMemory) -> Self {
        SideFault::NoMemory
    }
}

impl From<AllocError> for SideFault {
    ghost use Rattle.geosop_run.specs.declared.sources.SideFault.TheVariants as fault;

    ghost from_gives = { λ _ e. e ≡ fault.NoMemory };

    fn from(_value: AllocError) -> Self {
        SideFault::NoMemory
    }
}

/// The bytes of a text that a word is.
fn take_text(alloc: Global, side: Which, word: &Word) -> Result<Vec<u8>, SideFault>
    ensures bytes { IfOk result (λ v. v.items ≡ word.now) }
    ensures within { IfOk result (λ v. length v.items ≤ most_bytes) }
    ensures fault { (scale : ℕ) → IfErr result (IsTextFault scale side word.now) }
{
    let bytes = word.bytes();
    if bytes.len() > MOST_BYTES {
        return Err(SideFault::from(Refusal::TooLong(side)));
    }
    Ok(Vec::from_slice(alloc, bytes)?)
}

/// Asks for a side by a name and reads it, to its end or to one byte above the limit.
fn read_named<I: Inputs>(
    alloc: Global,
    inputs: &mut I,
    side: Which,
    name: Word,
) -> Result<Vec<u8>, SideFault>
    requires new { (I.seen inputs.old).asked side ≡ None }
    ensures ok { IfOk result (λ v. AreBytesFrom side (Source.File name) (I.seen inputs.old) (I.seen inputs.new) v.items) }
    ensures err { (scale : ℕ) → IfErr result (IsSideFault scale side (Source.File name) (I.seen inputs.old) (I.seen inputs.new)) }
    ensures asked { (I.seen inputs.new).asked side ≡ Some name }
    ensures others { KeepsOthers side (I.seen inputs.old) (I.seen inputs.new) }
{
    inputs.start(side, name)?;
    let mut bytes = Vec::new(alloc);
    let mut buffer = [0u8; 65536];
    while bytes.len() <= MOST_BYTES {
        let room = buffer.len().min(MOST_BYTES + 1 - bytes.len());
        let count = inputs.read(side, &mut buffer[..room])?;
        if count == 0 {
            return Ok(bytes);
        }
        bytes.extend_from_slice(&buffer[..count])?;
    }
    Err(SideFault::from(Refusal::TooLong(side)))
}

/// The bytes of a side, read whole before they are looked at.
///
/// # Errors
/// Too many bytes, a read fault, or want of memory.
pub(crate) fn read_side<I: Inputs>(
    alloc: Global,
    inputs: &mut I,
    side: Which,
    source: Source,
) -> Result<Vec<u8>, SideFault>
    requires new { (I.seen inputs.old).asked side ≡ None }
    ensures ok { IfOk result (λ v. AreBytesFrom side source (I.seen inputs.old) (I.seen inputs.new) v.items) }
    ensures err { (scale : ℕ) → IfErr result (IsSideFault scale side source (I.seen inputs.old) (I.seen inputs.new)) }
    ensures asked { IsAskedOrNot source ((I.seen inputs.new).asked side) }
    ensures others { KeepsOthers side (I.seen inputs.old) (I.seen inputs.new) }
{
    match source {
        Source::Text(word) => take_text(alloc, side, &word),
        Source::File(name) => read_named(alloc, inputs, side, name),
        Source::Stdin => read_named(alloc, inputs, side, Word::of(alloc, "stdin")?),
    }
}
