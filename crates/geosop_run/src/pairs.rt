ghost use Rattle.std.specs.Prelude.{◌≡◌, [], ◌∷◌, ◌++◌, All, map, IfOk};
ghost use Rattle.im_matrix.specs.Cells.{matrix_text};
ghost use Rattle.geosop_io.specs.Sink.{IsOffered};
ghost use Rattle.geosop_run.specs.Sources.{IsSound};
ghost use Rattle.geosop_run.specs.Text.{line_of, IsLineOf, IsRowOf, IsTextOf, IsTextWritten};

use geosop_io::{Failed, Sink, offer_whole};
use im_matrix::Matrix;
use plane_exact::NoMemory;
use point_set::{Rule, Valid};
use relate_core::evaluate;
use std::alloc::Global;
use topo_pred::{Answer, Query};
use union_locator::Plain;

/// What is asked of each pair.
#[derive(Clone, Copy, Debug)]
pub(crate) struct Question {
    /// The boundary node rule.
    pub(crate) rule: Rule,
    /// The query.
    pub(crate) query: Query,
}

/// Why the lines of the pairs weren't all written.
#[derive(Clone, Copy, Debug, PartialEq, Eq)]
pub(crate) enum PairFault {
    /// The output didn't take a line.
    WriteFault,
    /// Want of memory.
    NoMemory,
}

impl From<Failed> for PairFault {
    ghost use Rattle.geosop_run.specs.declared.pairs.PairFault.TheVariants as fault;

    ghost from_gives = { λ _ e. e ≡ fault.WriteFault };

    fn from(_value: Failed) -> Self {
        PairFault::WriteFault
    }
}

impl From<NoMemory> for PairFault {
    ghost use Rattle.geosop_run.specs.declared.pairs.PairFault.TheVariants as fault;

    ghost from_gives = { λ _ e. e ≡ fault.NoMemory };

    fn from(_value: NoMemory) -> Self {
        PairFault::NoMemory
    }
}

/// The line of a matrix.
fn spell(matrix: &Matrix) -> [u8; 10]
    ensures spelled { result ≡ matrix_text matrix.now ++ 10 ∷ [] }
{
    let [ii, ib, ie, bi, bb, be, ei, eb, ee] = matrix.text();
    [ii, ib, ie, bi, bb, be, ei, eb, ee, b'\n']
}

/// Offers the line of an answer.
pub(crate) fn offer_answer<O: Sink>(out: &mut O, answer: Answer) -> Result<(), Failed>
    ensures offered { IsOffered result (O.seen out.old) (O.seen out.new) (line_of answer) }
{
    match answer {
        Answer::Im(matrix) => offer_whole(out, &spell(&matrix)),
        Answer::Truth(true) => offer_whole(out, b"true\n"),
        Answer::Truth(false) => offer_whole(out, b"false\n"),
    }
}

/// Makes the answer of a pair and offers its line.
fn offer_pair<O: Sink>(
    alloc: Global,
    out: &mut O,
    a: &mut Plain<'_>,
    b: &mut Plain<'_>,
    asked: Question,
) -> Result<(), PairFault>
    requires a_sound { IsSound a.old.figure }
    requires b_sound { IsSound b.old.figure }
    ensures written { IsTextWritten (IsLineOf asked.rule asked.query a.old.figure b.old.figure) result (O.seen out.old) (O.seen out.new) }
    ensures a_kept { a.new.figure ≡ a.old.figure }
    ensures b_kept { b.new.figure ≡ b.old.figure }
{
    let answer = evaluate(alloc, a, b, asked.rule, asked.query)?;
    offer_answer(out, answer)?;
    Ok(())
}

/// Offers the lines of one figure with each of a list.
fn offer_row<O: Sink>(
    alloc: Global,
    out: &mut O,
    a: &Valid,
    in_b: &mut [Plain<'_>],
    asked: Question,
) -> Result<(), PairFault>
    requires a_sound { IsSound a.now }
    requires b_sound { All IsSound (map (λ b. b.figure) in_b.old) }
    ensures written { IsTextWritten (IsRowOf asked.rule asked.query (map (λ b. b.figure) in_b.old) a.now)
        result (O.seen out.old) (O.seen out.new) }
    ensures kept { map (λ b. b.figure) in_b.new ≡ map (λ b. b.figure) in_b.old }
{
    let mut of_a = Plain::new(alloc, a)?;
    for of_b in in_b.iter_mut() {
        offer_pair(alloc, out, &mut of_a, of_b, asked)?;
    }
    Ok(())
}

/// Each figure with its edges and line ends, so that they are made once for all pairs.
///
/// # Errors
/// `NoMemory`.
fn plains_of(alloc: Global, figures: &[Valid]) -> Result<Vec<Plain<'_>>, NoMemory>
    ensures figures { IfOk result (λ plains. map (λ b. b.figure) plains.items ≡ figures.now) }
{
    let mut plains = Vec::new(alloc);
    for figure in figures {
        if plains.push(Plain::new(alloc, figure)?).is_err() {
            return Err(NoMemory);
        }
    }
    Ok(plains)
}

/// Offers the lines of all pairs, A outer and B inner. The figures of B get their indexes once.
pub(crate) fn offer_plain<O: Sink>(
    alloc: Global,
    out: &mut O,
    in_a: &[Valid],
    in_b: &[Valid],
    asked: Question,
) -> Result<(), PairFault>
    requires a_sound { All IsSound in_a.now }
    requires b_sound { All IsSound in_b.now }
    ensures written { IsTextWritten (IsTextOf asked.rule asked.query in_a.now in_b.now) result (O.seen out.old) (O.seen out.new) }
{
    let mut of_b = plains_of(alloc, in_b)?;
    for a in in_a {
        offer_row(alloc, out, a, of_b.as_mut_slice(), asked)?;
    }
    Ok(())
}
