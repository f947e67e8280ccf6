ghost use Rattle.std.specs.Prelude.{◌≡◌, ◌↔◌, List, Option, Some, None, IfOk, OnOk, OnErr, IfSome, IsNone, IsTrue};
ghost use Rattle.std.specs.Option.{option_map};
ghost use Rattle.once_cell.specs.Once.{cell_name};
ghost use Rattle.plane_exact.specs.declared.point.Seg.{Seg};
ghost use Rattle.edge_index.specs.Segments.{IsFirstDifference};
ghost use Rattle.relate_prep.specs.Cells.{SeenCell, IsOrigin, IsLater, IsUsed, KnowTheSame, WasAsked, new_cell};
ghost use Rattle.relate_prep.specs.declared.origin.Origin.{Origin};
ghost use Rattle.relate_prep.specs.declared.origin.Origin.TheVariants as origin;

use crate::origin::Origin;
use once_cell::race::{Note, OnceBox};
use plane_exact::NoMemory;
use std::alloc::Global;
use std::marker::Model;

/// An index over a list of edges.
pub(crate) trait Indexed {
    /// The edges.
    ghost edges: { Self → List Seg };
}

/// Edges of a figure, of which an index is made.
pub(crate) trait Source<T: Indexed> {
    /// The figure's edges.
    ghost wanted: { Self → List Seg };

    /// An index over the figure's edges.
    ///
    /// # Errors
    /// `NoMemory`.
    fn build(&self) -> Result<T, NoMemory>
        ensures edges { IfOk result (λ index. T.edges index ≡ wanted self.now) };

    /// The first place at which the edges of an index and the figure's differ, or at which the shorter list ends; None exactly
    /// where they are equal. Takes no memory.
    fn differs_at(&self, index: &T) -> Option<u32>
        ensures equal { IsNone result ↔ (T.edges index.now ≡ wanted self.now) }
        ensures first { IfSome result (IsFirstDifference (T.edges index.now) (wanted self.now)) };
}

/// What a session knows of one cell. Contracts see the edges of the value that the note knows.
#[derive(Drop)]
pub(crate) struct Asked<'a, T: Indexed> {
    note: Note<T>,
    origin: Origin,
    /// The cell's value, where its edges are the figure's.
    index: Option<&'a T>,
}

impl<'a, T: Indexed> Model for Asked<'a, T> {
    ghost Value = { SeenCell };

    ghost view = { λ a. record { name = a.note.cell; known = option_map T.edges a.note.known; origin = a.origin } };

    ghost invariant = { λ a. IfSome a.index (λ r. IsUsed a.origin × (option_map T.edges a.note.known ≡ Some (T.edges r.now))) };
}

impl<'a, T: Indexed + Drop> Asked<'a, T> {
    /// Nothing is known of a cell at first.
    pub(crate) fn nothing(cell: &'a OnceBox<T>) -> Asked<'a, T>
        ensures new { result ≡ new_cell (cell_name cell.now) }
    {
        Asked {
            note: cell.note(),
            origin: Origin::Unused,
            index: None,
        }
    }

    /// How the cell's value came to be known.
    pub(crate) fn origin(&self) -> Origin
        ensures origin { result ≡ self.now.origin }
    {
        self.origin
    }

    /// The cell's value, where it is known and its edges are the figure's.
    pub(crate) fn index(&self) -> Option<&'a T>
        ensures edges { (edges : List Seg) → IsOrigin edges self.now.known self.now.origin → IfSome result (λ r. T.edges r.now ≡ edges) }
    {
        self.index
    }

    /// Asks for the cell's value. The first call makes an index where the cell has none, and compares the edges of one that it
    /// didn't make with the figure's.
    ///
    /// # Errors
    /// `NoMemory`, and then nothing has changed.
    pub(crate) fn ask<S: Source<T>>(
        &mut self,
        alloc: Global,
        cell: &'a OnceBox<T>,
        source: &S,
    ) -> Result<(), NoMemory>
        requires cell { self.old.name ≡ cell_name cell.now }
        requires origin { IsOrigin (S.wanted source.now) self.old.known self.old.origin }
        ensures origin { IsOrigin (S.wanted source.now) self.new.known self.new.origin }
        ensures asked { OnOk result (WasAsked self.new) }
        ensures later { IsLater self.old self.new }
        ensures err { OnErr result (self.new ≡ self.old) }
    {
        if self.origin == Origin::Unused {
            let (origin, index) = first_answer(alloc, cell, source, &mut self.note)?;
            self.origin = origin;
            self.index = index;
        }
        Ok(())
    }

    /// Compares with what another session knows of the same cell. It changes nothing and takes no memory.
    pub(crate) fn compare(&mut self, other: &mut Asked<'_, T>)
        requires name { self.old.name ≡ other.old.name }
        ensures known { KnowTheSame self.old other.old }
        ensures same { self.new ≡ self.old }
        ensures other { other.new ≡ other.old }
    {
        self.note.compare(other.note.again());
    }
}

/// Asks for a cell of which nothing is known: how its value came, and the value where it is used.
fn first_answer<'a, T: Indexed + Drop, S: Source<T>>(
    alloc: Global,
    cell: &'a OnceBox<T>,
    source: &S,
    note: &mut Note<T>,
) -> Result<(Origin, Option<&'a T>), NoMemory>
    requires cell { note.old.cell ≡ cell_name cell.now }
    requires nothing { note.old.known ≡ None }
    ensures cell { note.new.cell ≡ note.old.cell }
    ensures origin { IfOk result (λ r. IsOrigin (S.wanted source.now) (option_map T.edges note.new.known) r.0) }
    ensures asked { IfOk result (λ r. ¬ (r.0 ≡ origin.Unused)) }
    ensures used { IfOk result (λ r. IfSome r.1 (λ index. IsUsed r.0 × (T.edges index.now ≡ S.wanted source.now))) }
    ensures err { OnErr result (note.new.known ≡ None) }
{
    if let Some(found) = cell.get_as(note) {
        return Ok(compared(source, found));
    }
    let taken = offer(alloc, cell, source, note)?;
    let value = seen(cell, note);
    if taken {
        Ok((Origin::Made, Some(value)))
    } else {
        Ok(compared(source, value))
    }
}

/// Makes an index and offers it to a cell: whether the cell took it.
///
/// # Errors
/// `NoMemory`, and then the note knows what it knew.
fn offer<T: Indexed + Drop, S: Source<T>>(
    alloc: Global,
    cell: &OnceBox<T>,
    source: &S,
    note: &mut Note<T>,
) -> Result<bool, NoMemory>
    requires cell { note.old.cell ≡ cell_name cell.now }
    ensures cell { note.new.cell ≡ note.old.cell }
    ensures known { OnOk result (¬ (note.new.known ≡ None)) }
    ensures taken { IfOk result (λ taken. IsTrue taken → option_map T.edges note.new.known ≡ Some (S.wanted source.now)) }
    ensures err { OnErr result (note.new.known ≡ note.old.known) }
{
    let index = boxed(alloc, source.build()?)?;
    match cell.set_as(index, note) {
        Ok(()) => Ok(true),
        Err(back) => {
            drop(back);
            Ok(false)
        }
    }
}

/// A box for a value.
fn boxed<T: Drop>(alloc: Global, value: T) -> Result<Box<T>, NoMemory>
    ensures value { IfOk result (λ b. b.value ≡ value) }
{
    match Box::new(alloc, value) {
        Ok(boxed) => Ok(boxed),
        Err(_) => Err(NoMemory),
    }
}

/// How a value came that the session didn't make, and the value where it is used: it is found, or aside where its edges aren't the
/// figure's.
fn compared<'a, T: Indexed + Drop, S: Source<T>>(
    source: &S,
    value: &'a T,
) -> (Origin, Option<&'a T>)
    ensures origin { IsOrigin (S.wanted source.now) (Some (T.edges value.now)) result.0 }
    ensures asked { ¬ (result.0 ≡ origin.Unused) }
    ensures used { IfSome result.1 (λ index. IsUsed result.0 × (T.edges index.now ≡ S.wanted source.now)) }
{
    match source.differs_at(value) {
        None => (Origin::Found, Some(value)),
        Some(place) => (Origin::Aside(place), None),
    }
}

/// The value of a cell of which a note knows it.
fn seen<'a, T: Drop>(cell: &'a OnceBox<T>, note: &mut Note<T>) -> &'a T
    requires cell { note.old.cell ≡ cell_name cell.now }
    requires known { ¬ (note.old.known ≡ None) }
    ensures cell { note.new.cell ≡ note.old.cell }
    ensures value { note.new.known ≡ Some result.now }
    ensures kept { note.new.known ≡ note.old.known }
{
    match cell.get_as(note) {
        Some(value) => value,
        None => unreachable!(),
    }
}
