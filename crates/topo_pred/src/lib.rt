//! A query on two figures in progress: what is asked, the matrix as far as it is known, and whether
//! the value is known already.
#![tactic(auto)]

ghost use Rattle.std.specs.Prelude.{◌≡◌, ◌≢◌, ◌↔◌, Bool, IfNone};
ghost use Rattle.im_matrix.specs.declared.Cell.{Cell};
ghost use Rattle.im_matrix.specs.declared.Matrix.{Matrix};
ghost use Rattle.im_matrix.specs.Cells.{greater, dimension_at, start_dimension};
ghost use Rattle.topo_pred.specs.Later.{IsAtLeast};
ghost use Rattle.topo_pred.specs.Values.{value_of, query_of, matrix_of, value_at, IsSettled, IsOpen, IsOpenAt, IsRaised, KnownIsFinal};

mod outlook;

use im_matrix::{Cell, Dim, Matrix, Name, Pattern, named};
use outlook::{name_known, pattern_known};

/// What is asked of two figures.
#[derive(Clone, Copy, Debug, PartialEq, Eq)]
pub enum Query {
    /// Their matrix.
    Relate,
    /// Whether a named predicate is true of them.
    Named(Name),
    /// Whether their matrix matches a pattern.
    Match(Pattern),
}

/// The answer to a query.
#[derive(Clone, Copy, Debug, PartialEq, Eq)]
pub enum Answer {
    /// The matrix, as `Relate` asks.
    Im(Matrix),
    /// Whether the name or the pattern fits.
    Truth(bool),
}

/// A query in progress.
#[derive(Clone, Copy, Debug, PartialEq, Eq)]
pub struct Progress {
    query: Query,
    dim_a: Dim,
    dim_b: Dim,
    matrix: Matrix,
}

impl Progress {
    /// A query on two figures with these dimensions, of which no point is known yet.
    pub fn new(query: Query, dim_a: Dim, dim_b: Dim) -> Progress
        ensures query { query_of result ≡ query }
        ensures value { (m : Matrix) → value_at result m ≡ value_of query dim_a dim_b m }
        ensures matrix { (c : Cell) → dimension_at (matrix_of result) c ≡ start_dimension c }
    {
        Progress {
            query,
            dim_a,
            dim_b,
            matrix: Matrix::start(),
        }
    }

    /// The value of the query, where it is the same whatever is still to come. `Relate` has none.
    pub fn known(&self) -> Option<bool>
        ensures settled { (v : Bool) → (result ≡ Some v) ↔ IsSettled self.now v }
        ensures open { IfNone result (IsOpen self.now) }
        ensures none { IsOpen self.now → result ≡ None }
        ensures relate { query_of self.now ≡ Query.Relate → result ≡ None }
    {
        query_known(&self.query, self.dim_a, self.dim_b, &self.matrix)
    }

    /// Takes in that the cell's points have at least this dimension. No value is known yet.
    pub fn feed(&mut self, c: Cell, d: Dim)
        requires undecided { IsOpen self.old }
        ensures query { query_of self.new ≡ query_of self.old }
        ensures value { (m : Matrix) → value_at self.new m ≡ value_at self.old m }
        ensures matrix { IsRaised (matrix_of self.old) (matrix_of self.new) c d }
    {
        self.matrix.raise(c, d);
    }

    /// The answer, where nothing more is to come: the query's value on the present matrix.
    pub fn finish(&self) -> Answer
        ensures value { result ≡ value_at self.now (matrix_of self.now) }
    {
        match self.query {
            Query::Relate => Answer::Im(self.matrix),
            Query::Named(name) => {
                Answer::Truth(named(name, self.dim_a, self.dim_b, &self.matrix))
            }
            Query::Match(pattern) => Answer::Truth(pattern.matches(&self.matrix)),
        }
    }
}

/// What is known of a query's value on this matrix and all that are at least it.
fn query_known(query: &Query, dim_a: Dim, dim_b: Dim, m: &Matrix) -> Option<bool>
    ensures settled { (v : Bool) → (result ≡ Some v) ↔ (
        (later : Matrix) → IsAtLeast later m.now → value_of query.now dim_a dim_b later ≡ Answer.Truth v) }
    ensures open { IfNone result (IsOpenAt query.now dim_a dim_b m.now) }
{
    match query {
        Query::Relate => None,
        Query::Named(name) => name_known(*name, dim_a, dim_b, m),
        Query::Match(pattern) => pattern_known(pattern, m),
    }
}

/// A law, with nothing to run: once a value is known, it is that of the final matrix, whatever is
/// still fed. So the feeds that are left need not be computed.
pub fn known_is_final()
    ensures known { KnownIsFinal }
{}

#[cfg(test)]
mod tests {
    use super::*;
    use im_matrix::Loc;
    use std::test::Fail;

    const INTERIORS: Cell = Cell {
        a: Loc::Interior,
        b: Loc::Interior,
    };

    const BOUNDARIES: Cell = Cell {
        a: Loc::Boundary,
        b: Loc::Boundary,
    };

    #[test]
    fn contains_is_refuted_by_a_point_outside(rt: HostRuntime) {
        let mut p = Progress::new(Query::Named(Name::Contains), Dim::Two, Dim::Two);
        let before = p.known();
        assert_eq!(rt; before, None);
        p.feed(INTERIORS, Dim::Two);
        let met = p.known();
        assert_eq!(rt; met, None);
        assert_eq!(rt; p.finish(), Answer::Truth(true));
        p.feed(
            Cell {
                a: Loc::Exterior,
                b: Loc::Interior,
            },
            Dim::Two,
        );
        assert_eq!(rt; p.known(), Some(false));
        assert_eq!(rt; p.finish(), Answer::Truth(false));
    }

    #[test]
    fn one_common_point_decides(rt: HostRuntime) {
        let mut meets = Progress::new(Query::Named(Name::Intersects), Dim::One, Dim::Two);
        let before = meets.known();
        assert_eq!(rt; before, None);
        meets.feed(BOUNDARIES, Dim::Zero);
        assert_eq!(rt; meets.known(), Some(true));
        known_is_final();
    }

    #[test]
    fn one_common_point_decides_a_pattern(rt: HostRuntime) -> Result<(), Fail> {
        let pattern = Query::Match(Pattern::parse("****T***2")?);
        let mut fits = Progress::new(pattern, Dim::One, Dim::Two);
        let before = fits.known();
        assert_eq!(rt; before, None);
        fits.feed(BOUNDARIES, Dim::Zero);
        assert_eq!(rt; fits.known(), Some(true));
        Ok(())
    }

    // Threads may share and hand over what this is given.
    fn is_shared<T: Send + Sync>(_value: &T) {}

    #[test]
    fn a_matrix_is_told_at_the_end(rt: HostRuntime) {
        let mut all = Progress::new(Query::Relate, Dim::One, Dim::Two);
        let before = all.known();
        assert_eq!(rt; before, None);
        all.feed(BOUNDARIES, Dim::Zero);
        assert_eq!(rt; all.known(), None);
        let mut m = Matrix::start();
        m.raise(BOUNDARIES, Dim::Zero);
        let answer = all.finish();
        assert_eq!(rt; answer, Answer::Im(m));
        is_shared(&all);
        is_shared(&answer);
    }
}
