//! What is asked of each pair.
ghost use Rattle.std.specs.Prelude.{◌≡◌, Some, MatchOption, MatchResult};
ghost use Rattle.std.specs.Option.{option_copied};
ghost use Rattle.geosop_line.specs.Operations.{operation_word, Asks};
ghost use Rattle.geosop_line.specs.Steps.{IsQueryFault};
ghost use Rattle.geosop_line.specs.declared.operation.Operation.{Operation};

use crate::config::UsageFault;
use im_matrix::{Name, Pattern};
use topo_pred::Query;

/// What the operation's word asks.
#[derive(Clone, Copy, Debug, PartialEq, Eq)]
pub(crate) enum Operation {
    /// The matrix.
    Relate,
    /// Whether the matrix matches the argument's pattern.
    RelatePattern,
    /// Whether a named predicate is true.
    Named(Name),
}

/// The operation of a word.
fn operation_of(word: &str) -> Option<Operation>
    ensures word { MatchOption result ((o : Operation) → ¬ (word.now ≡ operation_word o)) (λ o. word.now ≡ operation_word o) }
{
    match word {
        "relate" => Some(Operation::Relate),
        "relatePattern" => Some(Operation::RelatePattern),
        "intersects" => Some(Operation::Named(Name::Intersects)),
        "disjoint" => Some(Operation::Named(Name::Disjoint)),
        "contains" => Some(Operation::Named(Name::Contains)),
        "within" => Some(Operation::Named(Name::Within)),
        "covers" => Some(Operation::Named(Name::Covers)),
        "coveredBy" => Some(Operation::Named(Name::CoveredBy)),
        "touches" => Some(Operation::Named(Name::Touches)),
        "crosses" => Some(Operation::Named(Name::Crosses)),
        "overlaps" => Some(Operation::Named(Name::Overlaps)),
        "equals" => Some(Operation::Named(Name::Equals)),
        "containsProperly" => Some(Operation::Named(Name::ContainsProperly)),
        _ => None,
    }
}

/// The query of an operation with this argument.
fn asked(operation: Operation, argument: Option<&str>) -> Result<Query, UsageFault>
    ensures query { MatchResult result
        (Asks (Some (operation_word operation)) (option_copied argument.entry))
        (IsQueryFault (Some (operation_word operation)) (option_copied argument.entry)) }
{
    match (operation, argument) {
        (Operation::Relate, None) => Ok(Query::Relate),
        (Operation::Named(name), None) => Ok(Query::Named(name)),
        (Operation::RelatePattern, Some(text)) => match Pattern::parse(text) {
            Ok(pattern) => Ok(Query::Match(pattern)),
            Err(bad) => Err(UsageFault::BadMatch(bad.place)),
        },
        _ => Err(UsageFault::Argument),
    }
}

/// The query of these values of the two positionals.
pub(crate) fn query_of(operation: Option<&str>, argument: Option<&str>) -> Result<Query, UsageFault>
    ensures query { MatchResult result
        (Asks (option_copied operation.entry) (option_copied argument.entry))
        (IsQueryFault (option_copied operation.entry) (option_copied argument.entry)) }
{
    match operation.and_then(operation_of) {
        Some(operation) => asked(operation, argument),
        None => Err(UsageFault::Operation),
    }
}
