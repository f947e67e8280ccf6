//! Laws of the few nodes of two valid figures: each is a function that does nothing, and its contract is the law. It looks at the
//! two figures, so that they are known to be valid.

ghost use Rattle.few_laws.specs.Few.{LawFew, LawLeftOut};

use point_set::{Rule, Valid};

/// The few nodes show what all nodes show: each sample at a node is seen at a few node in at least the same dimension. So a matrix is
/// that of the samples at the few nodes exactly where it is that of the samples at all nodes.
pub fn law_few(a: &Valid, b: &Valid, rule: Rule)
    ensures few { LawFew a.now b.now rule }
    ensures left_out { LawLeftOut a.now b.now rule }
{
    a.figure();
    b.figure();
}
