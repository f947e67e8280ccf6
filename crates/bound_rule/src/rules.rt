ghost use Rattle.std.specs.Prelude.{◌≡◌};
ghost use Rattle.point_set.specs.Lines.{is_boundary_count};

use point_set::Rule;

/// Whether a point with `count` line ends is boundary under the rule. Takes no memory.
pub fn in_boundary(rule: Rule, count: u32) -> bool
    ensures boundary { result ≡ is_boundary_count rule count }
{
    match rule {
        Rule::Mod2 => count % 2 == 1,
        Rule::Endpoint => count >= 1,
        Rule::Multivalent => count >= 2,
        Rule::Monovalent => count == 1,
    }
}
