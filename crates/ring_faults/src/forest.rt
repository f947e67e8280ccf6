ghost use Rattle.std.specs.List.{AllPairs};
ghost use Rattle.std.specs.Prelude.{◌≡◌, ◌+◌, ◌<◌, ◌↔◌, IfOk, IsTrue, All};
ghost use Rattle.std.specs.declared.cmp.Ordering.TheVariants.{Less};
ghost use Rattle.ring_faults.specs.Links.{compare_links, HasCycle};

use crate::classes::Classes;
use crate::link::{Link, is_same_node};
use plane_exact::NoMemory;
use std::alloc::Global;

/// Whether links in order, each once, have a cycle. Their rings go up to `last`.
///
/// Rings that are joined so far have one label. A node's next ring closes a cycle where it has the label of the ring
/// before it, and else the two labels become one. A ring takes another label only where its class at least doubles, so
/// `n` rings take other labels at most `n log n` times.
pub(crate) fn have_cycle(alloc: Global, links: &[Link], last: usize) -> Result<bool, NoMemory>
    requires ascending { AllPairs (λ l m. compare_links l m ≡ Less) links.now }
    requires rings { All (λ l. l.ring < last + 1) links.now }
    ensures cycle { IfOk result (λ b. IsTrue b ↔ HasCycle links.now) }
{
    let mut classes = Classes::new(alloc, last)?;
    for i in 1..links.len() {
        let head = links[i - 1];
        let link = links[i];
        if is_same_node(&head.node, &link.node) {
            let one = classes.label(link.ring);
            let other = classes.label(head.ring);
            if one == other {
                return Ok(true);
            }
            classes.join(one, other)?;
        }
    }
    Ok(false)
}
