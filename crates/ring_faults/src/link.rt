ghost use Rattle.std.specs.Cmp.{partial_equiv_from_equiv, eq_by_cmp_equiv, partial_order_from_agreeing_total};
ghost use Rattle.std.specs.List.{AllPairs};
ghost use Rattle.std.specs.Ordering.{eq_by_cmp, as_partial_cmp};
ghost use Rattle.std.specs.Prelude.{◌≡◌, ◌↔◌, Contains, IsTrue, refl};
ghost use Rattle.std.specs.declared.cmp.Ordering.TheVariants.{Less};
ghost use Rattle.ring_faults.specs.Links.{compare_links};
ghost use Rattle.ring_faults.specs.LinkOrders.{compare_links_total};

use plane_exact::{Node, cmp_nodes};
use std::cmp::Ordering;

/// A ring, by its place, and a node on it that another ring holds too. Links are compared by node and then by ring.
#[derive(Clone, Copy, Debug)]
pub(crate) struct Link {
    pub(crate) node: Node,
    pub(crate) ring: usize,
}

impl PartialEq for Link {
    ghost eq = { eq_by_cmp compare_links };

    ghost laws = { partial_equiv_from_equiv (eq_by_cmp_equiv compare_links_total) };

    fn eq(&self, other: &Link) -> bool {
        cmp_links(self, other) == Ordering::Equal
    }
}

impl Eq for Link {
    ghost laws = { eq_by_cmp_equiv compare_links_total };
}

impl PartialOrd for Link {
    ghost partial_cmp = { as_partial_cmp compare_links };

    ghost laws = { partial_order_from_agreeing_total compare_links compare_links_total (λ x y. refl) (λ x y. refl) };

    fn partial_cmp(&self, other: &Link) -> Option<Ordering> {
        Some(self.cmp(other))
    }
}

impl Ord for Link {
    ghost cmp = { compare_links };

    ghost total = { compare_links_total };

    ghost matches_partial_cmp = { λ x y. refl };

    ghost matches_eq = { λ x y. refl };

    fn cmp(&self, other: &Link) -> Ordering {
        cmp_links(self, other)
    }
}

/// The order of links by node and then by ring.
fn cmp_links(one: &Link, other: &Link) -> Ordering
    ensures order { result ≡ compare_links one.now other.now }
{
    match cmp_nodes(&one.node, &other.node) {
        Ordering::Equal => one.ring.cmp(&other.ring),
        apart => apart,
    }
}

/// Puts links into order, and keeps each once.
pub(crate) fn sort_links(links: &mut Vec<Link>)
    ensures ascending { AllPairs (λ l m. compare_links l m ≡ Less) links.new.items }
    ensures same { (l : _) → Contains links.old.items l ↔ Contains links.new.items l }
{
    links.sort_unstable();
    links.dedup();
}

/// Whether two nodes are one.
pub(crate) fn is_same_node(one: &Node, other: &Node) -> bool
    ensures same { IsTrue result ↔ (one.now ≡ other.now) }
{
    match cmp_nodes(one, other) {
        Ordering::Equal => true,
        Ordering::Less | Ordering::Greater => false,
    }
}
