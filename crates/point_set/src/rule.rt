/// A boundary node rule: at how many line ends a point is boundary (`Mod2` is that of OGC 06-103r4, 6.1.8).
#[derive(Clone, Copy, Debug, PartialEq, Eq)]
pub enum Rule {
    /// At an odd number of ends.
    Mod2,
    /// At one end or more.
    Endpoint,
    /// At two ends or more.
    Multivalent,
    /// At exactly one end.
    Monovalent,
}
