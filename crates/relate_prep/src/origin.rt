/// How a session came to know the value of a cell.
#[derive(Clone, Copy, Debug, PartialEq, Eq)]
pub enum Origin {
    /// The session hasn't asked for the cell.
    Unused,
    /// The cell took the session's own value.
    Made,
    /// The cell gave a value whose edges are the figure's.
    Found,
    /// The cell gave a value whose edges and the figure's first differ at this place.
    Aside(u32),
}
