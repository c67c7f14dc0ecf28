/// What a net shows in a column.
#[derive(Clone, Copy, Debug, PartialEq, Eq)]
pub enum Mark {
    /// 0, without an edge: it was 0 one tick before, or this is the first column.
    Low,
    /// 0, and not 0 one tick before.
    Fall,
    /// 1, without an edge: it was 1 one tick before, or this is the first column.
    High,
    /// 1, and not 1 one tick before.
    Rise,
    /// X.
    Unsure,
    /// Not the same at each tick of the column.
    Changing,
}
