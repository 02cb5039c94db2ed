/// A limit that a command or a statement can exceed.
#[derive(Clone, Copy, Debug, PartialEq, Eq)]
pub enum Limit {
    /// The length of a line.
    Line,
    /// How many elements are open in one another.
    Nesting,
    /// How many tags of a statement are open in one another.
    Pattern,
    /// The number of patterns directly under a root.
    Arms,
    /// The number of places that a query binds or compares.
    Slots,
    /// The number of conditions.
    Conditions,
    /// The number of names in a path.
    Path,
}
