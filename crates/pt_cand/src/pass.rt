/// A way in which simpler lists are made from the best record.
#[derive(Clone, Copy, Debug, PartialEq, Eq)]
pub enum Pass {
    /// A span's choices left out.
    DeleteSpan,
    /// A span replaced by a smaller one of its label inside it.
    Descend,
    /// One choice lowered.
    LowerOne,
    /// Two integers moved toward zero by the same.
    LowerPair,
    /// Two sibling spans of one label exchanged.
    SwapSiblings,
    /// An integer moved toward zero by one, and a later span left out: a count and one of what it counts.
    LowerDelete,
    /// An integer moved toward zero, and a later one as much the other way: a fixed sum.
    Shift,
}

/// All passes, in the order in which a sweep goes through them.
pub const PASSES: [Pass; 7] = [
    Pass::DeleteSpan,
    Pass::Descend,
    Pass::LowerOne,
    Pass::LowerPair,
    Pass::SwapSiblings,
    Pass::LowerDelete,
    Pass::Shift,
];
