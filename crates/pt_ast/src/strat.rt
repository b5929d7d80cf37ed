use crate::{Expr, Ident};
use pt_choice::Seq;
use pt_val::{Chars, Place};

/// A strategy, with the place of its first token and its number.
///
/// Strategies, `pick` statements and machines are numbered together, from 0 on, in order of their first
/// tokens over the whole suite. `self` is not numbered, and has 0.
#[derive(Debug, Drop)]
#[cycle(strat)]
pub struct Strat {
    pub at: Place,
    pub num: u32,
    pub kind: StratKind,
}

/// What a strategy is made of.
#[derive(Debug, Drop)]
#[cycle(strat)]
pub enum StratKind {
    /// The least and the greatest integer.
    Ints(Expr, Expr),
    Bools,
    /// The characters, and the least and the greatest length.
    Texts(Alphabet, Expr, Expr),
    /// The least and the greatest length.
    Blobs(Expr, Expr),
    /// The list whose members are drawn.
    SampledFrom(Expr),
    /// The members, and the least and the greatest length.
    Lists(Box<Strat>, Expr, Expr),
    Tuples(Strats),
    OneOf(Strats),
    /// The name that a value of the strategy has in what is made of it.
    Map(Ident, Box<Strat>, Expr),
    /// The name that a value of the strategy has in the condition.
    Filter(Ident, Box<Strat>, Expr),
    /// The name that a value of the first strategy has in the second.
    FlatMap(Ident, Box<Strat>, Box<Strat>),
    /// How deep `self` may go, what is drawn at the bottom, and what is drawn above it.
    Recursive(u32, Box<Strat>, Box<Strat>),
    /// The innermost `recursive` around it, one level deeper, which is written `self`.
    Again,
}

/// Strategies in order.
pub type Strats = Seq<Strat>;

/// The characters that texts are drawn from, with the place where they are written.
#[derive(Debug, Drop)]
pub struct Alphabet {
    pub at: Place,
    pub chars: Chars,
}
