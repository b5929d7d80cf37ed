use crate::Ident;
use pt_choice::{Octets, Seq};
use pt_val::{Chars, Name, Place};

/// An expression, with the place of its first token.
#[derive(Debug, Drop)]
#[cycle(expr)]
pub struct Expr {
    pub at: Place,
    pub kind: ExprKind,
}

/// What an expression is made of.
///
/// Operators of one level that follow one another are one node with all their operands.
#[derive(Debug, Drop)]
#[cycle(expr)]
pub enum ExprKind {
    /// A number, with its sign where a minus sign stands directly before it.
    Num(i64),
    Text(Chars),
    Bytes(Octets),
    Flag(bool),
    Var(Name),
    /// The condition, and the two branches.
    If(Box<Expr>, Box<Expr>, Box<Expr>),
    Or(Exprs),
    And(Exprs),
    Not(Box<Expr>),
    Compare(Box<Expr>, CompareOp, Box<Expr>),
    /// A chain of `+` and `-`.
    Sum(Box<Expr>, Tails),
    /// A chain of `*`, `/` and `%`.
    Prod(Box<Expr>, Tails),
    Neg(Box<Expr>),
    /// Indexes and parts, each taken of what stands before it.
    Post(Box<Expr>, PostTails),
    Call(Func, Exprs),
    /// The name that is bound, the list whose members it stands for, and what is asked or made of each.
    Bind(Binder, Ident, Box<Expr>, Box<Expr>),
    /// One expression in round brackets.
    Bracket(Box<Expr>),
    Tuple(Exprs),
    List(Exprs),
}

/// Expressions in order.
pub type Exprs = Seq<Expr>;

/// A comparison.
#[derive(Clone, Copy, Debug, PartialEq, Eq)]
pub enum CompareOp {
    Eq,
    Ne,
    Lt,
    Le,
    Gt,
    Ge,
}

/// An operator of a chain.
#[derive(Clone, Copy, Debug, PartialEq, Eq)]
pub enum Op {
    Add,
    Sub,
    Mul,
    Div,
    Rem,
}

/// An operator of a chain, with its place and what stands on its right.
#[derive(Debug, Drop)]
#[cycle(expr)]
pub struct Tail {
    pub at: Place,
    pub op: Op,
    pub right: Expr,
}

/// The operators of a chain from left to right.
pub type Tails = Seq<Tail>;

/// What is taken of the expression before it.
#[derive(Debug, Drop)]
#[cycle(expr)]
pub enum PostTail {
    /// The member at an index, with the place of the `[`.
    Index { at: Place, index: Expr },
    /// The part of a tuple with this number, counted from 0, with the place of the number.
    Part { at: Place, part: i64 },
}

/// Indexes and parts from left to right.
pub type PostTails = Seq<PostTail>;

/// A function of the language.
#[derive(Clone, Copy, Debug, PartialEq, Eq)]
pub enum Func {
    Len,
    Has,
    Sum,
    Cat,
    Rev,
    Leaf,
    Node,
    Label,
    Kids,
    Labels,
}

/// A word that binds a name to each member of a list in turn.
#[derive(Clone, Copy, Debug, PartialEq, Eq)]
pub enum Binder {
    All,
    Any,
    Each,
}
