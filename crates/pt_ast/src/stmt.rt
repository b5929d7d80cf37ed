use crate::{Expr, Ident, Strat};
use pt_choice::Seq;
use pt_val::Place;

/// A statement, with the place of its first token.
#[derive(Debug, Drop)]
pub struct Stmt {
    pub at: Place,
    pub kind: StmtKind,
}

/// What a statement does. The last three stand in the rules of a machine alone.
#[derive(Debug, Drop)]
pub enum StmtKind {
    /// Draws a value, and binds it.
    Draw(Ident, Strat),
    /// Binds the value of an expression.
    Let(Ident, Expr),
    Assume(Expr),
    Assert(Expr),
    /// Draws an entry of a bundle, and binds it. It is numbered as strategies are.
    Pick {
        num: u32,
        name: Ident,
        bundle: Ident,
    },
    /// Gives a state another value.
    Set(Ident, Expr),
    /// Puts a value into the rule's bundle.
    Give(Expr),
}

/// Statements in order.
pub type Stmts = Seq<Stmt>;
