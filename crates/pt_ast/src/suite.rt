use crate::{Expr, Ident, Stmts};
use pt_choice::Seq;
use pt_val::{Place, Ty};

/// A suite: its items in the order of its text.
#[derive(Debug, Drop)]
pub struct Suite {
    pub items: Items,
}

/// An item, with the place of its first token.
#[derive(Debug, Drop)]
pub struct Item {
    pub at: Place,
    pub name: Ident,
    pub settings: Settings,
    pub body: Body,
}

/// Items in order.
pub type Items = Seq<Item>;

/// How an item is tested. Each setting that a suite leaves out has its default.
#[derive(Clone, Copy, Debug, PartialEq, Eq)]
pub struct Settings {
    /// The passed runs that are asked for, 1 to 10,000, by default 100.
    pub runs: u32,
    /// The lists of choices that may be tried to reduce a failure, 0 to 1,000, by default 500.
    pub shrink: u32,
    /// The most steps of a machine's run, 1 to 64, by default 20.
    pub steps: u32,
}

/// What an item tests.
#[derive(Debug, Drop)]
pub enum Body {
    /// The check of the item's name that is handed in by code.
    Check,
    Property(Stmts),
    Machine(Machine),
}

/// A machine, with its number, which is counted as those of strategies are.
#[derive(Debug, Drop)]
pub struct Machine {
    pub num: u32,
    pub states: StateDecls,
    pub bundles: BundleDecls,
    pub invariants: InvariantDecls,
    pub rules: RuleDecls,
}

/// A state of a machine, with the value that it begins with.
#[derive(Debug, Drop)]
pub struct StateDecl {
    pub at: Place,
    pub name: Ident,
    pub init: Expr,
}

/// States in order.
pub type StateDecls = Seq<StateDecl>;

/// A bundle of a machine, with the type of its entries.
#[derive(Debug, Drop)]
pub struct BundleDecl {
    pub at: Place,
    pub name: Ident,
    pub ty: Ty,
}

/// Bundles in order.
pub type BundleDecls = Seq<BundleDecl>;

/// What holds between the steps of a machine.
#[derive(Debug, Drop)]
pub struct InvariantDecl {
    pub at: Place,
    pub cond: Expr,
}

/// Invariants in order.
pub type InvariantDecls = Seq<InvariantDecl>;

/// A rule of a machine: when it may run, the bundle that it gives into, and what it does.
#[derive(Debug, Drop)]
pub struct RuleDecl {
    pub at: Place,
    pub name: Ident,
    pub when: Option<Expr>,
    pub into: Option<Ident>,
    pub stmts: Stmts,
}

/// Rules in order.
pub type RuleDecls = Seq<RuleDecl>;
