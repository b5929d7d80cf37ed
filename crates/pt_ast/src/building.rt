//! Trees from their parts.

mod exprs;
mod strats;
