ghost use Rattle.std.specs.Prelude.{◌≤◌, ◌^◌, length, IfOk, IfErr};
ghost use Rattle.pt_taking.specs.Gives.{Gives};
ghost use Rattle.pt_ast.specs.Bounds.{IsBounded};
ghost use Rattle.pt_ast.specs.Numbers.{IsNumbered};
ghost use Rattle.pt_ast.specs.Plain.{plain_suite};
ghost use Rattle.pt_grammar.specs.SuiteReading.{suite_at};
ghost use Rattle.pt_parse.specs.Suites.{Reads, Faults};

use crate::SuiteFault;
use pt_ast::Suite;
use pt_lex::{LexStop, tokens_end_once, tokens_of};
use pt_read_items::read_items;
use pt_taking::{Stop, Terminal, one, place};
use pt_token::Token;
use std::alloc::Global;

/// Reads the suite that these bytes are the text of: its tree, or the first fault.
///
/// It takes time that is linear in the text, memory for the tokens and the tree alone, and a stack that is bounded, since no more than 64 levels are ever open.
pub fn read_suite(alloc: Global, bytes: &[u8]) -> Result<Suite, SuiteFault>
    requires { length bytes.now ≤ 1048576 }
    ensures reads { IfOk result (λ suite. Reads bytes.now (plain_suite suite)) }
    ensures bounded { IfOk result (λ suite. IsBounded (plain_suite suite)) }
    ensures numbered { IfOk result (λ suite. IsNumbered (plain_suite suite)) }
    ensures faults { IfErr result (Faults bytes.now) }
{
    let tokens = match tokens_of(alloc, bytes) {
        Ok(tokens) => tokens,
        Err(LexStop::NotUtf8(place)) => return Err(SuiteFault::NotUtf8(place)),
        Err(LexStop::NoMemory) => return Err(SuiteFault::NoMemory),
    };
    tokens_end_once();
    match read_whole(alloc, tokens.as_slice()) {
        Ok(suite) => Ok(suite),
        Err(Stop::At(which, rest)) => Err(SuiteFault::at(which, place(rest))),
        Err(Stop::NoMemory) => Err(SuiteFault::NoMemory),
    }
}

/// Reads items up to the end of the text.
#[tactic(auto, unfolding(pt_grammar::specs::SuiteReading::suite_at))]
fn read_whole(alloc: Global, tokens: &[Token]) -> Result<Suite, Stop<'_>>
    requires { length tokens.now ≤ 2 ^ 21 }
    ensures { Gives plain_suite result (suite_at tokens.now) }
{
    let (items, after) = read_items(alloc, tokens)?;
    let _ = one(Terminal::End, after)?;
    Ok(Suite { items })
}
