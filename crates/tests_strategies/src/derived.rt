//! What a strategy derives from choices as they are printed.

use crate::plain::{Drawn, at, made};
use pt_case::{Case, Ending, Origin, Span, What};
use pt_choice::{Choices, NoMemory};
use pt_eval::Env;
use pt_plan::DrawStop;
use pt_strat::draw;
use pt_val::{Val, show};
use pt_wire::read_choices;
use std::alloc::Global;

/// A value as it is printed, or why there is none.
#[derive(Clone, Copy)]
pub enum Want {
    Shown(&'static [u8]),
    Rejected,
    Stopped,
    /// What goes wrong, in the strategy itself, which is on line 1, or in an expression, on line 2.
    Wrong(What, u32),
}

/// A span: its label, where it begins and ends, and the number of that around it.
pub type Part = (u32, u16, u16, Option<u16>);

/// The choices that a short text spells, and none where it spells none.
pub fn choices_of(alloc: Global, spelled: &[u8]) -> Choices {
    if spelled.len() > 1_000 {
        return Choices::empty(alloc);
    }
    match read_choices(alloc, spelled) {
        Ok(choices) => choices,
        Err(_) => Choices::empty(alloc),
    }
}

/// A case over the choices that are spelled.
pub fn case_of(alloc: Global, spelled: &[u8]) -> Result<Case, NoMemory> {
    Case::replay(alloc, &choices_of(alloc, spelled))
}

/// The names `n`, which is 3, and `z`, which is 0.
fn names(alloc: Global) -> Result<Env, NoMemory> {
    let mut env = Env::empty(alloc);
    env.bind(crate::plain::name(alloc, "n")?, Val::Int(3))?;
    env.bind(crate::plain::name(alloc, "z")?, Val::Int(0))?;
    Ok(env)
}

pub fn is_stop(stop: DrawStop, want: Want) -> bool {
    match (stop, want) {
        (DrawStop::Reject, Want::Rejected) => true,
        (DrawStop::Overrun, Want::Stopped) => true,
        (DrawStop::Fault(origin), Want::Wrong(what, line)) => {
            origin
                == Origin::Suite {
                    what,
                    place: at(line),
                }
        }
        _ => false,
    }
}

fn is_wanted(alloc: Global, outcome: Result<Val, DrawStop>, want: Want) -> Result<bool, NoMemory> {
    match (outcome, want) {
        (Ok(val), Want::Shown(text)) => Ok(show(alloc, &val)?.as_slice() == text),
        (Ok(_), _) => Ok(false),
        (Err(stop), _) => Ok(is_stop(stop, want)),
    }
}

fn is_part(span: &Span, part: &Part) -> bool {
    (span.label, span.from, span.to, span.parent) == *part
}

/// Whether the spans are these.
pub fn are_parts(spans: &[Span], parts: &[Part]) -> bool {
    spans.len() == parts.len()
        && spans
            .iter()
            .zip(parts)
            .all(|(span, part)| is_part(span, part))
}

/// Whether the choices lead to what is wanted.
pub fn comes_to(
    alloc: Global,
    drawn: &Drawn,
    spelled: &[u8],
    want: Want,
) -> Result<bool, NoMemory> {
    let strategy = made(alloc, drawn, &mut 0)?;
    let mut case = case_of(alloc, spelled)?;
    let outcome = draw(alloc, &strategy, &names(alloc)?, &mut case);
    is_wanted(alloc, outcome, want)
}

/// Whether the choices lead to these spans, also where there is no value.
pub fn makes(
    alloc: Global,
    drawn: &Drawn,
    spelled: &[u8],
    parts: &[Part],
) -> Result<bool, NoMemory> {
    let strategy = made(alloc, drawn, &mut 0)?;
    let mut case = case_of(alloc, spelled)?;
    let _outcome = draw(alloc, &strategy, &names(alloc)?, &mut case);
    let rec = case.finish(Ending::Pass);
    Ok(are_parts(rec.spans.as_slice(), parts))
}
