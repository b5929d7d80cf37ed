//! The check `pieces`: a machine that gathers bytes.

ghost use Rattle.std.specs.Prelude.{◌≡◌, ◌++◌, map, IfOk};
ghost use Rattle.pt_case.specs.State.{State};
ghost use Rattle.pt_plan.specs.Came.{Drew};
ghost use Rattle.pt_plan.specs.Stop.{draw_halt};
ghost use Rattle.pt_typed.specs.Reading.{bytes_of};
ghost use Rattle.demo_lru.specs.Pieces.{append_name, append_meaning, append_plan, clear_name, clear_meaning, piece_word, pieces_name, whole_plan, IsPieces};

use crate::hexed::is_read_back;
use pt_case::{Case, Ending, Origin};
use pt_choice::{NoMemory, Octets};
use pt_plan::{DrawStop, note};
use pt_rules::{Rule, RuleMachine, stepped};
use pt_typed::{Blobs, draw_from};
use pt_val::{Name, Val};
use std::alloc::Global;

const STEPS: u32 = 10;

/// The machine, of these two rules. It begins with no bytes.
pub fn pieces_machine(
    alloc: Global,
    append: Box<dyn Rule>,
    clear: Box<dyn Rule>,
) -> Result<RuleMachine, NoMemory>
    requires append { meaning append ≡ append_meaning }
    requires clear { meaning clear ≡ clear_meaning }
    ensures { IfOk result (λ machine. IsPieces machine.name (map (λ rule. (Rule-box rule).meaning rule.value) machine.rules.items) machine.steps machine.start) }
{
    let name = pieces_name(alloc)?;
    let mut rules = Vec::new(alloc);
    rules.push(append)?;
    rules.push(clear)?;
    Ok(RuleMachine {
        name,
        start: Val::Bytes(Octets::empty(alloc)),
        rules,
        steps: STEPS,
    })
}

/// The rule `append`: it draws a piece of up to 4 bytes, shows it as `piece` and puts it behind the bytes so far. It fails at point 1
/// where the hex text of all of them, read back, is not the same bytes.
#[derive(Drop)]
pub struct Append {
    name: Name,
    alloc: Global,
    ghost named: { name ≡ append_name },
}

impl Append {
    pub fn of(alloc: Global) -> Result<Append, NoMemory>
        ensures { IfOk result (λ append. append.name ≡ append_name) }
    {
        match Name::of(alloc, "append") {
            Ok(name) => Ok(Append { name, alloc }),
            Err(_) => Err(NoMemory),
        }
    }
}

impl Rule for Append {
    ghost use Rattle.std.specs.Prelude.{true};
    ghost use Rattle.demo_lru.specs.Pieces.{append_plan};

    ghost meaning = { λ append. record { name = append.name; enabled = λ state. true; step = append_plan } };

    fn name(&self) -> &Name {
        &self.name
    }

    fn enabled(&self, _: &Val) -> bool {
        true
    }

    fn step(&self, state: &mut Val, case: &mut Case) -> Result<Ending, NoMemory> {
        let next = draw_next(self.alloc, state, case);
        stepped(state, next)
    }
}

/// The rule `clear`: where there are bytes it forgets them.
#[derive(Drop)]
pub struct Clear {
    name: Name,
    alloc: Global,
    ghost named: { name ≡ clear_name },
}

impl Clear {
    pub fn of(alloc: Global) -> Result<Clear, NoMemory>
        ensures { IfOk result (λ clear. clear.name ≡ clear_name) }
    {
        match Name::of(alloc, "clear") {
            Ok(name) => Ok(Clear { name, alloc }),
            Err(_) => Err(NoMemory),
        }
    }
}

impl Rule for Clear {
    ghost use Rattle.demo_lru.specs.Pieces.{is_filled, clear_plan};

    ghost meaning = { λ clear. record { name = clear.name; enabled = is_filled; step = clear_plan } };

    fn name(&self) -> &Name {
        &self.name
    }

    fn enabled(&self, state: &Val) -> bool {
        !bytes_of(state).is_empty()
    }

    fn step(&self, state: &mut Val, _: &mut Case) -> Result<Ending, NoMemory> {
        *state = Val::Bytes(Octets::empty(self.alloc));
        Ok(Ending::Pass)
    }
}

// The state after a step of `append`.
fn draw_next(alloc: Global, state: &Val, case: &mut Case) -> Result<Val, DrawStop>
    ensures drew { Drew draw_halt (append_plan state.now) case.old case.new result }
{
    let piece = draw_from(&Blobs::of(0, 4), alloc, case)?;
    let whole = joined(alloc, bytes_of(state), piece.as_slice())?;
    note(case, piece_word(alloc)?, Val::Bytes(piece))?;
    read_whole(alloc, whole)
}

// The bytes as the next state, if they are read back.
fn read_whole(alloc: Global, whole: Octets) -> Result<Val, DrawStop>
    ensures drew { (case : State) → Drew draw_halt (whole_plan whole) case case result }
{
    let same = is_read_back(alloc, whole.as_slice())?;
    if same {
        return Ok(Val::Bytes(whole));
    }
    Err(DrawStop::Fault(Origin::Point(1)))
}

fn joined(alloc: Global, front: &[u8], back: &[u8]) -> Result<Octets, NoMemory>
    ensures { IfOk result (λ whole. whole ≡ front.now ++ back.now) }
{
    let mut whole = Vec::from_slice(alloc, front)?;
    whole.extend_from_slice(back)?;
    Ok(Octets::from(whole))
}

// The bytes of a state, which has no others.
fn bytes_of(state: &Val) -> &[u8]
    ensures { result.now ≡ bytes_of state.now }
{
    match state {
        Val::Bytes(bytes) => bytes.as_slice(),
        _ => &[],
    }
}

fn pieces_name(alloc: Global) -> Result<Name, NoMemory>
    ensures { IfOk result (λ name. name ≡ pieces_name) }
{
    match Name::of(alloc, "pieces") {
        Ok(name) => Ok(name),
        Err(_) => Err(NoMemory),
    }
}

fn piece_word(alloc: Global) -> Result<Name, NoMemory>
    ensures { IfOk result (λ name. name ≡ piece_word) }
{
    match Name::of(alloc, "piece") {
        Ok(name) => Ok(name),
        Err(_) => Err(NoMemory),
    }
}
