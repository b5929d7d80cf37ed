ghost use Rattle.std.specs.Prelude.{◌≡◌, ◌≢◌, ◌≤◌, ◌↔◌, ℕ, Option, map, IfOk, OnErr, MatchOption, IsTrue, Contains};
ghost use Rattle.pt_choice.specs.Faults.{next_count};
ghost use Rattle.pt_ast.specs.Plain.{plain_item, plain_suite};
ghost use Rattle.pt_ast.specs.Suites.{IsTyped};
ghost use Rattle.pt_ast.specs.Trees.{ItemTree};
ghost use Rattle.pt_disk.specs.Moments.{Told};
ghost use Rattle.pt_io.specs.Files.{IsSame};
ghost use Rattle.pt_run.specs.Ends.{Ends, Says};
ghost use Rattle.pt_run.specs.Outside.{outside};
ghost use Rattle.pt_commands.specs.Words.{Replay};

use crate::loading::{Loaded, load};
use pt_ast::{Item, Typed};
use pt_case::{Check, replay};
use pt_choice::{Choices, NoMemory};
use pt_commands::{Finish, Message, tell};
use pt_io::{Files, Sink};
use pt_item::{ItemCheck, typed_items_are_handed_in};
use pt_report::Refusal;
use std::alloc::Global;

/// Replays the list on the item of this name, whatever the database holds.
pub fn show<F: Files, K: Sink, C: Check>(
    alloc: Global,
    file: &str,
    wanted: &str,
    list: &Choices,
    files: &mut F,
    sink: &mut K,
    checks: &[C],
) -> Result<Finish, NoMemory>
    ensures ends { (faults : ℕ) (told : Option Told) → IfOk result (λ finish. Ends C.name C.step checks.now (Replay file.now wanted.now list.now)
        (outside (F.shows files.old) faults told (K.shows sink.old)) (outside (F.shows files.new) faults told (K.shows sink.new)) finish) }
    ensures nothing { OnErr result (sink.new ≡ sink.old) }
    ensures quiet { OnErr result ((F.shows files.new).faults ≡ (F.shows files.old).faults) }
    ensures same { IsSame (F.shows files.old) (F.shows files.new) }
    ensures later { (K.shows sink.old).faults ≤ (K.shows sink.new).faults }
    ensures once { (F.shows files.new).chosen ≡ next_count (F.shows files.old).chosen }
{
    match load(alloc, files, file, checks)? {
        Loaded::Taken(suite) => {
            let message = replayed_on(alloc, &suite, wanted, list, checks)?;
            tell(alloc, sink, message)
        }
        Loaded::Refused(refusal) => tell(alloc, sink, Message::Refused(refusal)),
    }
}

// What a replay on the item of this name has to say.
fn replayed_on<C: Check>(
    alloc: Global,
    suite: &Typed,
    wanted: &str,
    list: &Choices,
    checks: &[C],
) -> Result<Message, NoMemory>
    requires { IsTyped (map C.name checks.now) (plain_suite suite.now) }
    ensures { IfOk result (Says C.name C.step checks.now (plain_suite suite.now) wanted.now list.now) }
{
    typed_items_are_handed_in();
    let Some(item) = named(suite.items(), wanted) else {
        return Ok(Message::Refused(Refusal::UnknownItem));
    };
    let check = ItemCheck::of(item, checks);
    let rec = replay(alloc, &check, list)?;
    let item = item.name.name.copy()?;
    Ok(Message::Replayed { item, rec })
}

// The item of this name.
pub(crate) fn named<'a>(items: &'a [Item], wanted: &str) -> Option<&'a Item>
    ensures { MatchOption result ((item : ItemTree) → Contains (map plain_item items.now) item → item.name.name ≢ wanted.now)
        (λ item. Contains (map plain_item items.now) (plain_item item.now) × (item.now.name.name ≡ wanted.now)) }
{
    for item in items {
        if is_named(item, wanted) {
            return Some(item);
        }
    }
    None
}

fn is_named(item: &Item, wanted: &str) -> bool
    ensures { IsTrue result ↔ (item.now.name.name ≡ wanted.now) }
{
    item.name.name.as_slice() == wanted.as_bytes()
}
