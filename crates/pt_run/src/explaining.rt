ghost use Rattle.std.specs.Prelude.{◌≡◌, ◌≤◌, ◌↔◌, ℕ, Option, map, length, All, IfOk, IfSome, OnErr, IsSome, true};
ghost use Rattle.pt_choice.specs.Faults.{next_count};
ghost use Rattle.pt_ast.specs.Plain.{plain_suite};
ghost use Rattle.pt_ast.specs.Suites.{IsTyped};
ghost use Rattle.pt_case.specs.Ending.{is_failure};
ghost use Rattle.pt_case.specs.Run.{IsRecord};
ghost use Rattle.pt_disk.specs.Moments.{Told};
ghost use Rattle.pt_explain.specs.Mark.{AreMarks};
ghost use Rattle.pt_explain.specs.Together.{AreTogether};
ghost use Rattle.pt_io.specs.Files.{IsSame};
ghost use Rattle.pt_report.specs.Explaining.{IsPrintable};
ghost use Rattle.pt_run.specs.Ends.{Ends, Explains};
ghost use Rattle.pt_commands.specs.Explaining.{IsExplained};
ghost use Rattle.pt_commands.specs.Message.{IsTellable};
ghost use Rattle.pt_run.specs.Outside.{outside};
ghost use Rattle.pt_commands.specs.Words.{Explain};

use crate::loading::{Loaded, load};
use crate::showing::named;
use pt_ast::Typed;
use pt_case::{Check, Record, a_record_is_its_own, replay};
use pt_choice::{Choices, NoMemory};
use pt_commands::{Finish, Message, tell};
use pt_explain::{Explained, explain};
use pt_io::{Files, Sink};
use pt_item::{ItemCheck, typed_items_are_handed_in};
use pt_report::Refusal;
use std::alloc::Global;

/// Replays the list on the item of this name, and where it fails says of each choice whether others in its place fail alike.
pub fn explain_on<F: Files, K: Sink, C: Check>(
    alloc: Global,
    file: &str,
    wanted: &str,
    list: &Choices,
    files: &mut F,
    sink: &mut K,
    checks: &[C],
) -> Result<Finish, NoMemory>
    ensures ends { (faults : ℕ) (told : Option Told) → IfOk result (λ finish. Ends C.name C.step checks.now (Explain file.now wanted.now list.now)
        (outside (F.shows files.old) faults told (K.shows sink.old)) (outside (F.shows files.new) faults told (K.shows sink.new)) finish) }
    ensures nothing { OnErr result (sink.new ≡ sink.old) }
    ensures quiet { OnErr result ((F.shows files.new).faults ≡ (F.shows files.old).faults) }
    ensures same { IsSame (F.shows files.old) (F.shows files.new) }
    ensures later { (K.shows sink.old).faults ≤ (K.shows sink.new).faults }
    ensures once { (F.shows files.new).chosen ≡ next_count (F.shows files.old).chosen }
{
    match load(alloc, files, file, checks)? {
        Loaded::Taken(suite) => {
            let message = marked_on(alloc, &suite, wanted, list, checks)?;
            tell(alloc, sink, message)
        }
        Loaded::Refused(refusal) => tell(alloc, sink, Message::Refused(refusal)),
    }
}

// What is to be said of the choices on the item of this name.
fn marked_on<C: Check>(
    alloc: Global,
    suite: &Typed,
    wanted: &str,
    list: &Choices,
    checks: &[C],
) -> Result<Message, NoMemory>
    requires { IsTyped (map C.name checks.now) (plain_suite suite.now) }
    ensures says { IfOk result (Explains C.name C.step checks.now (plain_suite suite.now) wanted.now list.now) }
    ensures tellable { IfOk result IsTellable }
{
    typed_items_are_handed_in();
    let Some(item) = named(suite.items(), wanted) else {
        return Ok(Message::Refused(Refusal::UnknownItem));
    };
    let check = ItemCheck::of(item, checks);
    let found = explain_list(alloc, &check, list)?;
    let item = item.name.name.copy()?;
    let Found { rec, explained } = found;
    Ok(Message::Marked {
        item,
        rec,
        explained,
    })
}

// The record of a list, and where it fails what matters of its choices.
#[derive(Drop)]
struct Found {
    rec: Record,
    explained: Option<Explained>,
}

fn explain_list<C: Check>(alloc: Global, check: &C, list: &Choices) -> Result<Found, NoMemory>
    ensures found { IfOk result (λ found. IsExplained (C.step check.now) list.now found.rec found.explained) }
    ensures tellable { IfOk result (λ found. IfSome found.explained (λ e.
        (length e.marks ≡ length found.rec.choices) × All IsPrintable e.marks)) }
{
    let rec = replay(alloc, check, list)?;
    a_record_is_its_own(check);
    let explained = explain_failure(alloc, check, &rec)?;
    Ok(Found { rec, explained })
}

// What matters of a record that fails; of another nothing is asked.
fn explain_failure<C: Check>(
    alloc: Global,
    check: &C,
    rec: &Record,
) -> Result<Option<Explained>, NoMemory>
    requires own { IsRecord (C.step check.now) rec.now.choices rec.now }
    ensures there { IfOk result (λ explained. IsSome explained ↔ (is_failure rec.now.ending ≡ true)) }
    ensures marks { IfOk result (λ explained. IfSome explained (λ e. AreMarks (C.step check.now) rec.now e.marks)) }
    ensures together { IfOk result (λ explained. IfSome explained (λ e. AreTogether (C.step check.now) rec.now e.marks e.together)) }
{
    if !rec.ending.is_failure() {
        return Ok(None);
    }
    Ok(Some(explain(alloc, check, rec)?))
}
