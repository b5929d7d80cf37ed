ghost use Rattle.std.specs.Prelude.{◌≡◌, ◌≤◌, map, length, option_map, IfOk, OnErr, Some};
ghost use Rattle.pt_choice.specs.Faults.{next_count};
ghost use Rattle.pt_io.specs.Files.{IsSame};
ghost use Rattle.pt_check.specs.Says.{fault_in};
ghost use Rattle.pt_report.specs.declared.refusal.Refusal.{Refusal};
ghost use Rattle.pt_run.specs.Suite.{ComesTo, IsLoaded, text_refusal, type_refusal};

use pt_ast::Typed;
use pt_case::Check;
use pt_check::{TypeFault, check_suite};
use pt_choice::NoMemory;
use pt_io::{Files, ReadStop, read_whole};
use pt_parse::{SuiteFault, read_suite};
use pt_report::{Refusal, Word};
use pt_val::Names;
use std::alloc::Global;

/// What came of loading a suite.
#[derive(Drop)]
pub enum Loaded {
    Taken(Typed),
    Refused(Refusal),
}

/// The suite of the file of this name: it is read whole, its text is read as a suite, and its names and types are checked where
/// the checks are handed in.
pub fn load<F: Files, C: Check>(
    alloc: Global,
    files: &mut F,
    file: &str,
    checks: &[C],
) -> Result<Loaded, NoMemory>
    ensures loaded { IfOk result (IsLoaded (map C.name checks.now) (F.shows files.old) (F.shows files.new) file.now) }
    ensures quiet { OnErr result ((F.shows files.new).faults ≡ (F.shows files.old).faults) }
    ensures same { IsSame (F.shows files.old) (F.shows files.new) }
    ensures once { (F.shows files.new).chosen ≡ next_count (F.shows files.old).chosen }
{
    let text = match read_whole(alloc, files, file) {
        Ok(text) => text,
        Err(ReadStop::Failed) => return Ok(Loaded::Refused(Refusal::Read)),
        Err(ReadStop::TooLarge) => return Ok(Loaded::Refused(Refusal::TooLarge)),
        Err(ReadStop::NoMemory) => return Err(NoMemory),
    };
    let known = names_of(alloc, checks)?;
    sealed(alloc, text.as_slice(), &known)
}

// The names of the checks, in order.
fn names_of<C: Check>(alloc: Global, checks: &[C]) -> Result<Names, NoMemory>
    ensures { IfOk result (λ names. names ≡ map C.name checks.now) }
{
    let mut names = Names::empty(alloc);
    for check in checks {
        names.push(check.name().copy()?)?;
    }
    Ok(names)
}

// What a text comes to, where checks of these names are handed in.
fn sealed(alloc: Global, text: &[u8], known: &Names) -> Result<Loaded, NoMemory>
    requires { length text.now ≤ 1048576 }
    ensures { IfOk result (ComesTo known.now text.now) }
{
    let suite = match read_suite(alloc, text) {
        Ok(suite) => suite,
        Err(fault) => return unread(fault),
    };
    match check_suite(alloc, suite, known) {
        Ok(typed) => Ok(Loaded::Taken(typed)),
        Err(fault) => untyped(fault),
    }
}

// What is said of a text's first fault.
fn unread(fault: SuiteFault) -> Result<Loaded, NoMemory>
    ensures { IfOk result (λ loaded. (said : Refusal) × (loaded ≡ Loaded.Refused said) × (text_refusal fault ≡ Some said)) }
{
    let (at, word) = match fault {
        SuiteFault::NotUtf8(at) => (at, Word::NotUtf8),
        SuiteFault::Syntax(at) => (at, Word::Syntax),
        SuiteFault::TooDeep(at) => (at, Word::TooDeep),
        SuiteFault::OutOfRange(at) => (at, Word::OutOfRange),
        SuiteFault::NoMemory => return Err(NoMemory),
    };
    Ok(Loaded::Refused(Refusal::Suite(at, word)))
}

// What is said of the first fault of names and types.
fn untyped(fault: TypeFault) -> Result<Loaded, NoMemory>
    ensures { IfOk result (λ loaded. (said : Refusal) × (loaded ≡ Loaded.Refused said) × (option_map type_refusal (fault_in fault) ≡ Some said)) }
{
    let (at, word) = match fault {
        TypeFault::Unknown(at) => (at, Word::Unknown),
        TypeFault::Twice(at) => (at, Word::Twice),
        TypeFault::Wrong(at) => (at, Word::Wrong),
        TypeFault::UnknownCheck(at) => (at, Word::UnknownCheck),
        TypeFault::NoMemory => return Err(NoMemory),
    };
    Ok(Loaded::Refused(Refusal::Suite(at, word)))
}
