ghost use Rattle.std.specs.Prelude.{◌≡◌, ◌⊎◌, IfOk, OnErr};
ghost use Rattle.std.specs.Process.{exit_status};
ghost use Rattle.pt_commands.specs.Message.{IsStatus};
ghost use Rattle.pt_run.specs.Suite.{HaveOwnNames};

use pt_case::Check;
use pt_choice::NoMemory;
use pt_commands::Finish;
use pt_real::{FolderDisk, RealFileSystem, RealFiles, StdSink, words};
use pt_run::top;
use std::env::Env;
use std::fs::File;
use std::io;
use std::process::ExitCode;
use std::rt::Files;
use std::thread::Threads;
use std::time::Clock;

/// The exit status where memory ran out.
pub const OUT_OF_MEMORY: u8 = 7;

// The folder of the database, below the current one.
const DATABASE: &str = "pt_examples";

/// All that a tester does with these checks, no two of which have one name: does what the words of its command line
/// ask for, with the files of the machine, the folder `pt_examples` below the current one and the standard output, and answers
/// the exit status.
pub fn tester<R: Env + Files<File = File> + Clock + Print + AllocGlobal + Threads + Sync, C: Check>(
    rt: &R,
    checks: &[C],
) -> ExitCode
    requires { HaveOwnNames C.name checks.now }
    ensures { IsStatus (exit_status result) ⊎ (exit_status result ≡ 7) }
{
    exit_code(over_the_machine(rt, checks))
}

fn over_the_machine<
    R: Env + Files<File = File> + Clock + Print + AllocGlobal + Threads + Sync,
    C: Check,
>(rt: &R, checks: &[C]) -> Result<Finish, NoMemory>
    requires { HaveOwnNames C.name checks.now }
    ensures { IfOk result (λ finish. IsStatus finish.status) }
{
    let words = words(rt)?;
    let mut files = RealFiles::of(rt);
    let mut disk = FolderDisk::of(RealFileSystem::of(rt), rt.alloc(), DATABASE)?;
    let mut sink = StdSink::of(io::writer(rt));
    top(
        rt,
        rt.alloc(),
        words.as_slice(),
        &mut files,
        &mut disk,
        &mut sink,
        checks,
    )
}

// The status of what was done, or the one that says that memory ran out.
fn exit_code(outcome: Result<Finish, NoMemory>) -> ExitCode
    ensures finished { IfOk outcome (λ finish. exit_status result ≡ finish.status) }
    ensures starved { OnErr outcome (exit_status result ≡ 7) }
{
    match outcome {
        Ok(finish) => ExitCode::from(finish.status),
        Err(NoMemory) => ExitCode::from(OUT_OF_MEMORY),
    }
}
