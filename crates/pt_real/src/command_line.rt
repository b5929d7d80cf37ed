ghost use Rattle.std.specs.Prelude.{◌≡◌, drop, IfOk};
ghost use Rattle.std.specs.Vec.Iter.{into_iter_items};

use pt_choice::NoMemory;
use std::alloc::Global;
use std::env::{self, Args, Env};
use std::io::ErrorKind;

/// The words after the program's name. A word that is not UTF-8 makes the whole line no command, as no words do.
pub fn words<R: Env + AllocGlobal>(rt: &R) -> Result<Vec<String>, NoMemory> {
    match env::args(rt) {
        Ok(args) => after_the_name(rt.alloc(), args),
        Err(error) if error.kind() == ErrorKind::OutOfMemory => Err(NoMemory),
        Err(_) => Ok(Vec::new(rt.alloc())),
    }
}

// All of them but the first.
fn after_the_name(alloc: Global, args: Args) -> Result<Vec<String>, NoMemory>
    ensures { IfOk result (λ words. words.items ≡ drop 1 (into_iter_items args)) }
{
    let mut args = args;
    args.next();
    let mut words = Vec::new(alloc);
    for word in args {
        words.push(word)?;
    }
    Ok(words)
}
