ghost use Rattle.std.specs.Prelude.{◌≡◌, ◌≢◌, ◌≤◌, ◌<◌, ◌^◌, ℕ, List, length, IfOk, IfSome, IfNone, Some};
ghost use Rattle.std.specs.Fmt.{decimal};
ghost use Rattle.pt_choice.specs.declared.choice.Choice.{Choice};
ghost use Rattle.pt_wire.specs.Printed.{Printed};
ghost use Rattle.pt_commands.specs.Command.{asked_by};
ghost use Rattle.pt_commands.specs.Words.{Asks, AskNothing, AsksRun, AsksReplay, AsksStored, AsksMake, AsksExplain};

use pt_choice::{Choices, NoMemory};
use pt_wire::{MAX_PRINTED, WireFault, read_choices, short_text};
use std::alloc::Global;

// The most workers of a run.
const MAX_WORKERS: u64 = 16;

// The most items of a suite that is made.
const MAX_MADE: u64 = 200;

/// What the words of a command line ask for.
#[derive(Drop)]
pub enum Command<'a> {
    /// Every item of the suite is examined.
    Run {
        suite: &'a str,
        seed: u64,
        workers: u32,
    },
    /// The list is replayed on one item of the suite.
    Replay {
        suite: &'a str,
        item: &'a str,
        list: Choices,
    },
    /// What the database holds is listed.
    Stored,
    /// The suite of so many items that is made of the seed is examined.
    Make {
        seed: u64,
        count: u32,
    },
    /// The choices of the list are marked on one item of the suite.
    Explain {
        suite: &'a str,
        item: &'a str,
        list: Choices,
    },
}

/// The command that the words ask for.
pub fn read_command<'a>(alloc: Global, words: &'a [String]) -> Result<Option<Command<'a>>, NoMemory>
    ensures asks { IfOk result (λ command. IfSome command (λ c. Asks words.now (asked_by c))) }
    ensures none { IfOk result (λ command. IfNone command (AskNothing words.now)) }
{
    if let Some(command) = read_run(alloc, words)? {
        return Ok(Some(command));
    }
    if let Some(command) = read_replay(alloc, words)? {
        return Ok(Some(command));
    }
    if let Some(command) = read_make(alloc, words)? {
        return Ok(Some(command));
    }
    if let Some(command) = read_explain(alloc, words)? {
        return Ok(Some(command));
    }
    Ok(read_stored(words))
}

fn read_run<'a>(alloc: Global, words: &'a [String]) -> Result<Option<Command<'a>>, NoMemory>
    ensures asks { IfOk result (λ command. IfSome command (λ c. Asks words.now (asked_by c))) }
    ensures none { IfOk result (λ command. IfNone command ((suite : List ℕ) (seed workers : ℕ) → AsksRun words.now suite seed workers → ⊥)) }
{
    let [run, suite, seed, workers] = words else {
        return Ok(None);
    };
    if run.as_str() != "run" {
        return Ok(None);
    }
    let Some(seed) = number(alloc, seed.as_str(), 0, u64::MAX)? else {
        return Ok(None);
    };
    let Some(workers) = number(alloc, workers.as_str(), 1, MAX_WORKERS)? else {
        return Ok(None);
    };
    let suite = suite.as_str();
    let workers = workers as u32;
    Ok(Some(Command::Run {
        suite,
        seed,
        workers,
    }))
}

fn read_replay<'a>(alloc: Global, words: &'a [String]) -> Result<Option<Command<'a>>, NoMemory>
    ensures asks { IfOk result (λ command. IfSome command (λ c. Asks words.now (asked_by c))) }
    ensures none { IfOk result (λ command. IfNone command ((suite item : List ℕ) (list : List Choice) → AsksReplay words.now suite item list → ⊥)) }
{
    let [replay, suite, item, choices] = words else {
        return Ok(None);
    };
    if replay.as_str() != "replay" {
        return Ok(None);
    }
    let Some(list) = spelled_list(alloc, choices.as_str())? else {
        return Ok(None);
    };
    let suite = suite.as_str();
    let item = item.as_str();
    Ok(Some(Command::Replay { suite, item, list }))
}

fn read_make<'a>(alloc: Global, words: &'a [String]) -> Result<Option<Command<'a>>, NoMemory>
    ensures asks { IfOk result (λ command. IfSome command (λ c. Asks words.now (asked_by c))) }
    ensures none { IfOk result (λ command. IfNone command ((seed count : ℕ) → AsksMake words.now seed count → ⊥)) }
{
    let [make, seed, count] = words else {
        return Ok(None);
    };
    if make.as_str() != "make" {
        return Ok(None);
    }
    let Some(seed) = number(alloc, seed.as_str(), 0, u64::MAX)? else {
        return Ok(None);
    };
    let Some(count) = number(alloc, count.as_str(), 1, MAX_MADE)? else {
        return Ok(None);
    };
    let count = count as u32;
    Ok(Some(Command::Make { seed, count }))
}

fn read_explain<'a>(alloc: Global, words: &'a [String]) -> Result<Option<Command<'a>>, NoMemory>
    ensures asks { IfOk result (λ command. IfSome command (λ c. Asks words.now (asked_by c))) }
    ensures none { IfOk result (λ command. IfNone command ((suite item : List ℕ) (list : List Choice) → AsksExplain words.now suite item list → ⊥)) }
{
    let [explain, suite, item, choices] = words else {
        return Ok(None);
    };
    if explain.as_str() != "explain" {
        return Ok(None);
    }
    let Some(list) = spelled_list(alloc, choices.as_str())? else {
        return Ok(None);
    };
    let suite = suite.as_str();
    let item = item.as_str();
    Ok(Some(Command::Explain { suite, item, list }))
}

fn read_stored<'a>(words: &'a [String]) -> Option<Command<'a>>
    ensures asks { IfSome result (λ c. Asks words.now (asked_by c)) }
    ensures none { IfNone result (AsksStored words.now → ⊥) }
{
    let [stored] = words else {
        return None;
    };
    if stored.as_str() != "stored" {
        return None;
    }
    Some(Command::Stored)
}

// The list of at most 256 choices that a word spells.
fn spelled_list(alloc: Global, word: &str) -> Result<Option<Choices>, NoMemory>
    ensures list { IfOk result (λ found. IfSome found (λ list. Printed list word.now)) }
    ensures few { IfOk result (λ found. IfSome found (λ list. length list ≤ 256)) }
    ensures none { IfOk result (λ found. IfNone found ((list : List Choice) → Printed list word.now → length list ≤ 256 → ⊥)) }
{
    short_text();
    if word.len() > MAX_PRINTED {
        return Ok(None);
    }
    match read_choices(alloc, word.as_bytes()) {
        Ok(list) => Ok(Some(list)),
        Err(WireFault::NoMemory) => Err(NoMemory),
        Err(WireFault::TooLong | WireFault::NotSpelling { .. }) => Ok(None),
    }
}

/// The number from `least` to `most` that a text is in decimal, with no sign and no leading zero.
pub fn number(alloc: Global, text: &str, least: u64, most: u64) -> Result<Option<u64>, NoMemory>
    ensures value { IfOk result (λ found. IfSome found (λ n. text.now ≡ decimal n)) }
    ensures within { IfOk result (λ found. IfSome found (λ n. (least ≤ n) × (n ≤ most))) }
    ensures none { IfOk result (λ found. IfNone found ((n : ℕ) → least ≤ n → n ≤ most → text.now ≢ decimal n)) }
{
    let Some(n) = parsed(text) else {
        return Ok(None);
    };
    if n < least || n > most {
        return Ok(None);
    }
    let printed = n.to_string(alloc)?;
    if printed.as_str() == text {
        Ok(Some(n))
    } else {
        Ok(None)
    }
}

// The only number that the text may be in decimal.
fn parsed(text: &str) -> Option<u64>
    ensures { (n : ℕ) → n < 2 ^ 64 → text.now ≡ decimal n → result ≡ Some n }
{
    match text.parse::<u64>() {
        Ok(n) => Some(n),
        Err(_) => None,
    }
}
