ghost use Rattle.std.specs.Prelude.{◌≡◌};
ghost use Rattle.demo_lru.specs.Command.{command_of, drawn_val};

/// What a cache may be told.
#[derive(Clone, Copy, Debug)]
pub enum Command {
    /// To hold a value under a key.
    Put(i64, i64),
    /// To look a key up.
    Get(i64),
    /// To forget a key.
    Remove(i64),
}

/// A command as it is drawn: its sort, a key, and a value that only `Put` has a use for.
pub type Drawn = (i64, (i64, i64));

/// Sort 0 is `Put`, 1 is `Get`, and any other is `Remove`.
pub fn read(drawn: &Drawn) -> Command
    ensures { result ≡ command_of (drawn_val drawn.now) }
{
    let (sort, (key, value)) = *drawn;
    if sort == 0 {
        Command::Put(key, value)
    } else if sort == 1 {
        Command::Get(key)
    } else {
        Command::Remove(key)
    }
}
