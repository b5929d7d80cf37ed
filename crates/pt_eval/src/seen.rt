ghost use Rattle.std.specs.Prelude.{◌≡◌, IfOk};
ghost use Rattle.pt_eval.specs.Seen.{seen};

use pt_choice::NoMemory;
use pt_val::Val;

/// A value that may be only looked at: that of a name stays where it is, and is copied only where it is wanted whole.
#[derive(Drop)]
pub(crate) enum Seen<'a> {
    Lent(&'a Val),
    Made(Val),
}

impl Seen<'_> {
    pub(crate) fn val(&self) -> &Val
        ensures { result.now ≡ seen self.now }
    {
        match self {
            Seen::Lent(val) => val,
            Seen::Made(val) => val,
        }
    }

    /// The whole value.
    pub(crate) fn taken(self) -> Result<Val, NoMemory>
        ensures { IfOk result (λ val. val ≡ seen self.entry) }
    {
        match self {
            Seen::Lent(val) => val.copy(),
            Seen::Made(val) => Ok(val),
        }
    }
}
