ghost use Rattle.std.specs.Prelude.{◌≡◌};
ghost use Rattle.pt_explain.specs.Together.{is_free};

use pt_choice::{Choice, Seq};

/// What the replacements of one choice of a failure show.
#[derive(Debug, PartialEq, Eq, Drop)]
pub enum Mark {
    /// So many replacements count, and the failure stays alike with each.
    Free { tried: u32 },
    /// With this choice the failure is gone, or is another.
    Bound { by: Choice },
    /// No replacement counts, so nothing is known.
    Untried,
}

/// A list of marks.
pub type Marks = Seq<Mark>;

impl Mark {
    pub fn is_free(&self) -> bool
        ensures { result ≡ is_free self.now }
    {
        matches!(self, Mark::Free { .. })
    }
}
