ghost use Rattle.std.specs.Prelude.{◌≡◌, drop};
ghost use Rattle.pt_cand.specs.Candidates.{candidates_of};
ghost use Rattle.pt_cand.specs.Walk.{Hands};

use crate::step::find;
use crate::{Cursor, Pass};
use pt_case::Record;
use pt_choice::{Choices, NoMemory};
use std::alloc::Global;
use std::marker::Model;

/// The lists of one pass, made one at a time. Contracts see the lists that are still to come.
#[derive(Debug, Drop)]
pub struct Walk<'a> {
    best: &'a Record,
    pass: Pass,
    cursor: Cursor,
}

impl<'a> Model for Walk<'a> {
    ghost use Rattle.std.specs.Prelude.{List};
    ghost use Rattle.pt_choice.specs.declared.choice.Choice.{Choice};
    ghost use Rattle.pt_cand.specs.Left.{left_of};

    ghost Value = { List (List Choice) };

    ghost view = { λ walk. left_of walk.pass walk.best.now walk.cursor };
}

impl<'a> Walk<'a> {
    /// All lists of a pass. Takes no memory.
    pub fn of(best: &'a Record, pass: Pass) -> Walk<'a>
        ensures { result ≡ candidates_of pass best.now }
    {
        Walk {
            best,
            pass,
            cursor: Cursor::start(0),
        }
    }

    /// The next list, if there is one. Where memory runs out, the walk stays where it is.
    pub fn next_list(&mut self, alloc: Global) -> Result<Option<Choices>, NoMemory>
        ensures { Hands self.old result self.new }
    {
        match find(self.best, self.pass, self.cursor) {
            None => Ok(None),
            Some(found) => {
                let list = found.edit.make(alloc, self.best.choices.as_slice())?;
                self.cursor = found.next;
                Ok(Some(list))
            }
        }
    }

    /// Passes so many lists over. Takes no memory.
    pub fn skip(&mut self, count: u32)
        ensures { self.new ≡ drop count self.old }
    {
        for _ in 0..count {
            match find(self.best, self.pass, self.cursor) {
                None => return,
                Some(found) => self.cursor = found.next,
            }
        }
    }
}
