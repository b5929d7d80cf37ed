ghost use Rattle.std.specs.Prelude.{◌≡◌, [], ◌∷◌, ◌++◌, length, IfOk, OnOk, OnErr};

use pt_choice::NoMemory;
use pt_val::{Name, Val};
use std::alloc::Global;
use std::marker::Model;

/// A value that a check shows under a name.
#[derive(Debug, Drop)]
pub struct Note {
    pub name: Name,
    pub val: Val,
}

impl Note {
    pub fn copy(&self) -> Result<Note, NoMemory>
        ensures { IfOk result (λ note. note ≡ self.now) }
    {
        let name = self.name.copy()?;
        let val = self.val.copy()?;
        Ok(Note { name, val })
    }
}

/// A list of notes.
#[derive(Debug, Drop)]
pub struct Notes {
    items: Vec<Note>,
}

impl Model for Notes {
    ghost use Rattle.std.specs.Prelude.{List};
    ghost use Rattle.std.specs.Coded.{codes};
    ghost use Rattle.pt_val.specs.contracts.val.Val as val;
    ghost use Rattle.pt_case.specs.declared.note.Note.{Note};

    ghost Value = { List Note };

    ghost coded = { Prim.hlevel (codes, val.the_row.coded) };

    ghost view = { λ notes. notes.items.items };
}

impl Notes {
    /// No notes.
    pub fn empty(alloc: Global) -> Notes
        ensures { result ≡ [] }
    {
        Notes {
            items: Vec::new(alloc),
        }
    }

    pub fn len(&self) -> usize
        ensures { result ≡ length self.now }
    {
        self.items.len()
    }

    pub fn as_slice(&self) -> &[Note]
        ensures { result.now ≡ self.now }
    {
        self.items.as_slice()
    }

    pub fn copy(&self) -> Result<Notes, NoMemory>
        ensures { IfOk result (λ notes. notes ≡ self.now) }
    {
        let mut items = Vec::new(*self.items.allocator());
        for note in &self.items {
            items.push(note.copy()?)?;
        }
        Ok(Notes { items })
    }

    pub fn push(&mut self, item: Note) -> Result<(), NoMemory>
        ensures ok { OnOk result (self.new ≡ self.old ++ item ∷ []) }
        ensures err { OnErr result (self.new ≡ self.old) }
    {
        self.items.push(item)?;
        Ok(())
    }
}
