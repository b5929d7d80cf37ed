ghost use Rattle.std.specs.Prelude.{◌≡◌, [], ◌∷◌, OnOk, OnErr};
ghost use Rattle.pt_check.specs.Stacks.{newest, behind, first_of};

use pt_choice::NoMemory;
use std::alloc::Global;
use std::marker::Model;

/// Numbers of types, the newest first. Where there are none, the newest is 0.
#[derive(Drop)]
pub(crate) struct Stack {
    numbers: Vec<usize>,
}

impl Model for Stack {
    ghost use Rattle.std.specs.Prelude.{List, ℕ, reverse};

    ghost Value = { List ℕ };

    ghost view = { λ stack. reverse stack.numbers.items };
}

impl Stack {
    pub(crate) fn empty(alloc: Global) -> Stack
        ensures { result ≡ [] }
    {
        Stack {
            numbers: Vec::new(alloc),
        }
    }

    pub(crate) fn push(&mut self, number: usize) -> Result<(), NoMemory>
        ensures ok { OnOk result (self.new ≡ number ∷ self.old) }
        ensures err { OnErr result (self.new ≡ self.old) }
    {
        self.numbers.push(number)?;
        Ok(())
    }

    pub(crate) fn first(&self) -> Option<usize>
        ensures { result ≡ first_of self.now }
    {
        self.numbers.last().copied()
    }

    pub(crate) fn newest(&self) -> usize
        ensures { result ≡ newest 0 self.now }
    {
        self.numbers.last().copied().unwrap_or(0)
    }

    pub(crate) fn pop(&mut self) -> usize
        ensures newest { result ≡ newest 0 self.old }
        ensures rest { self.new ≡ behind self.old }
    {
        self.numbers.pop().unwrap_or(0)
    }
}
