ghost use Rattle.std.specs.Prelude.{◌≡◌, [], ◌∷◌, ◌++◌, take, length, OnOk, OnErr};
ghost use Rattle.std.specs.Option.{option_copied};
ghost use Rattle.pt_eval.specs.Env.{bound, value_in, with_value};

use pt_ast::Binding;
use pt_choice::NoMemory;
use pt_val::{Name, Val};
use std::alloc::Global;
use std::marker::Model;

/// The names in scope with their values, the newest last.
#[derive(Debug, Drop)]
pub struct Env {
    items: Vec<Binding>,
}

impl Model for Env {
    ghost use Rattle.std.specs.Prelude.{List};
    ghost use Rattle.std.specs.Coded.{codes};
    ghost use Rattle.pt_val.specs.contracts.val.Val as val;
    ghost use Rattle.pt_ast.specs.declared.binding.Binding.{Binding};

    ghost Value = { List Binding };

    ghost coded = { Prim.hlevel (codes, val.the_row.coded) };

    ghost view = { λ env. env.items.items };
}

impl Env {
    /// No names.
    pub fn empty(alloc: Global) -> Env
        ensures { result ≡ [] }
    {
        Env {
            items: Vec::new(alloc),
        }
    }

    pub fn len(&self) -> usize
        ensures { result ≡ length self.now }
    {
        self.items.len()
    }

    pub fn as_slice(&self) -> &[Binding]
        ensures { result.now ≡ self.now }
    {
        self.items.as_slice()
    }

    /// Binds the name behind those that are there.
    pub fn bind(&mut self, name: Name, val: Val) -> Result<(), NoMemory>
        ensures ok { OnOk result (self.new ≡ self.old ++ bound name val ∷ []) }
        ensures err { OnErr result (self.new ≡ self.old) }
    {
        self.items.push(Binding { name, val })?;
        Ok(())
    }

    /// Keeps the oldest `len` names, and all of them where there are no more.
    pub fn cut(&mut self, len: usize)
        ensures { self.new ≡ take len self.old }
    {
        self.items.truncate(len);
    }

    /// Gives the newest binding of the name another value. Where the name is not there nothing changes.
    pub fn set(&mut self, name: &Name, val: Val)
        ensures { self.new ≡ with_value name.now val self.old }
    {
        let mut place = self.items.len();
        while place > 0 {
            place -= 1;
            if *name == self.items[place].name {
                self.items[place].val = val;
                return;
            }
        }
    }

    /// Keeps the oldest `len` names, and binds the name behind them.
    ///
    /// What stood there makes way. Where it bore the same name, as the name of an `each` does from member to
    /// member, the name is not copied again.
    pub(crate) fn rebind(&mut self, len: usize, name: &Name, val: Val) -> Result<(), NoMemory>
        ensures ok { OnOk result (self.new ≡ take len self.old ++ bound name.now val ∷ []) }
        ensures err { OnErr result (self.new ≡ take len self.old) }
    {
        if len < self.items.len() && self.items[len].name == *name {
            self.items[len].val = val;
            self.items.truncate(len + 1);
            return Ok(());
        }
        self.items.truncate(len);
        self.bind(name.copy()?, val)
    }
}

/// The newest value of the name.
pub(crate) fn newest<'a>(name: &Name, bindings: &'a [Binding]) -> Option<&'a Val>
    ensures { option_copied result ≡ value_in name.now bindings.now }
{
    let mut place = bindings.len();
    while place > 0 {
        place -= 1;
        if bindings[place].name == *name {
            return Some(&bindings[place].val);
        }
    }
    None
}
