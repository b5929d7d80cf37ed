ghost use Rattle.std.specs.Prelude.{◌≡◌, ◌<◌, ◌∷◌, take, length, option_map, IfOk, IfSome, OnOk};
ghost use Rattle.pt_ast.specs.Types.{Int_type, List_type, Tuple_type, no_type};
ghost use Rattle.pt_ast.specs.Names.{IsFree, type_in, with_name};
ghost use Rattle.pt_ast.specs.Typing.{part_type};
ghost use Rattle.pt_typing.specs.Steps.{after, known, right, vacant};
ghost use Rattle.pt_typing.specs.SuiteChecks.{target_of};
ghost use Rattle.pt_types.specs.Kept.{type_of, types_under};
ghost use Rattle.pt_typing.specs.Served.{if_same, list_member, index_member, tuple_types, part_at, of_sequence};
ghost use Rattle.pt_typing.specs.Serving.{IsTuple};
ghost use Rattle.pt_typing.specs.ExprChecks.{free};
ghost use Rattle.pt_check.specs.Stacks.{behind, first_of};
ghost use Rattle.pt_check.specs.Known.{nothing, with_scope, with_selves, top, holding, released, replaced, binding, joined, with_target, with_states, with_bundles};
ghost use Rattle.pt_check.specs.Bases.{base_type, is_tuple_shape};
ghost use Rattle.pt_check.specs.Says.{Says, fits};

use crate::TypeFault;
use crate::base::Base;
use crate::stack::Stack;
use crate::table::Table;
use pt_ast::Ident;
use pt_choice::NoMemory;
use pt_types::{Shape, Types};
use pt_val::{Name, Place};
use std::alloc::Global;
use std::marker::Model;

/// The number of the empty tuple's type.
const EMPTY: usize = 5;

/// What is known at a place of a suite: the names in scope, what stands around the place, and the types that were found
/// and are still needed, the newest on top. Each type is kept once, and all else refers to it by its number.
#[derive(Drop)]
pub(crate) struct Checker<'a> {
    types: Types,
    states: Table<'a>,
    bundles: Table<'a>,
    target: Option<usize>,
    scope: Table<'a>,
    selves: Stack,
    held: Stack,
}

impl<'a> Model for Checker<'a> {
    ghost use Rattle.pt_check.specs.Known.{Known};
    ghost use Rattle.pt_check.specs.Codes.{known_code};
    ghost use Rattle.pt_check.specs.Numbers.{known_of, AreKnown};

    ghost Value = { Known };

    ghost coded = { known_code };

    ghost view = { λ c. known_of c.types c.states c.bundles c.target c.scope c.selves c.held };

    ghost invariant = { λ c. AreKnown c.types c.states c.bundles c.target c.scope c.selves c.held };
}

impl<'a> Checker<'a> {
    /// Nothing is known.
    pub(crate) fn new(alloc: Global) -> Result<Checker<'a>, NoMemory>
        ensures { IfOk result (λ checker. checker ≡ nothing) }
    {
        let types = Types::base(alloc)?;
        Ok(Checker {
            types,
            states: Table::empty(alloc),
            bundles: Table::empty(alloc),
            target: None,
            scope: Table::empty(alloc),
            selves: Stack::empty(alloc),
            held: Stack::empty(alloc),
        })
    }

    /// Holds the type.
    pub(crate) fn hold(&mut self, base: Base) -> Result<(), NoMemory>
        ensures { OnOk result (self.new ≡ holding self.old (base_type base)) }
    {
        self.held.push(base.number())?;
        Ok(())
    }

    /// Holds the newest type once more.
    pub(crate) fn hold_again(&mut self) -> Result<(), NoMemory>
        ensures { OnOk result (self.new ≡ holding self.old (top self.old)) }
    {
        self.held.push(self.held.newest())?;
        Ok(())
    }

    /// Holds the newest type no more.
    pub(crate) fn release(&mut self)
        ensures { self.new ≡ released self.old }
    {
        self.held.pop();
    }

    /// Holds the type of lists in place of that of their members.
    pub(crate) fn make_list(&mut self) -> Result<(), NoMemory>
        ensures { OnOk result (self.new ≡ replaced self.old (List_type (top self.old))) }
    {
        let member = self.held.pop();
        let list = self.types.list_of(member)?;
        self.held.push(list)?;
        Ok(())
    }

    /// Holds the type of the members in place of that of a list, which stands at the place.
    pub(crate) fn take_member(&mut self, at: Place) -> Result<(), TypeFault>
        ensures says { Says (right at (list_member (top self.old))) (top self.new) result }
        ensures holds { OnOk result (self.new ≡ replaced self.old (top self.new)) }
    {
        let found = self.held.pop();
        match self.types.shape(found) {
            Shape::List(member) => {
                self.held.push(member)?;
                Ok(())
            }
            _ => Err(TypeFault::Wrong(at)),
        }
    }

    /// The newest type has to be the one behind it, and is held no more.
    pub(crate) fn fit(&mut self, at: Place) -> Result<(), TypeFault>
        ensures says { Says (fits at (top self.old) (top (released self.old))) tt result }
        ensures holds { OnOk result (self.new ≡ released self.old) }
    {
        let found = self.held.pop();
        if !self.types.same(found, self.held.newest()) {
            return Err(TypeFault::Wrong(at));
        }
        Ok(())
    }

    /// The newest type has to be of the one kind, and that of the other is held in its place.
    pub(crate) fn turn(&mut self, from: Base, to: Base, at: Place) -> Result<(), TypeFault>
        ensures says { Says (right at (if_same (top self.old) (base_type from) (base_type to))) (base_type to) result }
        ensures holds { OnOk result (self.new ≡ replaced self.old (base_type to)) }
    {
        let found = self.held.pop();
        if self.types.same(found, from.number()) {
            self.held.push(to.number())?;
            Ok(())
        } else {
            Err(TypeFault::Wrong(at))
        }
    }

    /// The newest type has to be that of integers.
    pub(crate) fn be_int(&self, at: Place) -> Result<(), TypeFault>
        ensures { Says (right at (if_same (top self.now) Int_type (top self.now))) (top self.now) result }
    {
        if !self.types.same(self.held.newest(), Base::Int.number()) {
            return Err(TypeFault::Wrong(at));
        }
        Ok(())
    }

    /// The newest type has to be that of texts, of bytes or of lists.
    pub(crate) fn be_sequence(&self, at: Place) -> Result<(), TypeFault>
        ensures { Says (right at (of_sequence (top self.now) (top self.now))) (top self.now) result }
    {
        match self.types.shape(self.held.newest()) {
            Shape::Text => Ok(()),
            Shape::Bytes => Ok(()),
            Shape::List(_) => Ok(()),
            _ => Err(TypeFault::Wrong(at)),
        }
    }

    /// Holds the type of what an index takes in place of that of what it is taken of, which stands at the place.
    pub(crate) fn take_indexed(&mut self, at: Place) -> Result<(), TypeFault>
        ensures says { Says (right at (index_member (top self.old))) (top self.new) result }
        ensures holds { OnOk result (self.new ≡ replaced self.old (top self.new)) }
    {
        let found = self.held.pop();
        match self.types.shape(found) {
            Shape::List(member) => {
                self.held.push(member)?;
                Ok(())
            }
            Shape::Bytes => {
                self.held.push(Base::Int.number())?;
                Ok(())
            }
            _ => Err(TypeFault::Wrong(at)),
        }
    }

    /// Holds the type of the name, which stands at the place.
    pub(crate) fn hold_variable(&mut self, at: Place, name: &Name) -> Result<(), TypeFault>
        ensures says { Says (known at (type_in name.now self.old.scope)) (top self.new) result }
        ensures holds { OnOk result (self.new ≡ holding self.old (top self.new)) }
    {
        match self.scope.find(name) {
            Some(number) => {
                self.held.push(number)?;
                Ok(())
            }
            None => Err(TypeFault::Unknown(at)),
        }
    }

    /// No name in scope may be this one.
    pub(crate) fn free(&self, given: &Ident) -> Result<(), TypeFault>
        ensures { Says (free self.now.scope given.now) tt result }
    {
        match self.scope.find(&given.name) {
            Some(_) => Err(TypeFault::Twice(given.at)),
            None => Ok(()),
        }
    }

    /// How many names are in scope.
    pub(crate) fn names(&self) -> usize
        ensures { result ≡ length self.now.scope }
    {
        self.scope.len()
    }

    /// Gives the newest type to a name, and holds it no more.
    pub(crate) fn bind(&mut self, given: &'a Ident) -> Result<(), NoMemory>
        requires { IsFree self.old.scope given.now }
        ensures { OnOk result (self.new ≡ binding self.old given.now) }
    {
        let number = self.held.pop();
        self.scope.enter(&given.name, number)?;
        Ok(())
    }

    /// Keeps the oldest names in scope.
    pub(crate) fn cut(&mut self, len: usize)
        ensures { self.new ≡ with_scope self.old (take len self.old.scope) }
    {
        self.scope.cut(len);
    }

    /// Holds the type of the empty tuple, of which no value is.
    pub(crate) fn hold_empty(&mut self) -> Result<(), NoMemory>
        ensures { OnOk result (self.new ≡ holding self.old (Tuple_type no_type)) }
    {
        self.held.push(EMPTY)?;
        Ok(())
    }

    /// Puts a part of the type behind the newest before the parts of a tuple, and holds the longer tuple's type in place of both.
    pub(crate) fn join(&mut self) -> Result<(), NoMemory>
        requires { IsTuple (top self.old) }
        ensures { OnOk result (self.new ≡ joined self.old) }
    {
        let behind = self.held.pop();
        let first = self.held.pop();
        let tuple = self.types.tuple_of(first, behind)?;
        self.held.push(tuple)?;
        Ok(())
    }

    /// `self` stands for the newest type.
    pub(crate) fn deepen(&mut self) -> Result<(), NoMemory>
        ensures { OnOk result (self.new ≡ with_selves self.old (top self.old ∷ self.old.selves)) }
    {
        self.selves.push(self.held.newest())?;
        Ok(())
    }

    /// `self` stands for what it stood for before.
    pub(crate) fn rise(&mut self)
        ensures { self.new ≡ with_selves self.old (behind self.old.selves) }
    {
        self.selves.pop();
    }

    /// Holds what `self` stands for, which stands at the place.
    pub(crate) fn hold_self(&mut self, at: Place) -> Result<(), TypeFault>
        ensures says { Says (known at (first_of self.old.selves)) (top self.new) result }
        ensures holds { OnOk result (self.new ≡ holding self.old (top self.new)) }
    {
        match self.selves.first() {
            Some(number) => {
                self.held.push(number)?;
                Ok(())
            }
            None => Err(TypeFault::Unknown(at)),
        }
    }

    /// Holds the type of a state of the machine.
    pub(crate) fn hold_state(&mut self, state: &Ident) -> Result<(), TypeFault>
        ensures says { Says (known state.now.at (type_in state.now.name self.old.context.states)) (top self.new) result }
        ensures holds { OnOk result (self.new ≡ holding self.old (top self.new)) }
    {
        match self.states.find(&state.name) {
            Some(number) => {
                self.held.push(number)?;
                Ok(())
            }
            None => Err(TypeFault::Unknown(state.at)),
        }
    }

    /// Holds the type of the entries of a bundle of the machine.
    pub(crate) fn hold_bundle(&mut self, bundle: &Ident) -> Result<(), TypeFault>
        ensures says { Says (known bundle.now.at (type_in bundle.now.name self.old.context.bundles)) (top self.new) result }
        ensures holds { OnOk result (self.new ≡ holding self.old (top self.new)) }
    {
        match self.bundles.find(&bundle.name) {
            Some(number) => {
                self.held.push(number)?;
                Ok(())
            }
            None => Err(TypeFault::Unknown(bundle.at)),
        }
    }

    /// Holds the type of the bundle that the rule gives into.
    pub(crate) fn hold_target(&mut self, at: Place) -> Result<(), TypeFault>
        ensures says { Says (right at self.old.context.target) (top self.new) result }
        ensures holds { OnOk result (self.new ≡ holding self.old (top self.new)) }
    {
        match self.target {
            Some(number) => {
                self.held.push(number)?;
                Ok(())
            }
            None => Err(TypeFault::Wrong(at)),
        }
    }

    /// The rule gives into this bundle, if it names one.
    pub(crate) fn aim(&mut self, into: &Option<Ident>) -> Result<(), TypeFault>
        ensures says { Says (target_of self.old.context.bundles into.now) self.new.context.target result }
        ensures aims { OnOk result (self.new ≡ with_target self.old self.new.context.target) }
    {
        match into {
            None => {
                self.target = None;
                Ok(())
            }
            Some(bundle) => match self.bundles.find(&bundle.name) {
                Some(number) => {
                    self.target = Some(number);
                    Ok(())
                }
                None => Err(TypeFault::Unknown(bundle.at)),
            },
        }
    }

    /// Gives the newest type to a state, where the states alone are in scope, and holds it no more.
    pub(crate) fn declare(&mut self, given: &'a Ident) -> Result<(), NoMemory>
        requires scope { IsFree self.old.scope given.now }
        requires states { IsFree self.old.context.states given.now }
        ensures { OnOk result (self.new ≡ with_states (binding self.old given.now) (with_name self.old.context.states given.now (top self.old))) }
    {
        let number = self.held.pop();
        self.scope.enter(&given.name, number)?;
        self.states.enter(&given.name, number)?;
        Ok(())
    }

    /// One more bundle, whose entries are of the newest type, which is held no more.
    pub(crate) fn add_bundle(&mut self, given: &'a Ident) -> Result<(), TypeFault>
        ensures says { Says (vacant given.now.at (type_in given.now.name self.old.context.bundles)) tt result }
        ensures adds { OnOk result (self.new ≡ with_bundles (released self.old) (with_name self.old.context.bundles given.now (top self.old))) }
    {
        match self.bundles.find(&given.name) {
            Some(_) => Err(TypeFault::Twice(given.at)),
            None => {
                let number = self.held.pop();
                self.bundles.enter(&given.name, number)?;
                Ok(())
            }
        }
    }

    /// Holds the type of a tuple's part in place of the tuple's. The tuple begins at the one place, and the part's number stands at the other.
    pub(crate) fn take_part(&mut self, at: Place, place: Place, part: i64) -> Result<(), TypeFault>
        ensures says { Says (after (right at (tuple_types (top self.old))) (λ types. right place (part_at part types))) (top self.new) result }
        ensures holds { OnOk result (self.new ≡ replaced self.old (top self.new)) }
    {
        let found = self.held.pop();
        if !is_tuple(self.types.shape(found)) {
            return Err(TypeFault::Wrong(at));
        }
        match part_of(&self.types, found, part) {
            Some(member) => {
                self.held.push(member)?;
                Ok(())
            }
            None => Err(TypeFault::Wrong(place)),
        }
    }
}

/// Whether the shape is a tuple's.
fn is_tuple(shape: Shape) -> bool
    ensures { result ≡ is_tuple_shape shape }
{
    matches!(shape, Shape::Empty | Shape::Tuple(_, _))
}

/// The number of the type of a tuple's part, counted from 0.
fn part_of(types: &Types, tuple: usize, part: i64) -> Option<usize>
    requires { tuple < length types.now }
    ensures part { option_map (type_of types.now) result ≡ part_at part (types_under (type_of types.now tuple)) }
    ensures within { IfSome result (λ number. number < length types.now) }
{
    match usize::try_from(part) {
        Ok(place) => part_at(types, tuple, place),
        Err(_) => None,
    }
}

fn part_at(types: &Types, tuple: usize, place: usize) -> Option<usize>
    requires { tuple < length types.now }
    ensures part { option_map (type_of types.now) result ≡ part_type place (types_under (type_of types.now tuple)) }
    ensures within { IfSome result (λ number. number < length types.now) }
{
    let mut behind = tuple;
    let mut left = place;
    while left > 0 {
        match types.shape(behind) {
            Shape::Tuple(_, others) => behind = others,
            _ => return None,
        }
        left -= 1;
    }
    match types.shape(behind) {
        Shape::Tuple(first, _) => Some(first),
        _ => None,
    }
}
