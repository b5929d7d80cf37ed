ghost use Rattle.std.specs.Prelude.{◌≡◌, OnOk};
ghost use Rattle.pt_typing.specs.Steps.{right};
ghost use Rattle.pt_typing.specs.Served.{bound_type, left_side, takes_one, given_alone, second_needed};
ghost use Rattle.pt_check.specs.Known.{top, replaced, gathered, given_known};
ghost use Rattle.pt_check.specs.Says.{Says};

use crate::TypeFault;
use crate::base::Base;
use crate::checker::Checker;
use pt_ast::{Binder, CompareOp, Func};
use pt_choice::NoMemory;
use pt_val::Place;

/// Whether the function takes one value, and not two.
pub(crate) fn takes_one(func: Func) -> bool
    ensures { result ≡ takes_one func }
{
    !matches!(func, Func::Has | Func::Cat | Func::Node)
}

/// Holds what a function gives for a value of the newest type, which stands at the place.
pub(crate) fn give_alone(func: Func, at: Place, checker: &mut Checker) -> Result<(), TypeFault>
    ensures says { Says (right at (given_alone func (top checker.old))) (top checker.new) result }
    ensures holds { OnOk result (checker.new ≡ replaced checker.old (top checker.new)) }
{
    match func {
        Func::Len => {
            checker.be_sequence(at)?;
            checker.release();
            checker.hold(Base::Int)?;
            Ok(())
        }
        Func::Sum => {
            checker.take_member(at)?;
            checker.turn(Base::Int, Base::Int, at)?;
            Ok(())
        }
        Func::Rev => {
            checker.be_sequence(at)?;
            Ok(())
        }
        Func::Leaf => {
            checker.turn(Base::Int, Base::Tree, at)?;
            Ok(())
        }
        Func::Label => {
            checker.turn(Base::Tree, Base::Int, at)?;
            Ok(())
        }
        Func::Kids => {
            checker.turn(Base::Tree, Base::Tree, at)?;
            checker.make_list()?;
            Ok(())
        }
        Func::Labels => {
            checker.turn(Base::Tree, Base::Int, at)?;
            checker.make_list()?;
            Ok(())
        }
        Func::Has | Func::Cat | Func::Node => Err(TypeFault::Wrong(at)),
    }
}

/// Holds the type that the second value of a function has to have in place of that of its first, which stands at the place.
pub(crate) fn need_second(func: Func, at: Place, checker: &mut Checker) -> Result<(), TypeFault>
    ensures says { Says (right at (second_needed func (top checker.old))) (top checker.new) result }
    ensures holds { OnOk result (checker.new ≡ replaced checker.old (top checker.new)) }
{
    match func {
        Func::Has => {
            checker.take_member(at)?;
            Ok(())
        }
        Func::Cat => {
            checker.be_sequence(at)?;
            Ok(())
        }
        Func::Node => {
            checker.turn(Base::Int, Base::Tree, at)?;
            checker.make_list()?;
            Ok(())
        }
        Func::Len | Func::Sum | Func::Rev | Func::Leaf | Func::Label | Func::Kids | Func::Labels =>
            Err(TypeFault::Wrong(at)),
    }
}

/// Holds what a function gives for two values in place of the type of the second.
pub(crate) fn give_both(func: Func, checker: &mut Checker) -> Result<(), NoMemory>
    ensures { OnOk result (checker.new ≡ given_known func checker.old) }
{
    match func {
        Func::Has => {
            checker.release();
            checker.hold(Base::Bool)
        }
        Func::Node => {
            checker.release();
            checker.hold(Base::Tree)
        }
        _ => Ok(()),
    }
}

/// Holds what a binder makes of items of the newest type, which stand at the place.
pub(crate) fn make_bound(binder: Binder, at: Place, checker: &mut Checker) -> Result<(), TypeFault>
    ensures says { Says (right at (bound_type binder (top checker.old))) (top checker.new) result }
    ensures holds { OnOk result (checker.new ≡ replaced checker.old (top checker.new)) }
{
    match binder {
        Binder::All | Binder::Any => {
            checker.turn(Base::Bool, Base::Bool, at)?;
            Ok(())
        }
        Binder::Each => {
            checker.make_list()?;
            Ok(())
        }
    }
}

/// The newest type, which stands at the place, has to serve as the left side of a comparison.
pub(crate) fn be_side(op: CompareOp, at: Place, checker: &Checker) -> Result<(), TypeFault>
    ensures { Says (right at (left_side op (top checker.now))) (top checker.now) result }
{
    match op {
        CompareOp::Eq => Ok(()),
        CompareOp::Ne => Ok(()),
        CompareOp::Lt => checker.be_int(at),
        CompareOp::Le => checker.be_int(at),
        CompareOp::Gt => checker.be_int(at),
        CompareOp::Ge => checker.be_int(at),
    }
}

/// Holds the type of a tuple of so many parts in place of theirs, the newest of which is the last.
pub(crate) fn make_tuple(parts: usize, checker: &mut Checker) -> Result<(), NoMemory>
    ensures { OnOk result (checker.new ≡ gathered parts checker.old) }
{
    checker.hold_empty()?;
    let mut left = parts;
    while left > 0 {
        checker.join()?;
        left -= 1;
    }
    Ok(())
}
