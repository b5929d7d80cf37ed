ghost use Rattle.std.specs.Prelude.{◌≡◌, IfOk};

use pt_choice::{NoMemory, Octets, Seq};
use pt_val::{Chars, Val};
use std::alloc::Global;

/// What a strategy may draw: a value of Rust that is shown as one of the suite language. Two that are shown the same count as one.
pub trait ToVal: Drop + Sized {
    ghost use Rattle.pt_val.specs.declared.val.Val.{Val};

    /// The value as it is shown.
    ghost val: { Self → Val };

    fn to_val(&self, alloc: Global) -> Result<Val, NoMemory>
        ensures { IfOk result (λ value. value ≡ val self.now) };

    /// A value that is shown the same.
    fn copy(&self, alloc: Global) -> Result<Self, NoMemory>
        ensures { IfOk result (λ other. val other ≡ val self.now) };
}

impl ToVal for i64 {
    ghost use Rattle.pt_val.specs.declared.val.Val.TheVariants.{Int};

    ghost val = { λ number. Int number };

    fn to_val(&self, _: Global) -> Result<Val, NoMemory> {
        Ok(Val::Int(*self))
    }

    fn copy(&self, _: Global) -> Result<i64, NoMemory> {
        Ok(*self)
    }
}

impl ToVal for bool {
    ghost use Rattle.pt_val.specs.declared.val.Val.TheVariants.{Bool};

    ghost val = { λ truth. Bool truth };

    fn to_val(&self, _: Global) -> Result<Val, NoMemory> {
        Ok(Val::Bool(*self))
    }

    fn copy(&self, _: Global) -> Result<bool, NoMemory> {
        Ok(*self)
    }
}

impl ToVal for Chars {
    ghost use Rattle.pt_val.specs.declared.val.Val.TheVariants.{Text};

    ghost val = { λ chars. Text chars };

    fn to_val(&self, _: Global) -> Result<Val, NoMemory> {
        Ok(Val::Text(self.copy()?))
    }

    fn copy(&self, _: Global) -> Result<Chars, NoMemory> {
        self.copy()
    }
}

impl ToVal for Octets {
    ghost use Rattle.pt_val.specs.declared.val.Val.TheVariants.{Bytes};

    ghost val = { λ bytes. Bytes bytes };

    fn to_val(&self, _: Global) -> Result<Val, NoMemory> {
        Ok(Val::Bytes(self.copy()?))
    }

    fn copy(&self, _: Global) -> Result<Octets, NoMemory> {
        self.copy()
    }
}

impl<T: ToVal> ToVal for Vec<T> {
    ghost use Rattle.std.specs.Prelude.{map};
    ghost use Rattle.pt_val.specs.declared.val.Val.TheVariants.{List};

    ghost val = { λ items. List (map T.val items.items) };

    fn to_val(&self, alloc: Global) -> Result<Val, NoMemory> {
        let mut members = Seq::empty(alloc);
        for item in self {
            members.push(item.to_val(alloc)?)?;
        }
        Ok(Val::List(members))
    }

    fn copy(&self, alloc: Global) -> Result<Vec<T>, NoMemory> {
        let mut copies = Vec::new(alloc);
        for item in self {
            copies.push(item.copy(alloc)?)?;
        }
        Ok(copies)
    }
}

impl<A: ToVal, B: ToVal> ToVal for (A, B) {
    ghost use Rattle.pt_typed.specs.Shown.{pair_of};

    ghost val = { λ pair. pair_of (A.val pair.0) (B.val pair.1) };

    fn to_val(&self, alloc: Global) -> Result<Val, NoMemory> {
        let mut members = Seq::empty(alloc);
        members.push(self.0.to_val(alloc)?)?;
        members.push(self.1.to_val(alloc)?)?;
        Ok(Val::Tuple(members))
    }

    fn copy(&self, alloc: Global) -> Result<(A, B), NoMemory> {
        let first = self.0.copy(alloc)?;
        let second = self.1.copy(alloc)?;
        Ok((first, second))
    }
}
