ghost use Rattle.std.specs.Prelude.{◌≡◌, ◌≤◌, ◌-◌, ◌≤ℤ◌, pos, [], ◌∷◌, length, slice_get, IfOk};
ghost use Rattle.pt_typed.specs.Plans.{count_of};

use crate::{DrawFail, Strategy, ToVal};
use pt_case::Case;
use pt_choice::NoMemory;
use pt_plan::{ask_integer, enter, leave};
use std::alloc::Global;

const SAMPLED: u32 = 5;

/// One of some items. Reductions go toward the first.
#[derive(Debug, Drop)]
pub struct Sampled<T> {
    items: Vec<T>,
    ghost filled: { 1 ≤ length items.items },
    ghost few: { length items.items ≤ 256 },
}

impl<T: ToVal> Sampled<T> {
    /// One of these items, of which there are 1 to 256. A draw hands out a copy.
    pub fn of(items: Vec<T>) -> Sampled<T>
        requires filled { 1 ≤ length items.items }
        requires few { length items.items ≤ 256 }
        ensures { result.items ≡ items }
    {
        Sampled { items }
    }

    /// One item, and no other.
    pub fn just(alloc: Global, item: T) -> Result<Sampled<T>, NoMemory>
        ensures { IfOk result (λ sampled. sampled.items.items ≡ item ∷ []) }
    {
        let mut items = Vec::new(alloc);
        items.push(item)?;
        Ok(Sampled::of(items))
    }
}

impl<T: ToVal> Strategy for Sampled<T> {
    ghost use Rattle.std.specs.Prelude.{map};
    ghost use Rattle.std.specs.List.{Contains};
    ghost use Rattle.pt_typed.specs.Plans.{sampled_plan};
    ghost use Rattle.pt_typed.specs.Laws.{sampled-lawful};

    type Value = T;

    ghost plan = { λ sampled. sampled_plan (map T.val sampled.items.items) };

    ghost values = { λ sampled. Contains (map T.val sampled.items.items) };

    ghost lawful = { λ sampled. sampled-lawful (map T.val sampled.items.items) };

    fn draw(&self, alloc: Global, case: &mut Case) -> Result<T, DrawFail> {
        enter(case, SAMPLED)?;
        let number = ask_integer(case, 0, last_number(self.items.len()))?;
        leave(case);
        Ok(item_at(self.items.as_slice(), number).copy(alloc)?)
    }
}

fn last_number(count: usize) -> i128
    requires { 1 ≤ count }
    ensures { result ≡ pos (count - 1) }
{
    (count - 1) as i128
}

fn item_at<T>(items: &[T], number: i128) -> &T
    requires some { 1 ≤ length items.now }
    requires low { pos 0 ≤ℤ number }
    requires high { number ≤ℤ pos (length items.now - 1) }
    ensures { slice_get items.now (count_of number) ≡ Some result.now }
{
    &items[number as usize]
}
