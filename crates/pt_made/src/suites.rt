ghost use Rattle.std.specs.Prelude.{◌≡◌, ◌≤◌, ℕ, List, IfOk, map};
ghost use Rattle.std.specs.List.{range_with_len};
ghost use Rattle.pt_ast.specs.Plain.{plain_item, plain_suite};
ghost use Rattle.pt_ast.specs.Sound.{IsSound};
ghost use Rattle.pt_made.specs.Lines.{made_item, made_suite};

use crate::lines::made_item;
use pt_ast::{Items, Suite, Typed};
use pt_choice::{NoMemory, Seq};
use std::alloc::Global;

/// The suite that this seed and count make, sealed: whichever checks are handed in, it is well typed.
pub fn made_suite(alloc: Global, seed: u64, count: u32) -> Result<Typed, NoMemory>
    requires { count ≤ 200 }
    ensures made { IfOk result (λ typed. plain_suite typed ≡ made_suite seed count) }
    ensures sound { IfOk result (λ typed. (known : List (List ℕ)) → IsSound known (plain_suite typed)) }
{
    let items = made_items(alloc, seed, count)?;
    Ok(Typed::seal(Suite { items }))
}

fn made_items(alloc: Global, seed: u64, count: u32) -> Result<Items, NoMemory>
    requires { count ≤ 200 }
    ensures { IfOk result (λ items. map plain_item items ≡ map (made_item seed) (range_with_len 0 count)) }
{
    let mut items = Seq::empty(alloc);
    for k in 0..count {
        let item = made_item(alloc, seed, k)?;
        items.push(item)?;
    }
    Ok(items)
}
