//! What a strategy draws from choices as they are printed.

ghost use Rattle.std.specs.Prelude.{◌<◌, ◌^◌, length};

use pt_case::Case;
use pt_choice::{Choices, NoMemory};
use pt_typed::{DrawFail, Strategy, ToVal};
use pt_val::show;
use pt_wire::read_choices;
use std::alloc::Global;

// The choices that a text spells, and none where it spells none.
pub fn choices_of(alloc: Global, spelled: &[u8]) -> Choices
    requires { length spelled.now < 2 ^ 32 }
{
    match read_choices(alloc, spelled) {
        Ok(choices) => choices,
        Err(_) => Choices::empty(alloc),
    }
}

/// Whether the choices lead to the value that is shown so.
pub fn draws<S: Strategy>(
    alloc: Global,
    strategy: &S,
    spelled: &[u8],
    want: &[u8],
) -> Result<bool, DrawFail>
    requires { length spelled.now < 2 ^ 32 }
{
    let mut case = Case::replay(alloc, &choices_of(alloc, spelled))?;
    let value = strategy.draw(alloc, &mut case)?;
    let shown = show(alloc, &value.to_val(alloc)?)?;
    Ok(shown.as_slice() == want)
}

/// Whether the choices lead to no value for this reason, and the case is stopped exactly where it gives no more.
pub fn fails<S: Strategy>(
    alloc: Global,
    strategy: &S,
    spelled: &[u8],
    want: DrawFail,
) -> Result<bool, NoMemory>
    requires { length spelled.now < 2 ^ 32 }
{
    let mut case = Case::replay(alloc, &choices_of(alloc, spelled))?;
    match strategy.draw(alloc, &mut case) {
        Ok(_) => Ok(false),
        Err(fail) => Ok(fail == want && case.stopped() == (want == DrawFail::Overrun)),
    }
}
