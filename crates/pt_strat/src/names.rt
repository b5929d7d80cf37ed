ghost use Rattle.std.specs.Prelude.{◌≡◌, IfOk};

use pt_choice::NoMemory;
use pt_eval::Env;
use std::alloc::Global;

/// The same names with the same values.
pub(crate) fn copy_of(alloc: Global, env: &Env) -> Result<Env, NoMemory>
    ensures { IfOk result (λ copy. copy ≡ env.now) }
{
    let mut copy = Env::empty(alloc);
    for binding in env.as_slice() {
        copy.bind(binding.name.copy()?, binding.val.copy()?)?;
    }
    Ok(copy)
}
