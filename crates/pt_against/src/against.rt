ghost use Rattle.std.specs.Prelude.{◌≡◌, ◌∷◌, List, IfOk};
ghost use Rattle.pt_val.specs.declared.val.Val.{Val};
ghost use Rattle.pt_against.specs.Compared.{compared, or_failed};

use crate::Beside;
use pt_case::{Ending, Origin};
use pt_choice::NoMemory;
use pt_typed::{Judge, ToVal};
use std::alloc::Global;

/// The judge of a list of commands: it fails at the point of the first command that the thing and the model answer otherwise.
#[derive(Debug, Drop)]
pub struct Against<T> {
    pair: T,
}

impl<T> Against<T> {
    pub fn of(pair: T) -> Against<T>
        ensures { result.pair ≡ pair }
    {
        Against { pair }
    }
}

impl<C: ToVal, T: Beside<C>> Judge<Vec<C>> for Against<T> {
    ghost use Rattle.pt_typed.specs.Reading.{members_of};
    ghost use Rattle.pt_against.specs.Compared.{verdict_on};

    ghost verdict = { λ against commands. verdict_on (T.pairing against.pair) T.Answer.eq (members_of commands) };

    fn judge(&self, alloc: Global, commands: &Vec<C>) -> Result<Ending, NoMemory> {
        let mut thing = self.pair.thing(alloc)?;
        let mut model = self.pair.model(alloc)?;
        for command in commands {
            if let Some(point) = give(&self.pair, alloc, &mut thing, &mut model, command)? {
                return Ok(Ending::Fail(Origin::Point(point)));
            }
        }
        Ok(Ending::Pass)
    }
}

// Gives both the command, if the model allows it. Where they answer otherwise, the answer is its point.
fn give<C: ToVal, T: Beside<C>>(
    pair: &T,
    alloc: Global,
    thing: &mut T::Thing,
    model: &mut T::Model,
    command: &C,
) -> Result<Option<u32>, NoMemory>
    ensures { IfOk result (λ differs. (others : List Val) →
        compared (T.pairing pair.now) T.Answer.eq thing.old model.old (C.val command.now ∷ others) ≡
        or_failed differs (compared (T.pairing pair.now) T.Answer.eq thing.new model.new others)) }
{
    if !pair.allows(model, command) {
        return Ok(None);
    }
    let answer = pair.try_thing(alloc, thing, command)?;
    let wanted = pair.try_model(alloc, model, command)?;
    if answer == wanted {
        return Ok(None);
    }
    Ok(Some(pair.point(command)))
}
