ghost use Rattle.std.specs.Prelude.{◌≡◌, ◌≤◌, ◌<◌, length, true, nat_lt, IfOk, OnOk};
ghost use Rattle.std.specs.List.{list_all};
ghost use Rattle.pt_choice.specs.declared.kind.Shape.TheVariants as kind;
ghost use Rattle.pt_plan.specs.Came.{Drew};
ghost use Rattle.pt_plan.specs.Halt.{case_halt};
ghost use Rattle.pt_plan.specs.Open.{open_spans};
ghost use Rattle.pt_plan.specs.Plan.{Asks, Gives};
ghost use Rattle.pt_typed.specs.Plans.{chars_at, places_in};

use crate::{DrawFail, Strategy};
use pt_case::{Case, Stop};
use pt_choice::{Choice, Kind, NoMemory, Octets};
use pt_plan::{ask, enter, leave};
use pt_val::Chars;
use std::alloc::Global;

const TEXTS: u32 = 3;

/// Texts of the characters of an alphabet, the shortest first. Reductions go toward its first character.
#[derive(Debug, Drop)]
pub struct Texts {
    alphabet: Chars,
    min: u8,
    max: u8,
    ghost filled: { 1 ≤ length alphabet },
    ghost small: { length alphabet ≤ 256 },
    ghost ordered: { min ≤ max },
    ghost short: { max ≤ 64 },
}

impl Texts {
    /// Texts of `min` to `max` characters, of an alphabet of 1 to 256.
    pub fn of(alphabet: Chars, min: u8, max: u8) -> Texts
        requires filled { 1 ≤ length alphabet }
        requires small { length alphabet ≤ 256 }
        requires ordered { min ≤ max }
        requires short { max ≤ 64 }
        ensures alphabet { result.alphabet ≡ alphabet }
        ensures min { result.min ≡ min }
        ensures max { result.max ≡ max }
    {
        Texts { alphabet, min, max }
    }
}

impl Strategy for Texts {
    ghost use Rattle.pt_typed.specs.Plans.{texts_plan};
    ghost use Rattle.pt_typed.specs.Sets.{IsTextOf};
    ghost use Rattle.pt_typed.specs.Laws.{texts-lawful};

    type Value = Chars;

    ghost plan = { λ texts. texts_plan texts.alphabet texts.min texts.max };

    ghost values = { λ texts. IsTextOf texts.alphabet texts.min texts.max };

    ghost lawful = { λ texts. texts-lawful texts.alphabet texts.min texts.max };

    fn draw(&self, alloc: Global, case: &mut Case) -> Result<Chars, DrawFail> {
        enter(case, TEXTS)?;
        let places = ask_places(case, self.min, self.max, self.alphabet.len())?;
        leave(case);
        Ok(chars_at(alloc, self.alphabet.as_slice(), places.as_slice())?)
    }
}

// The places of a text that is asked for.
fn ask_places(case: &mut Case, min: u8, max: u8, size: usize) -> Result<Octets, Stop>
    requires filled { 1 ≤ size }
    requires small { size ≤ 256 }
    requires ordered { min ≤ max }
    requires short { max ≤ 64 }
    ensures drew { Drew case_halt (Asks (kind.Text min max size) (λ answer. Gives (places_in answer))) case.old case.new result }
    ensures within { IfOk result (λ places. list_all (λ place. nat_lt place size) places ≡ true) }
    ensures closed { OnOk result (open_spans case.new ≡ open_spans case.old) }
{
    let kind = Kind::of_text(min, max, size as u16).unwrap();
    match ask(case, &kind)? {
        Choice::Text(places) => Ok(places),
        _ => unreachable!(),
    }
}

fn chars_at(alloc: Global, alphabet: &[char], places: &[u8]) -> Result<Chars, NoMemory>
    requires { list_all (λ place. nat_lt place (length alphabet.now)) places.now ≡ true }
    ensures { IfOk result (λ chars. chars ≡ chars_at alphabet.now places.now) }
{
    let mut chars = Chars::empty(alloc);
    for place in places {
        chars.push(alphabet[usize::from(*place)])?;
    }
    Ok(chars)
}
