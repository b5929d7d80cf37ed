ghost use Rattle.std.specs.Prelude.{◌≡◌, ◌≤◌, [], ◌∷◌, ◌++◌, OnOk};
ghost use Rattle.std.specs.Option.{option_map};
ghost use Rattle.pt_plan.specs.Came.{Drew};
ghost use Rattle.pt_plan.specs.Halt.{case_halt};
ghost use Rattle.pt_plan.specs.Open.{open_spans};
ghost use Rattle.pt_typed.specs.Fail.{fail_halt};
ghost use Rattle.pt_typed.specs.Shown.{list_of, shown_by};
ghost use Rattle.pt_typed.specs.Plans.{more_plan, element_if, element_plan, elements_plan};

use crate::{DrawFail, Strategy, draw_from};
use pt_case::{Case, Stop};
use pt_choice::NoMemory;
use pt_plan::{ask_flag, enter, leave};
use std::alloc::Global;

const LIST_OF: u32 = 6;

const ELEMENT: u32 = 7;

/// Lists of values of a strategy, the shortest first.
#[derive(Drop)]
pub struct ListOf<S> {
    inner: S,
    min: u16,
    max: u16,
    ghost ordered: { min ≤ max },
    ghost short: { max ≤ 256 },
}

impl<S: Strategy> ListOf<S> {
    /// Lists of `min` to `max` elements, at most 256.
    pub fn of(inner: S, min: u16, max: u16) -> ListOf<S>
        requires ordered { min ≤ max }
        requires short { max ≤ 256 }
        ensures inner { result.inner ≡ inner }
        ensures min { result.min ≡ min }
        ensures max { result.max ≡ max }
    {
        ListOf { inner, min, max }
    }
}

impl<S: Strategy> Strategy for ListOf<S> {
    ghost use Rattle.pt_typed.specs.Plans.{list_plan};
    ghost use Rattle.pt_typed.specs.Sets.{IsListOf};
    ghost use Rattle.pt_typed.specs.Laws.{list-lawful};

    type Value = Vec<S::Value>;

    ghost plan = { λ lists. list_plan (S.plan lists.inner) lists.min lists.max };

    ghost values = { λ lists. IsListOf (S.values lists.inner) lists.min lists.max };

    ghost lawful = { λ lists. list-lawful _ _ (S.lawful lists.inner) _ _ lists.ordered };

    fn draw(&self, alloc: Global, case: &mut Case) -> Result<Vec<S::Value>, DrawFail> {
        enter(case, LIST_OF)?;
        let elements = draw_elements(
            &self.inner,
            usize::from(self.min),
            usize::from(self.max),
            alloc,
            case,
        )?;
        leave(case);
        Ok(elements)
    }
}

// Elements one after another, until there is no further one or there are the most.
fn draw_elements<S: Strategy>(
    inner: &S,
    min: usize,
    max: usize,
    alloc: Global,
    case: &mut Case,
) -> Result<Vec<S::Value>, DrawFail>
    ensures drew { Drew fail_halt (elements_plan (S.plan inner.now) min max []) case.old case.new (shown_by (list_of S.Value.val) result) }
    ensures closed { OnOk result (open_spans case.new ≡ open_spans case.old) }
{
    let mut elements = Vec::new(alloc);
    'growing: while elements.len() < max {
        match draw_element(inner, min, elements.len(), alloc, case)? {
            Some(element) => grow(&mut elements, element)?,
            None => return Ok(elements),
        }
    }
    Ok(elements)
}

// One more element, if there is one, in a span of its own.
fn draw_element<S: Strategy>(
    inner: &S,
    min: usize,
    count: usize,
    alloc: Global,
    case: &mut Case,
) -> Result<Option<S::Value>, DrawFail>
    ensures drew { Drew fail_halt (element_plan (S.plan inner.now) min count) case.old case.new (shown_by (option_map S.Value.val) result) }
    ensures closed { OnOk result (open_spans case.new ≡ open_spans case.old) }
{
    enter(case, ELEMENT)?;
    let more = ask_more(case, min, count)?;
    let found = draw_if(more, inner, alloc, case)?;
    leave(case);
    Ok(found)
}

// One more element where the answer is yes.
fn draw_if<S: Strategy>(
    more: bool,
    inner: &S,
    alloc: Global,
    case: &mut Case,
) -> Result<Option<S::Value>, DrawFail>
    ensures drew { Drew fail_halt (element_if (S.plan inner.now) more) case.old case.new (shown_by (option_map S.Value.val) result) }
    ensures closed { OnOk result (open_spans case.new ≡ open_spans case.old) }
{
    if more {
        return Ok(Some(draw_from(inner, alloc, case)?));
    }
    Ok(None)
}

// Whether there is one more element. It is not asked below the least number.
fn ask_more(case: &mut Case, min: usize, count: usize) -> Result<bool, Stop>
    ensures drew { Drew case_halt (more_plan min count) case.old case.new result }
    ensures closed { OnOk result (open_spans case.new ≡ open_spans case.old) }
{
    if count < min {
        return Ok(true);
    }
    ask_flag(case, 12)
}

fn grow<T: Drop>(elements: &mut Vec<T>, element: T) -> Result<(), NoMemory>
    ensures { OnOk result (elements.new.items ≡ elements.old.items ++ element ∷ []) }
{
    elements.push(element)?;
    Ok(())
}
