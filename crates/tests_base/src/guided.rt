//! Runs that a list guides, and behind it a supply.

use crate::expect::expect;
use crate::rising::Rising;
use crate::sample::Sample::{self, Number};
use crate::sample::choices_of;
use pt_case::guided;
use pt_choice::{NoMemory, Shape};
use pt_rng::Supply;
use pt_val::Name;
use std::alloc::Global;
use std::test::Fail;

const DIGIT: Shape = Shape::Int { lo: 0, hi: 9 };

/// What guides a run of the check `Rising`, which draws two digits, and its choices where the supply is the simplest.
const GUIDED: [(&[Sample], &[Sample]); 4] = [
    (&[], &[Number(0), Number(0)]),
    (&[Number(4)], &[Number(4), Number(0)]),
    (&[Number(12)], &[Number(0), Number(0)]),
    (&[Number(4), Number(7), Number(1)], &[Number(4), Number(7)]),
];

// Whether the run has these choices, each of which answers a question for a digit.
fn comes_to(
    alloc: Global,
    check: &Rising,
    list: &[Sample],
    wanted: &[Sample],
) -> Result<bool, NoMemory> {
    let list = choices_of(alloc, list)?;
    let traced = guided(alloc, check, &list, Supply::simplest())?;
    let kinds = traced.kinds.as_slice();
    Ok(
        traced.rec.choices == choices_of(alloc, wanted)?
            && kinds.len() == wanted.len()
            && kinds.iter().all(|kind| kind.shape() == DIGIT),
    )
}

#[test]
fn a_guided_run_goes_on_behind_its_list(rt: HostRuntime) -> Result<(), Fail> {
    let name = Name::of(rt.alloc(), "rising")?;
    let check = Rising { name };
    for (row, (list, wanted)) in GUIDED.iter().enumerate() {
        expect(&rt, row, comes_to(rt.alloc(), &check, list, wanted));
    }
    Ok(())
}
