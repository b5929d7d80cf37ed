//! The word that the workers of one block share: a place whose list is better, or the number of lists.

ghost use Rattle.std.specs.Prelude.{ℕ, ◌↔◌};
ghost use Rattle.pt_par.specs.Least.{IsBetterAt, MayHold};

use pt_case::{Check, ChoiceLists, Record};
use std::marker::{Brand, PhantomData};
use std::sync::atomic::Ordering::SeqCst;
use std::sync::atomic::{AtomicIn, Rule};

// What the word may hold. A rule says nothing of borrowed values, so a type stands for what is said of the lists.
pub(crate) trait Word {
    ghost may_hold: { ℕ → Type 0 };
}

impl Word for Brand {
    ghost may_hold = { λ word. Unit {0} };
}

// The rule of the word: each store keeps it, and so each load gives what it allows.
pub(crate) struct Lowest<W: Word>(PhantomData<W>);

impl<W: Word> Rule for Lowest<W> {
    ghost invariant = { λ word. W.may_hold word };
}

// Puts the place of a better list into the word, if it is lower than what stands there. It is tried once: where another
// worker was faster, the word holds a better place all the same.
pub(crate) fn lower<C: Check, W: Word + Sync>(
    check: &C,
    best: &Record,
    lists: &ChoiceLists,
    word: &AtomicIn<Lowest<W>>,
    place: usize,
)
    requires rule { (word : ℕ) → W.may_hold word ↔ MayHold (C.step check.now) best.now lists.now word }
    requires better { IsBetterAt (C.step check.now) best.now lists.now place }
{
    let seen = word.load(SeqCst);
    if (place as u64) < seen {
        let _ = word.compare_exchange(seen, place as u64, SeqCst, SeqCst);
    }
}
