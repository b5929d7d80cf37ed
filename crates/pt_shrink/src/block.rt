//! Lists that are tried side by side. What is entered of them is what one worker would have tried.

ghost use Rattle.std.specs.Prelude.{◌≡◌, ◌≤◌, ◌<◌, ◌+◌, ◌-◌, ◌^◌, ◌++◌, ◌∷◌, [], true, false, ℕ, List, IfOk, OnOk, IfSome, IsTrue, MatchOption, length, take, if◌then◌else◌};
ghost use Rattle.std.specs.List.{Contains};
ghost use Rattle.pt_case.specs.Ending.{is_failure};
ghost use Rattle.pt_case.specs.declared.record.Record.{Record};
ghost use Rattle.pt_found.specs.Trail.{lists_of};
ghost use Rattle.pt_par.specs.Least.{IsBetterAt};
ghost use Rattle.pt_shrink.specs.Progress.{IsAt, Owes, Grows};
ghost use Rattle.pt_shrink.specs.Block.{IsBlock};
ghost use Rattle.pt_shrink.specs.Proposed.{AreHonest, IsHonest};

use crate::Log;
use crate::attempt::{accept, reject};
use crate::slots::{Filter, Proposal, Slots};
use pt_case::{Check, ChoiceLists, Record};
use pt_choice::{Choices, NoMemory, Seq};
use pt_par::{Hit, first_better};
use std::alloc::Global;
use std::thread::Threads;

/// The lists, each with whether it is a stranger and with the slot that it came from.
#[derive(Drop)]
pub(crate) struct Block {
    pub(crate) lists: ChoiceLists,
    pub(crate) marks: Seq<bool>,
    pub(crate) slots: Seq<u32>,
    pub(crate) strangers: u32,
}

impl Block {
    fn empty(alloc: Global) -> Block
        ensures block { (best : Record) (log : _) → IsBlock best log result }
        ensures empty { result.lists ≡ [] }
    {
        Block {
            lists: ChoiceLists::empty(alloc),
            marks: Seq::empty(alloc),
            slots: Seq::empty(alloc),
            strangers: 0,
        }
    }

    // Adds what a slot holds, unless it was tried or is in the block, or is a stranger past the bound.
    fn offer(&mut self, log: &Log, slot: u32, held: Option<Proposal>) -> Result<(), NoMemory>
        ensures block { OnOk result ((best : Record) → IfSome held (IsHonest best) → IsBlock best log.now self.old → IsBlock best log.now self.new) }
        ensures one { OnOk result (length self.new.lists ≤ length self.old.lists + 1) }
    {
        let Some(proposal) = held else {
            return Ok(());
        };
        if log.trail.has(&proposal.list) {
            return Ok(());
        }
        if self.holds(&proposal.list) {
            return Ok(());
        }
        if self.is_closed(log, proposal.stranger) {
            return Ok(());
        }
        self.push(slot, proposal)?;
        Ok(())
    }

    /// The slot that the list at a place came from.
    pub(crate) fn slot_of(&self, place: usize) -> u32 {
        match self.slots.as_slice().get(place) {
            Some(slot) => *slot,
            None => 0,
        }
    }

    fn holds(&self, list: &Choices) -> bool
        ensures { Contains self.now.lists list.now → IsTrue result }
    {
        self.lists.as_slice().contains(list)
    }

    // Whether there is no room for such a list, since all strangers that may be tried are in the block.
    fn is_closed(&self, log: &Log, stranger: bool) -> bool
        ensures allowed { result ≡ false → stranger ≡ true → self.now.strangers < log.now.allowed }
        ensures small { result ≡ false → stranger ≡ true → self.now.strangers < 2 ^ 32 - 1 }
    {
        stranger && self.strangers >= log.allowed
    }

    fn push(&mut self, slot: u32, proposal: Proposal) -> Result<(), NoMemory>
        requires room { proposal.stranger ≡ true → self.old.strangers < 2 ^ 32 - 1 }
        ensures lists { OnOk result (self.new.lists ≡ self.old.lists ++ proposal.list ∷ []) }
        ensures marks { OnOk result (self.new.marks ≡ self.old.marks ++ proposal.stranger ∷ []) }
        ensures strangers { OnOk result (self.new.strangers ≡ self.old.strangers + (if proposal.stranger then 1 else 0)) }
    {
        self.strangers = counted(self.strangers, proposal.stranger);
        self.marks.push(proposal.stranger)?;
        self.slots.push(slot)?;
        self.lists.push(proposal.list)?;
        Ok(())
    }
}

// How many strangers there are with this list.
fn counted(strangers: u32, stranger: bool) -> u32
    requires { stranger ≡ true → strangers < 2 ^ 32 - 1 }
    ensures { result ≡ strangers + (if stranger then 1 else 0) }
{
    if stranger { strangers + 1 } else { strangers }
}

/// The next lists that the slots hold, of which the next one has this number: no more than so many, and no more than the budget leaves.
pub(crate) fn gather(
    alloc: Global,
    best: &Record,
    log: &Log,
    slots: &mut Slots,
    filter: Filter,
    slot: &mut u32,
    size: usize,
    budget: usize,
) -> Result<Block, NoMemory>
    requires honest { AreHonest best.now slots.old }
    ensures honest { IfOk result (λ block. AreHonest best.now slots.new) }
    ensures block { IfOk result (λ block. IsBlock best.now log.now block) }
    ensures short { IfOk result (λ block. (length block.lists ≤ size) × (length block.lists ≤ budget - length log.now.trail)) }
{
    let room = size.min(budget.saturating_sub(log.trail.len()));
    let mut block = Block::empty(alloc);
    while block.lists.len() < room {
        let Some(held) = slots.next(alloc, best, filter)? else {
            return Ok(block);
        };
        block.offer(log, *slot, held)?;
        *slot = slot.saturating_add(1);
    }
    Ok(block)
}

// Enters the lists before a place, none of which is better.
fn enter_vain<C: Check>(
    check: &C,
    best: &Record,
    log: &mut Log,
    block: &Block,
    count: usize,
) -> Result<(), NoMemory>
    requires block { IsBlock best.now log.old block.now }
    requires within { count ≤ length block.now.lists }
    requires vain { (place : ℕ) → place < count → ¬ IsBetterAt (C.step check.now) best.now block.now.lists place }
    ensures reached { OnOk result ((budget : ℕ) (first : Record) → length block.now.lists ≤ budget - length log.old.trail →
        IsAt (C.step check.now) budget first best.now log.old → IsAt (C.step check.now) budget first best.now log.new) }
    ensures entered { OnOk result (lists_of log.new.trail ≡ lists_of log.old.trail ++ take count block.now.lists) }
{
    let lists = block.lists.as_slice();
    let marks = block.marks.as_slice();
    for place in 0..count {
        reject(check, best, log, lists[place].copy()?, marks[place])?;
    }
    Ok(())
}

/// Tries a block: the lists before the first better one are entered in vain, that one is accepted, and nothing is kept of those behind
/// it.
pub(crate) fn try_block<R: Threads + Sync, C: Check>(
    rt: &R,
    alloc: Global,
    check: &C,
    best: &Record,
    log: &mut Log,
    budget: usize,
    block: &Block,
    workers: u32,
) -> Result<Option<Hit>, NoMemory>
    requires fails { is_failure best.now.ending ≡ true }
    requires workers { (1 ≤ workers) × (workers ≤ 16) }
    requires block { IsBlock best.now log.old block.now }
    requires short { (length block.now.lists ≤ 1024) × (length block.now.lists ≤ budget - length log.old.trail) }
    ensures reached { IfOk result (λ answer. (first : Record) → IsAt (C.step check.now) budget first best.now log.old →
        MatchOption answer
        (IsAt (C.step check.now) budget first best.now log.new)
        (λ hit. Owes (C.step check.now) budget first best.now hit.rec log.new)) }
    ensures grows { IfOk result (λ answer. Grows budget log.old log.new) }
    ensures longer { IfOk result (λ answer. MatchOption answer
        (length log.new.trail ≡ length log.old.trail + length block.now.lists)
        (λ hit. (length log.old.trail < length log.new.trail) × (is_failure hit.rec.ending ≡ true) × (0 < log.new.allowed))) }
{
    match first_better(rt, alloc, check, best, &block.lists, workers)? {
        None => {
            enter_vain(check, best, log, block, block.lists.len())?;
            Ok(None)
        }
        Some(hit) => {
            enter_vain(check, best, log, block, hit.at)?;
            let list = block.lists.as_slice()[hit.at].copy()?;
            accept(check, best, log, list, &hit.rec)?;
            Ok(Some(hit))
        }
    }
}
