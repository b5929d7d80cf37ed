//! The check `cache`: the library's cache beside a plain list.

ghost use Rattle.std.specs.Prelude.{◌≡◌, IfOk};
ghost use Rattle.std.specs.NonZero.{non_zero_usize_get};
ghost use Rattle.demo_lru.specs.Cache.{by_cache, cache_name, cache_says};
ghost use Rattle.pt_handed.specs.Checks.{IsCheck};

use crate::command::{Command, Drawn, read};
use crate::listed::{Pairs, ROOM, tell_list};
use lru::LruCache;
use pt_against::{Against, Beside};
use pt_case::{Check, Ending};
use pt_choice::{NoMemory, Seq};
use pt_typed::{Ints, Judge, ListOf, Pair, Property};
use pt_val::Name;
use std::alloc::Global;
use std::num::NonZeroUsize;

/// The library's cache with room for two pairs, beside the list that says what it is to do.
#[derive(Debug, Drop)]
pub struct CacheBesideList;

impl Beside<Drawn> for CacheBesideList {
    ghost use Rattle.demo_lru.specs.Cache.{cache_pairing};

    type Thing = LruCache<i64, i64>;

    type Model = Pairs;

    type Answer = Option<i64>;

    ghost pairing = { λ _. cache_pairing };

    fn thing(&self, alloc: Global) -> Result<LruCache<i64, i64>, NoMemory> {
        Ok(LruCache::new(alloc, room())?)
    }

    fn model(&self, alloc: Global) -> Result<Pairs, NoMemory> {
        Ok(Seq::empty(alloc))
    }

    fn allows(&self, _: &Pairs, _: &Drawn) -> bool {
        true
    }

    fn try_thing(
        &self,
        _: Global,
        cache: &mut LruCache<i64, i64>,
        drawn: &Drawn,
    ) -> Result<Option<i64>, NoMemory> {
        tell_cache(cache, read(drawn))
    }

    fn try_model(
        &self,
        alloc: Global,
        pairs: &mut Pairs,
        drawn: &Drawn,
    ) -> Result<Option<i64>, NoMemory> {
        tell_list(alloc, pairs, read(drawn))
    }

    fn point(&self, drawn: &Drawn) -> u32 {
        match read(drawn) {
            Command::Put(_, _) => 1,
            Command::Get(_) => 2,
            Command::Remove(_) => 3,
        }
    }
}

/// Passes where the cache and the list answer alike.
#[derive(Debug, Drop)]
pub struct AnsweredAlike;

impl Judge<Vec<Drawn>> for AnsweredAlike {
    ghost use Rattle.demo_lru.specs.Cache.{answered_alike};

    ghost verdict = { λ _ commands. answered_alike commands };

    fn judge(&self, alloc: Global, commands: &Vec<Drawn>) -> Result<Ending, NoMemory> {
        Against::of(CacheBesideList).judge(alloc, commands)
    }
}

// What the library's cache answers to a command, and is afterwards.
fn tell_cache(cache: &mut LruCache<i64, i64>, command: Command) -> Result<Option<i64>, NoMemory>
    ensures { IfOk result (λ answer. (answer, cache.new) ≡ by_cache cache.old command) }
{
    match command {
        Command::Put(key, value) => Ok(cache.put(key, value)?),
        Command::Get(key) => {
            let found = cache.peek(&key).copied();
            cache.promote(&key);
            Ok(found)
        }
        Command::Remove(key) => Ok(cache.pop(&key)),
    }
}

fn room() -> NonZeroUsize
    ensures { non_zero_usize_get result ≡ 2 }
{
    NonZeroUsize::new(ROOM).unwrap()
}

/// Lists of 8 to 40 commands on three keys, each of which the cache and the list are to answer alike. There are few keys, and more than there is
/// room for, so that a key is often asked for that was pushed out.
pub type CacheCheck = Property<ListOf<Pair<Ints, Pair<Ints, Ints>>>, AnsweredAlike>;

pub fn cache_check(alloc: Global) -> Result<CacheCheck, NoMemory>
    ensures { IfOk result (λ check. IsCheck (⟦<CacheCheck as Check>⟧.name check) (⟦<CacheCheck as Check>⟧.step check) cache_name cache_says) }
{
    match Name::of(alloc, "cache") {
        Ok(name) => {
            let commands = Pair::of(Ints::of(0, 2), Pair::of(Ints::of(0, 2), Ints::of(0, 9)));
            Ok(Property::of(alloc, name, ListOf::of(commands, 8, 40), AnsweredAlike))
        }
        Err(_) => Err(NoMemory),
    }
}
