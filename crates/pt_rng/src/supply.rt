ghost use Rattle.std.specs.Prelude.{◌≡◌, true, IfOk, OnErr, IsOk};
ghost use Rattle.pt_choice.specs.Kind.{admits, AsksSmall};
ghost use Rattle.pt_rng.specs.Supplied.{Simplest, Streamed, key_bytes, start_of, supply_of_run, made, HasReadFor};

use crate::words::choice_from;
use pt_choice::{Choice, Kind, NoMemory, simplest};
use rand_chacha::ChaCha8Rng;
use rand_core::SeedableRng;
use std::alloc::Global;
use std::marker::Model;

/// Where the answers of a fresh run come from.
#[derive(Drop)]
pub struct Supply {
    source: Source,
}

#[derive(Drop)]
enum Source {
    Simplest,
    Words(ChaCha8Rng),
}

impl Model for Supply {
    ghost use Rattle.pt_rng.specs.Supplied.{Supplied};

    ghost Value = { Supplied };

    ghost use Rattle.pt_rng.specs.Source.{supplied_by, IsSource};

    ghost view = { λ supply. supplied_by supply.source };

    ghost invariant = { λ supply. IsSource supply.source };
}

impl Supply {
    /// The supply that answers every question with the simplest choice.
    pub fn simplest() -> Supply
        ensures { result ≡ Simplest }
    {
        Supply {
            source: Source::Simplest,
        }
    }

    /// The words of ChaCha with 8 rounds, of the stream with this number, from its first word on. The key is the
    /// seed as 8 little-endian bytes and then 24 zero bytes.
    pub fn stream(seed: u64, run: u64) -> Supply
        ensures { result ≡ Streamed (start_of seed run) }
    {
        let mut words = ChaCha8Rng::from_seed(key(seed));
        words.set_stream(run);
        Supply {
            source: Source::Words(words),
        }
    }

    /// The supply of a numbered run: the simplest for run 0, and otherwise the stream of that number.
    pub fn of_run(seed: u64, run: u64) -> Supply
        ensures { result ≡ supply_of_run seed run }
    {
        if run == 0 {
            Supply::simplest()
        } else {
            Supply::stream(seed, run)
        }
    }

    /// The next choice, which the kind admits. A boolean and an integer are never refused. After a refusal the supply
    /// is the same, but some of the words that the choice takes may have been read.
    pub fn next_choice(&mut self, alloc: Global, kind: &Kind) -> Result<Choice, NoMemory>
        ensures made { IfOk result (λ choice. made self.old kind.now ≡ (choice, self.new)) }
        ensures admitted { IfOk result (λ choice. admits kind.now choice ≡ true) }
        ensures small { AsksSmall kind.now → IsOk result }
        ensures refused { OnErr result (HasReadFor kind.now self.old self.new) }
    {
        match &mut self.source {
            Source::Simplest => simplest(alloc, kind),
            Source::Words(words) => choice_from(alloc, words, kind),
        }
    }
}

fn key(seed: u64) -> [u8; 32]
    ensures { result ≡ key_bytes seed }
{
    let mut key = [0; 32];
    key[..8].copy_from_slice(&seed.to_le_bytes());
    key
}
