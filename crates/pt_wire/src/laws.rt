//! What holds of the spellings, whichever way they are gone. A law is what its function ensures; it does nothing.

ghost use Rattle.std.specs.Prelude.{◌≡◌, ◌≤◌, ◌⊎◌, ℕ, List, length, Result};
ghost use Rattle.pt_choice.specs.declared.choice.Choice.{Choice};
ghost use Rattle.pt_wire.specs.declared.fault.WireFault.{WireFault};
ghost use Rattle.pt_wire.specs.declared.fault.WireFault.TheVariants as fault;
ghost use Rattle.pt_wire.specs.Answer.{Reads};
ghost use Rattle.pt_wire.specs.Limits.{IsWritable};
ghost use Rattle.pt_wire.specs.Printed.{Printed};
ghost use Rattle.pt_wire.specs.Spelling.{FailsAt};
ghost use Rattle.pt_wire.specs.Stored.{Stored, StoredOne};
ghost use Rattle.pt_wire.specs.Unpacked.{Unpacks};

use crate::{MAX_PRINTED, MAX_STORED};

/// A list has at most one spelling of each sort.
pub fn one_spelling()
    ensures stored { (list : List Choice) (bytes others : List ℕ) → Stored list bytes → Stored list others → bytes ≡ others }
    ensures old { (list : List Choice) (bytes others : List ℕ) → StoredOne list bytes → StoredOne list others → bytes ≡ others }
    ensures printed { (list : List Choice) (text other : List ℕ) → Printed list text → Printed list other → text ≡ other }
{}

/// Bytes spell at most one list in each version, and unpack to at most one; and a text spells at most one.
pub fn one_list()
    ensures stored { (list other : List Choice) (bytes : List ℕ) → Stored list bytes → Stored other bytes → list ≡ other }
    ensures old { (list other : List Choice) (bytes : List ℕ) → StoredOne list bytes → StoredOne other bytes → list ≡ other }
    ensures unpacked { (list other : List Choice) (bytes : List ℕ) → Unpacks bytes list → Unpacks bytes other → list ≡ other }
    ensures printed { (list other : List Choice) (text : List ℕ) → Printed list text → Printed other text → list ≡ other }
{}

/// No bytes spell a list in both versions.
pub fn one_version()
    ensures { (list other : List Choice) (bytes : List ℕ) → Stored list bytes → StoredOne other bytes → ⊥ }
{}

/// An input fails at one place at most.
pub fn one_place()
    ensures stored { (bytes : List ℕ) (place other : ℕ) → FailsAt Stored bytes place → FailsAt Stored bytes other → place ≡ other }
    ensures old { (bytes : List ℕ) (place other : ℕ) → FailsAt StoredOne bytes place → FailsAt StoredOne bytes other → place ≡ other }
    ensures printed { (text : List ℕ) (place other : ℕ) → FailsAt Printed text place → FailsAt Printed text other → place ≡ other }
{}

/// What was written is read again: of a spelling of a list that may be written, a reader answers that list, unless
/// memory runs out.
pub fn read_again()
    ensures stored { (list : List Choice) (bytes : List ℕ) (answer : Result (List Choice) WireFault) → IsWritable list
        → Stored list bytes → Reads Stored bytes answer → (answer ≡ Ok list) ⊎ (answer ≡ Err fault.NoMemory) }
    ensures old { (list : List Choice) (bytes : List ℕ) (answer : Result (List Choice) WireFault) → IsWritable list
        → StoredOne list bytes → Reads StoredOne bytes answer → (answer ≡ Ok list) ⊎ (answer ≡ Err fault.NoMemory) }
    ensures printed { (list : List Choice) (text : List ℕ) (answer : Result (List Choice) WireFault) → IsWritable list
        → Printed list text → Reads Printed text answer → (answer ≡ Ok list) ⊎ (answer ≡ Err fault.NoMemory) }
{}

/// A list of at most 256 choices is printed in at most `MAX_PRINTED` bytes.
pub fn short_text()
    ensures { (list : List Choice) (text : List ℕ) → Printed list text → length list ≤ 256 → length text ≤ MAX_PRINTED }
{}

/// A list of at most 256 choices is stored in at most `MAX_STORED` bytes.
pub fn short_bytes()
    ensures { (list : List Choice) (bytes : List ℕ) → Stored list bytes → length list ≤ 256 → length bytes ≤ MAX_STORED }
{}
