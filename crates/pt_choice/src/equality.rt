ghost use Rattle.std.specs.Prelude.{◌≡◌, ◌↔◌, IsTrue, List};
ghost use Rattle.pt_choice.specs.Same.{same_choice, same_choices};
ghost use Rattle.pt_choice.specs.declared.choice.Choice.{Choice};

/// Choices that are equal are the same choice, and lists that are equal the same list: so a table that is keyed by
/// either has one entry for each. This function does nothing: its contract is that law.
pub fn equal_keys_are_the_same()
    ensures choices { (a b : Choice) → IsTrue (same_choice a b) ↔ (a ≡ b) }
    ensures lists { (a b : List Choice) → IsTrue (same_choices a b) ↔ (a ≡ b) }
{}
