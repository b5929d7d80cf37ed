ghost use Rattle.pt_made.specs.Laws.{MadeSuitesAreSound};

/// A made suite of at most 200 lines is sound, whichever checks are handed in. This function does nothing: its
/// contract is that law.
pub fn made_suites_are_sound()
    ensures { MadeSuitesAreSound }
{}
