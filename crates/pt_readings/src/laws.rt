ghost use Rattle.pt_readings.specs.Laws.{OneReading, ReadsOrFaults, NotBoth, OneFault, KeepsBounds, Numbers};

/// The tokens of a text have one reading at most.
pub fn one_reading()
    ensures { OneReading }
{}

/// The tokens of a text have a reading or a first fault, and not both.
pub fn reads_or_faults()
    ensures some { ReadsOrFaults }
    ensures not_both { NotBoth }
{}

/// The tokens of a text have one first fault at most, of one sort.
pub fn one_fault()
    ensures { OneFault }
{}

/// The suite that was read keeps the counts and bounds of a suite, where the texts and bytes of its tokens keep theirs; and the nodes
/// of a suite of 1,048,577 tokens at most are numbered in the order of its text.
pub fn suites_keep_bounds()
    ensures bounded { KeepsBounds }
    ensures numbered { Numbers }
{}
