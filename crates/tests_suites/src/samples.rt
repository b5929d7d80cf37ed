ghost use Rattle.tests_suites.specs.Manual.{ManualIsSound};
ghost use Rattle.tests_suites.specs.Samples.{TypedSamples, UntypedSamples};

/// The typing relation holds of these small trees.
pub fn typed_samples()
    ensures { TypedSamples }
{}

/// And of none of these.
pub fn untyped_samples()
    ensures { UntypedSamples }
{}

/// The tree of the manual's suite may be sealed.
pub fn manual_is_sound()
    ensures { ManualIsSound }
{}
