ghost use Rattle.std.specs.Prelude.{◌≡◌};
ghost use Rattle.pt_check.specs.Bases.{base_number};

/// A type that holds no others.
#[derive(Clone, Copy, Debug, PartialEq, Eq)]
pub(crate) enum Base {
    Int,
    Bool,
    Text,
    Bytes,
    Tree,
}

impl Base {
    /// Its number among the types that are kept from the beginning.
    pub(crate) fn number(self) -> usize
        ensures { result ≡ base_number self }
    {
        match self {
            Base::Int => 0,
            Base::Bool => 1,
            Base::Text => 2,
            Base::Bytes => 3,
            Base::Tree => 4,
        }
    }
}
