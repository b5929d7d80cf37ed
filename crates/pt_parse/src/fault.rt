ghost use Rattle.std.specs.Prelude.{◌≡◌};
ghost use Rattle.pt_parse.specs.Suites.{fault_of};

use pt_grammar::Sort;
use pt_lex::LexStop;
use pt_val::Place;
use thiserror::Error;

/// Why a text has no reading, and where.
#[derive(Clone, Copy, Debug, PartialEq, Eq, Error)]
pub enum SuiteFault {
    /// The bytes are not UTF-8. The place is that of the first byte of the first sequence that is ill-formed.
    #[error("not UTF-8")]
    NotUtf8(Place),
    /// No suite goes on with the token there.
    #[error("a syntax fault")]
    Syntax(Place),
    /// The token there opens a level past the 64th.
    #[error("nested too deep")]
    TooDeep(Place),
    /// The token there is a number, a text or a part past its bound.
    #[error("out of range")]
    OutOfRange(Place),
    #[error("out of memory")]
    NoMemory,
}

impl SuiteFault {
    /// The fault of this sort at a place.
    pub(crate) fn at(which: Sort, place: Place) -> SuiteFault
        ensures { result ≡ fault_of which place }
    {
        match which {
            Sort::Syntax => SuiteFault::Syntax(place),
            Sort::TooDeep => SuiteFault::TooDeep(place),
            Sort::OutOfRange => SuiteFault::OutOfRange(place),
        }
    }
}
