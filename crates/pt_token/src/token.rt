use pt_ast::{Binder, CompareOp, Func};
use pt_choice::Octets;
use pt_val::{Chars, Name, Place};

/// A reserved word.
#[derive(Clone, Copy, Debug)]
pub enum Word {
    Property,
    Machine,
    Check,
    Runs,
    Shrink,
    Steps,
    State,
    Bundle,
    Invariant,
    Rule,
    When,
    Into,
    Draw,
    Let,
    Assume,
    Assert,
    Pick,
    From,
    Set,
    Give,
    If,
    Then,
    Else,
    And,
    Or,
    Not,
    True,
    False,
    Ints,
    Bools,
    Texts,
    Blobs,
    SampledFrom,
    Lists,
    Tuples,
    OneOf,
    Map,
    Filter,
    FlatMap,
    Recursive,
    /// The word `self`.
    Again,
    Int,
    Bool,
    Text,
    Bytes,
    Tree,
    List,
    Tuple,
    Func(Func),
    Binder(Binder),
}

/// A mark, but for `-`, which is a kind of its own.
#[derive(Clone, Copy, Debug)]
pub enum Mark {
    OpenBrace,
    CloseBrace,
    OpenParen,
    CloseParen,
    OpenBracket,
    CloseBracket,
    Comma,
    Semicolon,
    Colon,
    Dot,
    Assign,
    Compare(CompareOp),
    Plus,
    Star,
    Slash,
    Percent,
}

/// What a token is.
///
/// A name, a text or bytes past its limit is a token too, whose content nobody asks for.
#[derive(Debug, Drop)]
pub enum Kind {
    Word(Word),
    Mark(Mark),
    /// A minus sign, and whether the next token is a number.
    Minus(bool),
    /// A number. One past the greatest `u64` is kept as that, which no place of the grammar admits.
    Number(u64),
    Name(Name),
    /// A name of more than 40 bytes.
    LongName,
    Text(Chars),
    /// A text of more than 256 characters.
    LongText,
    Bytes(Octets),
    /// Bytes, of which there are more than 64.
    LongBytes,
    /// No token stands here.
    Malformed,
    /// The end of the text.
    End,
}

/// A token and where it begins.
#[derive(Debug, Drop)]
pub struct Token {
    pub at: Place,
    pub kind: Kind,
}
