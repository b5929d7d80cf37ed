ghost use Rattle.std.specs.Prelude.{◌≡◌};
ghost use Rattle.pt_taking.specs.Terminals.{is_terminal};

use pt_token::{Kind, Mark, Word};

/// A mark or a word that the grammar names.
#[derive(Clone, Copy, Debug)]
pub enum Terminal {
    OpenParen,
    CloseParen,
    OpenSquare,
    CloseSquare,
    OpenBrace,
    CloseBrace,
    Comma,
    Semicolon,
    Colon,
    Assign,
    Then,
    Else,
    Or,
    And,
    From,
    Give,
    State,
    Bundle,
    Invariant,
    Rule,
    When,
    Into,
    /// The end of the text.
    End,
}

impl Terminal {
    pub(crate) fn is(self, kind: &Kind) -> bool
        ensures { result ≡ is_terminal self kind.now }
    {
        match self {
            Terminal::OpenParen => matches!(kind, Kind::Mark(Mark::OpenParen)),
            Terminal::CloseParen => matches!(kind, Kind::Mark(Mark::CloseParen)),
            Terminal::OpenSquare => matches!(kind, Kind::Mark(Mark::OpenBracket)),
            Terminal::CloseSquare => matches!(kind, Kind::Mark(Mark::CloseBracket)),
            Terminal::OpenBrace => matches!(kind, Kind::Mark(Mark::OpenBrace)),
            Terminal::CloseBrace => matches!(kind, Kind::Mark(Mark::CloseBrace)),
            Terminal::Comma => matches!(kind, Kind::Mark(Mark::Comma)),
            Terminal::Semicolon => matches!(kind, Kind::Mark(Mark::Semicolon)),
            Terminal::Colon => matches!(kind, Kind::Mark(Mark::Colon)),
            Terminal::Assign => matches!(kind, Kind::Mark(Mark::Assign)),
            Terminal::Then => matches!(kind, Kind::Word(Word::Then)),
            Terminal::Else => matches!(kind, Kind::Word(Word::Else)),
            Terminal::Or => matches!(kind, Kind::Word(Word::Or)),
            Terminal::And => matches!(kind, Kind::Word(Word::And)),
            Terminal::From => matches!(kind, Kind::Word(Word::From)),
            Terminal::Give => matches!(kind, Kind::Word(Word::Give)),
            Terminal::State => matches!(kind, Kind::Word(Word::State)),
            Terminal::Bundle => matches!(kind, Kind::Word(Word::Bundle)),
            Terminal::Invariant => matches!(kind, Kind::Word(Word::Invariant)),
            Terminal::Rule => matches!(kind, Kind::Word(Word::Rule)),
            Terminal::When => matches!(kind, Kind::Word(Word::When)),
            Terminal::Into => matches!(kind, Kind::Word(Word::Into)),
            Terminal::End => matches!(kind, Kind::End),
        }
    }
}
