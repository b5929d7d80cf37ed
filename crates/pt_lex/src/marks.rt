ghost use Rattle.std.specs.Prelude.{◌≡◌};
ghost use Rattle.pt_lex.specs.Marks.{mark_text};
ghost use Rattle.pt_lex.specs.reading.Mark.{all_marks, mark_among, mark_token};

use pt_ast::CompareOp;
use pt_token::{Kind, Mark};

/// The marks, those of two characters first.
const MARKS: [Mark; 21] = [
    Mark::Compare(CompareOp::Eq),
    Mark::Compare(CompareOp::Ne),
    Mark::Compare(CompareOp::Le),
    Mark::Compare(CompareOp::Ge),
    Mark::OpenBrace,
    Mark::CloseBrace,
    Mark::OpenParen,
    Mark::CloseParen,
    Mark::OpenBracket,
    Mark::CloseBracket,
    Mark::Comma,
    Mark::Semicolon,
    Mark::Colon,
    Mark::Dot,
    Mark::Assign,
    Mark::Compare(CompareOp::Lt),
    Mark::Compare(CompareOp::Gt),
    Mark::Plus,
    Mark::Star,
    Mark::Slash,
    Mark::Percent,
];

/// A mark as it is written.
pub fn mark_text(mark: Mark) -> &'static [char]
    ensures { result.now ≡ mark_text mark }
{
    match mark {
        Mark::OpenBrace => &['{'],
        Mark::CloseBrace => &['}'],
        Mark::OpenParen => &['('],
        Mark::CloseParen => &[')'],
        Mark::OpenBracket => &['['],
        Mark::CloseBracket => &[']'],
        Mark::Comma => &[','],
        Mark::Semicolon => &[';'],
        Mark::Colon => &[':'],
        Mark::Dot => &['.'],
        Mark::Assign => &['='],
        Mark::Compare(CompareOp::Eq) => &['=', '='],
        Mark::Compare(CompareOp::Ne) => &['!', '='],
        Mark::Compare(CompareOp::Lt) => &['<'],
        Mark::Compare(CompareOp::Le) => &['<', '='],
        Mark::Compare(CompareOp::Gt) => &['>'],
        Mark::Compare(CompareOp::Ge) => &['>', '='],
        Mark::Plus => &['+'],
        Mark::Star => &['*'],
        Mark::Slash => &['/'],
        Mark::Percent => &['%'],
    }
}

/// The mark at the front, and what follows it.
pub(crate) fn read_mark(text: &[char]) -> (Kind, &[char])
    ensures { (result.0, result.1.now) ≡ mark_token text.now }
{
    for mark in MARKS {
        if let Some(rest) = text.strip_prefix(mark_text(mark)) {
            return (Kind::Mark(mark), rest);
        }
    }
    (Kind::Malformed, text)
}
