ghost use Rattle.std.specs.Prelude.{◌≡◌, ◌≤◌, false, length};
ghost use Rattle.pt_lex.specs.Gaps.{is_blank};
ghost use Rattle.pt_lex.specs.reading.Gap.{gap_on};

/// What stands behind blanks and comments.
pub(crate) fn behind_gap(text: &[char]) -> &[char]
    ensures rest { result.now ≡ gap_on false text.now }
    ensures within { length result.now ≤ length text.now }
{
    let mut rest = text;
    let mut in_remark = false;
    while let Some((char, more)) = rest.split_first() {
        if in_remark {
            in_remark = *char != '\n';
        } else if *char == '#' {
            in_remark = true;
        } else if !is_blank(*char) {
            return rest;
        }
        rest = more;
    }
    rest
}

fn is_blank(char: char) -> bool
    ensures { result ≡ is_blank char }
{
    matches!(char, ' ' | '\t' | '\r' | '\n')
}
