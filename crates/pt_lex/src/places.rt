ghost use Rattle.std.specs.Prelude.{◌≡◌, ◌<◌, ◌+◌, ◌*◌, ◌^◌, ◌≤◌, ℕ, List, ◌∷◌, [], ◌++◌, length};
ghost use Rattle.pt_lex.specs.Places.{place_behind};

use pt_val::Place;

/// The place behind one character more.
fn place_after(at: Place, char: char) -> Place
    requires line { at.line + 1 < 2 ^ 32 }
    requires column { at.column + 4 < 2 ^ 32 }
    ensures is { (text : List ℕ) → at ≡ place_behind text → result ≡ place_behind (text ++ char ∷ []) }
    ensures line { result.line ≤ at.line + 1 }
    ensures column { result.column ≤ at.column + 4 }
{
    if char == '\n' {
        Place {
            line: at.line + 1,
            column: 1,
        }
    } else {
        Place {
            line: at.line,
            column: at.column + char.len_utf8() as u32,
        }
    }
}

/// The place behind these characters more.
pub(crate) fn place_past(at: Place, text: &[char]) -> Place
    requires line { at.line + length text.now < 2 ^ 32 }
    requires column { at.column + 4 * length text.now < 2 ^ 32 }
    ensures is { (done : List ℕ) → at ≡ place_behind done → result ≡ place_behind (done ++ text.now) }
    ensures line { result.line ≤ at.line + length text.now }
    ensures column { result.column ≤ at.column + 4 * length text.now }
{
    let mut here = at;
    let mut rest = text;
    while let Some((char, more)) = rest.split_first() {
        here = place_after(here, *char);
        rest = more;
    }
    here
}
