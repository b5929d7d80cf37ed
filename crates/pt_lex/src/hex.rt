ghost use Rattle.std.specs.Prelude.{◌≡◌, ◌<◌, true, false, MatchOption};
ghost use Rattle.pt_lex.specs.Texts.{hex_value, is_hex};

/// What a lower-case hexadecimal digit stands for.
pub(crate) fn hex_digit(char: char) -> Option<u8>
    ensures value { MatchOption result (is_hex char ≡ false) (λ value. (is_hex char ≡ true) × (value ≡ hex_value char)) }
    ensures small { MatchOption result (is_hex char ≡ false) (λ value. value < 16) }
{
    match char {
        '0'..='9' => Some(char as u8 - b'0'),
        'a'..='f' => Some(char as u8 - b'a' + 10),
        _ => None,
    }
}
