ghost use Rattle.std.specs.Prelude.{◌≡◌, ◌<◌, ◌≤◌, ◌^◌, ℕ, List, [], ◌∷◌, ◌++◌, IfErr, IfOk, IfSome, MatchOption};
ghost use Rattle.std.specs.Fmt.{decimal};
ghost use Rattle.pt_wire.specs.Number.{digits_of};
ghost use Rattle.pt_wire.specs.Printed.{PrintedNumber};
ghost use Rattle.pt_wire.specs.Spelling.{FailsAt};

/// Reads a number in decimal digits, of which the first is no 0 where more follow. The number is at most `most`.
pub(crate) fn read_number(digits: &[u8], most: u128) -> Result<u128, usize>
    requires { most < 2 ^ 64 }
    ensures ok { IfOk result (λ number. PrintedNumber most number digits.now) }
    ensures err { IfErr result (FailsAt (PrintedNumber most) digits.now) }
{
    let mut number = None;
    for (place, digit) in digits.iter().enumerate() {
        match with_digit(number, *digit, most) {
            Some(greater) => number = Some(greater),
            None => return Err(place),
        }
    }
    number.ok_or(0)
}

/// The number with one digit more at its end, if it is a number with that digit and no greater than `most`.
fn with_digit(number: Option<u128>, byte: u8, most: u128) -> Option<u128>
    requires bounded { most < 2 ^ 64 }
    requires small { IfSome number (λ value. value ≤ most) }
    ensures { MatchOption result
        ((greater : ℕ) (rest : List ℕ) → greater ≤ most → decimal greater ≡ digits_of number ++ byte ∷ rest → ⊥)
        (λ greater. (greater ≤ most) × (decimal greater ≡ digits_of number ++ byte ∷ [])) }
{
    if !byte.is_ascii_digit() {
        return None;
    }
    if number == Some(0) {
        return None;
    }
    let greater = 10 * number.unwrap_or(0) + u128::from(byte - b'0');
    if greater > most {
        return None;
    }
    Some(greater)
}
