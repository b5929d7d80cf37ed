ghost use Rattle.std.specs.Prelude.{◌≡◌, ◌↔◌, IsTrue, MatchOption, is_some};
ghost use Rattle.pt_stored.specs.Digest.{is_lower_digit, IsDigest, IsNameOf, IsExampleName};

// How many digits the text of a digest has.
const DIGITS: usize = 64;

/// The digests of the key and of the value, where the name has the form of an example's.
pub fn digests_of(name: &[u8]) -> Option<(&[u8], &[u8])>
    ensures { MatchOption result (¬ IsExampleName name.now) (λ digests. IsNameOf name.now digests.0.now digests.1.now) }
{
    if name.len() != 2 * DIGITS + 1 || name[DIGITS] != b'-' {
        return None;
    }
    let (key, rest) = name.split_at(DIGITS);
    let value = &rest[1..];
    if is_digest(key) && is_digest(value) {
        Some((key, value))
    } else {
        None
    }
}

fn is_digest(text: &[u8]) -> bool
    ensures { IsTrue result ↔ IsDigest text.now }
{
    text.len() == DIGITS && text.iter().all(|digit| is_lower_digit(*digit))
}

fn is_lower_digit(byte: u8) -> bool
    ensures { result ≡ is_lower_digit byte }
{
    matches!(byte, b'0'..=b'9' | b'a'..=b'f')
}
