ghost use Rattle.std.specs.Prelude.{◌≡◌, ◌++◌, [], ◌∷◌, OnOk, flat_map};

use pt_choice::NoMemory;

/// Adds these pieces and a line feed.
pub fn push_line(text: &mut Vec<u8>, pieces: &[&[u8]]) -> Result<(), NoMemory>
    ensures { OnOk result (text.new.items ≡ text.old.items ++ (flat_map (λ piece. piece.now) pieces.now ++ 10 ∷ [])) }
{
    push(text, pieces)?;
    text.push(b'\n')?;
    Ok(())
}

/// Adds these pieces.
pub fn push(text: &mut Vec<u8>, pieces: &[&[u8]]) -> Result<(), NoMemory>
    ensures { OnOk result (text.new.items ≡ text.old.items ++ flat_map (λ piece. piece.now) pieces.now) }
{
    for piece in pieces {
        text.extend_from_slice(piece)?;
    }
    Ok(())
}
