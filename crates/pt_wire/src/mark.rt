ghost use Rattle.pt_wire.specs.Spelling.{IsCut};

/// What stands before the first mark, and what stands behind that mark, if there is one.
pub(crate) fn cut(text: &[u8], mark: u8) -> (&[u8], Option<&[u8]>)
    ensures { IsCut mark text.now result.0.now result.1 }
{
    for (place, byte) in text.iter().enumerate() {
        if *byte == mark {
            return (&text[..place], Some(&text[place + 1..]));
        }
    }
    (text, None)
}
