ghost use Rattle.std.specs.Prelude.{◌≤◌, IfErr, IfOk, OnOk};
ghost use Rattle.pt_wire.specs.Leb128.{IsLeb128, IsLeb128Within};
ghost use Rattle.pt_wire.specs.Spelling.{Appends, FailsAt, Splits, StartsWith};

use pt_choice::{NoMemory, Octets};

/// Writes a number at the end, seven bits a byte.
pub(crate) fn push_groups(out: &mut Octets, number: u128) -> Result<(), NoMemory>
    ensures { OnOk result (Appends IsLeb128 number out.old out.new) }
{
    if number < 128 {
        return out.push(number as u8);
    }
    out.push((128 + number % 128) as u8)?;
    push_groups(out, number / 128)
}

/// Reads the number at the front, which lies within bounds, and what follows it. What stands above the first group
/// has its own bounds, which shrink by seven bits a group, so that ten groups are read at most.
pub(crate) fn read_groups(bytes: &[u8], least: u128, most: u128) -> Result<(u128, &[u8]), usize>
    requires small { least ≤ 1 }
    requires ordered { least ≤ most }
    ensures ok { IfOk result (λ found. Splits (IsLeb128Within least most) found.0 bytes.now found.1.now) }
    ensures err { IfErr result (FailsAt (StartsWith (IsLeb128Within least most)) bytes.now) }
{
    let Some((first, others)) = bytes.split_first() else {
        return Err(0);
    };
    let first = u128::from(*first);
    if first < 128 {
        return if least <= first && first <= most {
            Ok((first, others))
        } else {
            Err(0)
        };
    }
    let low = first - 128;
    if most < low + 128 {
        return Err(0);
    }
    match read_groups(others, 1, (most - low) / 128) {
        Ok((high, rest)) => Ok((low + 128 * high, rest)),
        Err(place) => Err(place + 1),
    }
}
