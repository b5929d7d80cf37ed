ghost use Rattle.std.specs.Prelude.{string_bytes, IfOk, OnOk};
ghost use Rattle.pt_choice.specs.Limits.{IsFew, IsInLimits};
ghost use Rattle.pt_wire.specs.Limits.{IsWritable};
ghost use Rattle.pt_wire.specs.Printed.{Printed, PrintedByte, PrintedChoice, PrintedPlaces};
ghost use Rattle.pt_wire.specs.Spelling.{Among, Appends, Chained};

use pt_choice::{Choice, Choices, NoMemory, Octets};
use std::alloc::{AllocError, Global};
use std::fmt::Write;

/// The most bytes in which at most 256 choices are printed: 256 words of at most 256 bytes each, and 255 spaces.
pub const MAX_PRINTED: usize = 65_791;

/// The text in which reports and commands show a list of choices.
pub fn print_choices(alloc: Global, list: &Choices) -> Result<Octets, NoMemory>
    requires { IsWritable list.now }
    ensures { IfOk result (Printed list.now) }
{
    let Some((first, others)) = list.as_slice().split_first() else {
        return Octets::of(alloc, b"-");
    };
    let mut out = String::new(alloc);
    print_choice(&mut out, first)?;
    for choice in others {
        out.push(' ')?;
        print_choice(&mut out, choice)?;
    }
    Octets::of(alloc, out.as_bytes())
}

fn print_choice(out: &mut String, choice: &Choice) -> Result<(), AllocError>
    requires { IsInLimits choice.now }
    ensures { OnOk result (Appends PrintedChoice choice.now (string_bytes out.old) (string_bytes out.new)) }
{
    match choice {
        Choice::Bool(value) => out.push_str(if *value { "bt" } else { "bf" }),
        Choice::Int(value) => write!(out, "i{value}"),
        Choice::Bytes(bytes) => {
            out.push('x')?;
            print_bytes(out, bytes.as_slice())
        }
        Choice::Text(places) => {
            out.push('t')?;
            print_places(out, places.as_slice())
        }
    }
}

fn print_bytes(out: &mut String, bytes: &[u8]) -> Result<(), AllocError>
    requires { IsFew bytes.now }
    ensures { OnOk result (Appends (Among IsFew (Chained PrintedByte)) bytes.now (string_bytes out.old) (string_bytes out.new)) }
{
    for byte in bytes {
        write!(out, "{byte:02x}")?;
    }
    Ok(())
}

fn print_places(out: &mut String, places: &[u8]) -> Result<(), AllocError>
    requires { IsFew places.now }
    ensures { OnOk result (Appends (Among IsFew PrintedPlaces) places.now (string_bytes out.old) (string_bytes out.new)) }
{
    let Some((first, others)) = places.split_first() else {
        return Ok(());
    };
    write!(out, "{first}")?;
    for place in others {
        write!(out, ".{place}")?;
    }
    Ok(())
}
