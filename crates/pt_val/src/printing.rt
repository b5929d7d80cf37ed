ghost use Rattle.std.specs.Prelude.{◌≡◌, ◌++◌, ◌<◌, false, codes, map, IfOk, OnOk};
ghost use Rattle.std.specs.List.{flat_map};
ghost use Rattle.std.specs.Fmt.{digits, digit_glyph, signed_decimal};
ghost use Rattle.pt_val.specs.Text.{char_text, byte_text, listed, text_of};

use crate::Val;
use itoa::Buffer;
use pt_choice::{NoMemory, Octets};
use std::alloc::Global;

/// The text of a value, as a suite would write it.
pub fn show(alloc: Global, value: &Val) -> Result<Octets, NoMemory>
    ensures { IfOk result (λ text. text ≡ text_of value.now) }
{
    let mut text = Octets::empty(alloc);
    write_value(&mut text, value)?;
    Ok(text)
}

#[cycle(show)]
fn write_value(text: &mut Octets, value: &Val) -> Result<(), NoMemory>
    ensures { OnOk result (text.new ≡ text.old ++ text_of value.now) }
{
    match value {
        Val::Int(number) => write_number(text, *number),
        Val::Bool(true) => write(text, b"true"),
        Val::Bool(false) => write(text, b"false"),
        Val::Text(chars) => write_chars(text, chars.as_slice()),
        Val::Bytes(bytes) => write_bytes(text, bytes.as_slice()),
        Val::List(members) => {
            write(text, b"[")?;
            write_values(text, members.as_slice())?;
            write(text, b"]")
        }
        Val::Tuple(members) => {
            write(text, b"(")?;
            write_values(text, members.as_slice())?;
            write(text, b")")
        }
        Val::Node(label, children) if children.len() == 0 => write_leaf(text, *label),
        Val::Node(label, children) => {
            write(text, b"node(")?;
            write_number(text, *label)?;
            write(text, b", [")?;
            write_values(text, children.as_slice())?;
            write(text, b"])")
        }
    }
}

#[cycle(show)]
fn write_values(text: &mut Octets, values: &[Val]) -> Result<(), NoMemory>
    ensures { OnOk result (text.new ≡ text.old ++ listed (map text_of values.now)) }
{
    let Some((first, rest)) = values.split_first() else {
        return Ok(());
    };
    write_value(text, first)?;
    for value in rest {
        write(text, b", ")?;
        write_value(text, value)?;
    }
    Ok(())
}

fn write_leaf(text: &mut Octets, label: i64) -> Result<(), NoMemory>
    ensures { OnOk result (text.new ≡ text.old ++ (codes "leaf(" ++ signed_decimal label ++ codes ")")) }
{
    write(text, b"leaf(")?;
    write_number(text, label)?;
    write(text, b")")
}

fn write_number(text: &mut Octets, number: i64) -> Result<(), NoMemory>
    ensures { OnOk result (text.new ≡ text.old ++ signed_decimal number) }
{
    let mut buffer = Buffer::new();
    write(text, buffer.format(number).as_bytes())
}

fn write_chars(text: &mut Octets, chars: &[char]) -> Result<(), NoMemory>
    ensures { OnOk result (text.new ≡ text.old ++ (codes "\"" ++ flat_map char_text chars.now ++ codes "\"")) }
{
    write(text, b"\"")?;
    for char in chars {
        write_char(text, *char)?;
    }
    write(text, b"\"")
}

fn write_char(text: &mut Octets, char: char) -> Result<(), NoMemory>
    ensures { OnOk result (text.new ≡ text.old ++ char_text char) }
{
    match char {
        '"' => write(text, b"\\\""),
        '\\' => write(text, b"\\\\"),
        ' '..='~' => text.push(char as u8),
        _ => {
            write(text, b"\\u{")?;
            write_hex(text, char as u32)?;
            write(text, b"}")
        }
    }
}

// Lower-case hex digits, with no leading zero.
#[tactic(auto, using(std::proofs::lemmas::Fmt::hex_one_digit))]
fn write_hex(text: &mut Octets, number: u32) -> Result<(), NoMemory>
    ensures { OnOk result (text.new ≡ text.old ++ digits 16 false number) }
{
    if number < 16 {
        return text.push(hex_digit(number));
    }
    write_hex(text, number / 16)?;
    text.push(hex_digit(number % 16))
}

fn write_bytes(text: &mut Octets, bytes: &[u8]) -> Result<(), NoMemory>
    ensures { OnOk result (text.new ≡ text.old ++ (codes "x\"" ++ flat_map byte_text bytes.now ++ codes "\"")) }
{
    write(text, b"x\"")?;
    for byte in bytes {
        text.push(hex_digit(u32::from(*byte / 16)))?;
        text.push(hex_digit(u32::from(*byte % 16)))?;
    }
    write(text, b"\"")
}

fn hex_digit(value: u32) -> u8
    requires { value < 16 }
    ensures { result ≡ digit_glyph false value }
{
    if value < 10 {
        b'0' + value as u8
    } else {
        b'a' + (value - 10) as u8
    }
}

fn write(text: &mut Octets, bytes: &[u8]) -> Result<(), NoMemory>
    ensures { OnOk result (text.new ≡ text.old ++ bytes.now) }
{
    for byte in bytes {
        text.push(*byte)?;
    }
    Ok(())
}
