// Text that is written in parts, without memory.
ghost use Rattle.std.specs.Prelude.{◌≡◌, ◌++◌, codes, decimal};
ghost use Rattle.std.specs.Fmt.{signed_decimal};
ghost use Rattle.alloc_cli.specs.Parts.{blank_text, part_text, parts_text, spaced_text, Writes};

use device_core::{Sink, SinkFault};
use table_text::digits;

/// A part of a line: a fixed text, or a number in its shortest decimal text.
#[derive(Clone, Copy)]
pub enum Part {
    Text(&'static str),
    U8(u8),
    U32(u32),
    U64(u64),
    U128(u128),
    I64(i64),
}

// A text as it stands.
fn put<K: Sink>(text: &[u8], out: &mut K) -> Result<(), SinkFault>
    ensures { Writes K.Sink text.now out.old out.new result }
{
    out.write(text)
}

// The digits of a number.
fn write_number<K: Sink>(number: u128, out: &mut K) -> Result<(), SinkFault>
    ensures { Writes K.Sink (decimal number) out.old out.new result }
{
    let mut text = [0u8; 39];
    let length = digits(number, &mut text);
    put(&text[..length], out)
}

// The number with `-` before it.
fn write_negative<K: Sink>(size: u128, out: &mut K) -> Result<(), SinkFault>
    ensures { Writes K.Sink (codes "-" ++ decimal size) out.old out.new result }
{
    put(b"-", out)?;
    write_number(size, out)
}

// The number with its sign.
fn write_signed<K: Sink>(number: i64, out: &mut K) -> Result<(), SinkFault>
    ensures { Writes K.Sink (signed_decimal number) out.old out.new result }
{
    let size = number.unsigned_abs();
    if number < 0 {
        write_negative(size as u128, out)
    } else {
        write_number(size as u128, out)
    }
}

// The text of a part.
fn write_part<K: Sink>(part: Part, out: &mut K) -> Result<(), SinkFault>
    ensures { Writes K.Sink (part_text part) out.old out.new result }
{
    match part {
        Part::Text(text) => put(text.as_bytes(), out),
        Part::U8(number) => write_number(number as u128, out),
        Part::U32(number) => write_number(number as u128, out),
        Part::U64(number) => write_number(number as u128, out),
        Part::U128(number) => write_number(number, out),
        Part::I64(number) => write_signed(number, out),
    }
}

/// Writes the parts in order. A refusal ends it there.
pub fn write_parts<K: Sink>(parts: &[Part], out: &mut K) -> Result<(), SinkFault>
    ensures { Writes K.Sink (parts_text parts.now) out.old out.new result }
{
    match parts {
        [] => Ok(()),
        [part, rest @ ..] => {
            write_part(*part, out)?;
            write_parts(rest, out)
        }
    }
}

// A part after a blank.
fn write_after_blank<K: Sink>(part: Part, out: &mut K) -> Result<(), SinkFault>
    ensures { Writes K.Sink (blank_text part) out.old out.new result }
{
    put(b" ", out)?;
    write_part(part, out)
}

/// Writes the parts in order, each after a blank. A refusal ends it there.
pub fn write_spaced<K: Sink>(parts: &[Part], out: &mut K) -> Result<(), SinkFault>
    ensures { Writes K.Sink (spaced_text parts.now) out.old out.new result }
{
    match parts {
        [] => Ok(()),
        [part, rest @ ..] => {
            write_after_blank(*part, out)?;
            write_spaced(rest, out)
        }
    }
}
