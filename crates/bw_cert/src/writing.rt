//! Writing of certified texts.
ghost use Rattle.std.specs.Prelude.{◌≡◌, ◌+◌, ◌<◌, ◌≤◌, ◌^◌, [], ◌∷◌, ◌++◌, length, drop, Some};
ghost use Rattle.std.specs.Prelude.{OnOk, OnErr, IfOk, IfSome, string_bytes};
ghost use Rattle.std.specs.Prelude.{string_len, string_capacity};
ghost use Rattle.std.specs.Fmt.{decimal};
ghost use Rattle.std.specs.Option.{option_map};
ghost use Rattle.bw_model.specs.Marks.{price_of};
ghost use Rattle.bw_cert.specs.Spelling.{parent_word, limit_word, flag_word, level_word, row_words};
ghost use Rattle.bw_cert.specs.Spelling.{line, head_words, group_words, certified_value, spelling};
ghost use Rattle.bw_cert.specs.Spelling.{IsSmallRow, IsSmallLevel, IsValue};

use bw_model::{Certificate, HostShape, Instance, Mark, Row};
use bw_text::{push_ascii, push_number, write_byte_before, write_number_before};
use std::alloc::{AllocError, Global};

// Room for the line of a group: eight numbers of at most 20 digits, and ten other bytes.
const LINE_BYTES: usize = 170;

// Writes a number and the space after it right before the text at `end`. Returns where it begins.
fn write_number(buffer: &mut [u8], end: usize, n: u64) -> usize
    requires room { 21 ≤ end }
    requires within { end ≤ length buffer.old }
    ensures at_most { end ≤ result + 21 }
    ensures start { result ≤ end }
    ensures written { drop result buffer.new ≡ decimal n ++ 32 ∷ drop end buffer.old }
{
    let end = write_byte_before(buffer, end, b' ');
    write_number_before(buffer, end, n)
}

fn write_parent(buffer: &mut [u8], end: usize, parent: Option<u32>) -> usize
    requires room { 21 ≤ end }
    requires within { end ≤ length buffer.old }
    ensures start { result ≤ end }
    ensures written { drop result buffer.new ≡ parent_word parent ++ 32 ∷ drop end buffer.old }
{
    match parent {
        None => {
            let end = write_byte_before(buffer, end, b' ');
            write_byte_before(buffer, end, b'-')
        }
        Some(parent) => write_number(buffer, end, u64::from(parent)),
    }
}

fn write_limit(buffer: &mut [u8], end: usize, limit: Option<u64>) -> usize
    requires room { 21 ≤ end }
    requires within { end ≤ length buffer.old }
    ensures at_most { end ≤ result + 21 }
    ensures start { result ≤ end }
    ensures written { drop result buffer.new ≡ limit_word limit ++ 32 ∷ drop end buffer.old }
{
    match limit {
        None => {
            let end = write_byte_before(buffer, end, b' ');
            let end = write_byte_before(buffer, end, b'x');
            let end = write_byte_before(buffer, end, b'a');
            write_byte_before(buffer, end, b'm')
        }
        Some(limit) => write_number(buffer, end, limit),
    }
}

fn write_flag(buffer: &mut [u8], end: usize, flag: bool) -> usize
    requires room { 2 ≤ end }
    requires within { end ≤ length buffer.old }
    ensures start { result + 2 ≡ end }
    ensures written { drop result buffer.new ≡ flag_word flag ++ 32 ∷ drop end buffer.old }
{
    let end = write_byte_before(buffer, end, b' ');
    write_byte_before(buffer, end, if flag { b'1' } else { b'0' })
}

fn write_mark(buffer: &mut [u8], end: usize, mark: Mark) -> usize
    requires room { 62 ≤ end }
    requires within { end ≤ length buffer.old }
    ensures at_most { end ≤ result + 62 }
    ensures start { result ≤ end }
    ensures written { drop result buffer.new
        ≡ level_word (Some (price_of mark)) ++ drop end buffer.old }
{
    let end = write_number_before(buffer, end, u64::from(mark.place));
    let end = write_byte_before(buffer, end, b'@');
    let end = write_number_before(buffer, end, mark.den);
    let end = write_byte_before(buffer, end, b'/');
    write_number_before(buffer, end, mark.num)
}

// Writes a level and the newline after it at the end of the buffer.
fn write_level(buffer: &mut [u8; LINE_BYTES], level: Option<Mark>) -> usize
    ensures at_most { 170 ≤ result + 63 }
    ensures start { result ≤ 170 }
    ensures written { drop result buffer.new
        ≡ level_word (option_map price_of level) ++ 10 ∷ [] }
{
    let end = write_byte_before(buffer, LINE_BYTES, b'\n');
    match level {
        None => write_byte_before(buffer, end, b'-'),
        Some(mark) => write_mark(buffer, end, mark),
    }
}

fn push_head(out: &mut String, shape: HostShape, count: u64) -> Result<(), AllocError>
    ensures { OnOk result
        (string_bytes out.new ≡ string_bytes out.old ++ line (head_words shape count)) }
{
    out.push_str("bw 1 ")?;
    push_number(out, shape.processors())?;
    out.push_str(" ")?;
    push_number(out, shape.period_us())?;
    out.push_str(" ")?;
    push_number(out, shape.slice_us())?;
    out.push_str(" ")?;
    push_number(out, count)?;
    out.push_str("\n")?;
    Ok(())
}

fn write_row(buffer: &mut [u8], end: usize, row: Row) -> usize
    requires room { 84 ≤ end }
    requires within { end ≤ length buffer.old }
    ensures start { result ≤ end }
    ensures written { drop result buffer.new ≡ row_words row ++ drop end buffer.old }
{
    let end = write_number(buffer, end, row.demand);
    let end = write_limit(buffer, end, row.limit);
    let end = write_number(buffer, end, row.weight);
    write_parent(buffer, end, row.parent)
}

// Writes the line of a group at the end of the buffer, from its last word to its first.
fn write_group(
    buffer: &mut [u8; LINE_BYTES],
    row: Row,
    amount: u64,
    flag: bool,
    level: Option<Mark>,
) -> usize
    ensures start { result ≤ 170 }
    ensures written { drop result buffer.new
        ≡ line (group_words row amount flag (option_map price_of level)) }
    ensures small_row { IsSmallRow row }
    ensures small_amount { amount < 2 ^ 64 }
    ensures small_level { IfSome (option_map price_of level) IsSmallLevel }
{
    let end = write_level(buffer, level);
    let end = write_flag(buffer, end, flag);
    let end = write_number(buffer, end, amount);
    write_row(buffer, end, row)
}

fn push_group(
    out: &mut String,
    buffer: &mut [u8; LINE_BYTES],
    row: Row,
    amount: u64,
    flag: bool,
    level: Option<Mark>,
) -> Result<(), AllocError>
    ensures text { OnOk result (string_bytes out.new
        ≡ string_bytes out.old ++ line (group_words row amount flag (option_map price_of level))) }
    // so memory is refused only where the room that is left is too small for the line
    ensures full { OnErr result (string_capacity out.old < string_len out.old
        + length (line (group_words row amount flag (option_map price_of level)))) }
    ensures small_row { IsSmallRow row }
    ensures small_amount { amount < 2 ^ 64 }
    ensures small_level { IfSome (option_map price_of level) IsSmallLevel }
{
    let start = write_group(buffer, row, amount, flag, level);
    push_ascii(out, &buffer[start..])
}

/// The certified text of an instance, its amounts in slices and their certificate.
///
/// # Errors
/// `AllocError` if memory was refused.
pub fn write_certified(
    alloc: Global,
    instance: &Instance,
    amounts: &[u64],
    certificate: &Certificate,
) -> Result<String, AllocError>
    requires amounts { length amounts.now ≡ length instance.now.rows }
    requires flags { length certificate.now.tight.items ≡ length instance.now.rows }
    requires levels { length certificate.now.levels.items ≡ length instance.now.rows }
    ensures text { IfOk result (λ t. string_bytes t
        ≡ spelling (certified_value instance.now amounts.now certificate.now)) }
    // So the text is read again as this value.
    ensures valid { OnOk result
        (IsValue (certified_value instance.now amounts.now certificate.now)) }
{
    let rows = instance.rows();
    let mut out = String::new(alloc);
    let mut buffer = [0; LINE_BYTES];
    push_head(&mut out, instance.shape(), rows.len() as u64)?;
    for i in 0..rows.len() {
        push_group(
            &mut out,
            &mut buffer,
            rows[i],
            amounts[i],
            certificate.tight[i],
            certificate.levels[i],
        )?;
    }
    Ok(out)
}
