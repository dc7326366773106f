// Lines of a file, and marks under them.
ghost use Rattle.std.specs.Prelude.{◌≡◌, ◌≤◌, ◌<◌, ◌+◌, ◌^◌, ◌++◌, ◌&&◌, OnOk, length, map, take, drop, nat_le, nat_lt};
ghost use Rattle.std.specs.List.{flat_map, prefix_len};
ghost use Rattle.prem_lint.specs.Spots.{column_behind, excerpt, is_blank, line_at, line_end, line_ends, marked, next_column, pad, place_of, rest_at, shown};

use crate::spot::Spot;
use prem_line::first_line;
use std::alloc::AllocError;

/// The first bytes, as many as there are of so many.
pub(crate) fn front_of(bytes: &[u8], count: usize) -> &[u8]
    ensures bytes { result.now ≡ take count bytes.now }
    ensures within { length result.now ≤ count }
{
    if count < bytes.len() {
        &bytes[..count]
    } else {
        bytes
    }
}

/// The bytes behind so many.
pub(crate) fn rest_of(bytes: &[u8], count: usize) -> &[u8]
    ensures { result.now ≡ drop count bytes.now }
{
    if count < bytes.len() {
        &bytes[count..]
    } else {
        &[]
    }
}

/// Whether a line ends here, as a number.
fn line_end(byte: u8) -> usize
    ensures same { result ≡ line_end byte }
    ensures one { result ≤ 1 }
{
    if byte == b'\n' { 1 } else { 0 }
}

/// How many lines end in the bytes.
fn line_ends(bytes: &[u8]) -> usize
    ensures same { result ≡ line_ends bytes.now }
    ensures few { result ≤ length bytes.now }
{
    let mut ends = 0;
    for n in 0..bytes.len() {
        ends += line_end(bytes[n]);
    }
    ends
}

/// The column behind a byte.
fn next_column(col: usize, byte: u8) -> usize
    requires { col ≤ 2 ^ 32 }
    ensures same { result ≡ next_column col byte }
    ensures step { result ≤ col + 1 }
{
    if byte == b'\n' { 1 } else { col + 1 }
}

/// The column behind bytes from the start of a line on.
fn column_behind(bytes: &[u8]) -> usize
    requires { length bytes.now < 2 ^ 32 }
    ensures { result ≡ column_behind 1 bytes.now }
{
    let mut col = 1;
    for n in 0..bytes.len() {
        col = next_column(col, bytes[n]);
    }
    col
}

/// The place of the byte at an offset.
#[tactic(auto, unfolding(crate::specs::Spots::place_of))]
pub(crate) fn place_of(text: &[u8], offset: u32) -> Spot
    ensures { result ≡ place_of offset text.now }
{
    let before = front_of(text, offset as usize);
    Spot::At {
        line: 1 + line_ends(before),
        col: column_behind(before),
    }
}

/// The n-th line, from 1, and nothing where there is none.
#[tactic(auto, unfolding(crate::specs::Spots::line_at))]
fn line_at(text: &[u8], n: usize) -> &[u8]
    ensures { result.now ≡ line_at n text.now }
{
    let mut rest = text;
    let mut left = n;
    while !rest.is_empty() {
        let (line, behind) = first_line(rest);
        if left <= 1 {
            return line;
        }
        rest = behind;
        left -= 1;
    }
    &[]
}

/// A byte as it is shown: a control byte is a blank.
fn shown(byte: u8) -> u8
    ensures { result ≡ shown byte }
{
    if byte == b'\t' {
        b'\t'
    } else if byte < 32 {
        b' '
    } else if byte == 127 {
        b' '
    } else {
        byte
    }
}

fn is_blank(byte: u8) -> bool
    ensures { result ≡ is_blank byte }
{
    byte == b' ' || byte == b'\t'
}

/// How many blanks stand in front.
pub(crate) fn indent(line: &[u8]) -> usize
    ensures { result ≡ prefix_len is_blank line.now }
{
    line.iter().take_while(|byte| is_blank(**byte)).count()
}

/// A line as it is shown.
fn put_shown(text: &mut Vec<u8>, line: &[u8]) -> Result<(), AllocError>
    ensures { OnOk result (text.new.items ≡ text.old.items ++ map shown line.now) }
{
    for byte in line {
        text.push(shown(*byte))?;
    }
    Ok(())
}

/// Whether the byte goes on in a character of UTF-8.
fn goes_on(byte: u8) -> bool
    ensures { result ≡ (nat_le 128 byte && nat_lt byte 192) }
{
    128 <= byte && byte < 192
}

/// What stands under a byte before the mark.
fn put_pad(text: &mut Vec<u8>, byte: u8) -> Result<(), AllocError>
    ensures { OnOk result (text.new.items ≡ text.old.items ++ pad byte) }
{
    if byte == b'\t' {
        text.extend_from_slice(b"\t")
    } else if goes_on(byte) {
        Ok(())
    } else {
        text.extend_from_slice(b" ")
    }
}

/// What stands under bytes before the mark.
fn put_pads(text: &mut Vec<u8>, bytes: &[u8]) -> Result<(), AllocError>
    ensures { OnOk result (text.new.items ≡ text.old.items ++ flat_map pad bytes.now) }
{
    for byte in bytes {
        put_pad(text, *byte)?;
    }
    Ok(())
}

/// A line, and the mark under its byte behind so many.
#[tactic(auto, unfolding(crate::specs::Spots::excerpt))]
fn put_excerpt(text: &mut Vec<u8>, line: &[u8], before: usize) -> Result<(), AllocError>
    ensures { OnOk result (text.new.items ≡ text.old.items ++ excerpt before line.now) }
{
    put_shown(text, line)?;
    text.extend_from_slice(b"\n")?;
    put_pads(text, front_of(line, before))?;
    text.extend_from_slice(b"^\n")
}

/// The line of a place with its mark, where a line is told.
#[tactic(auto, unfolding(crate::specs::Spots::marked))]
pub(crate) fn put_marked(text: &mut Vec<u8>, spot: Spot, source: &[u8]) -> Result<(), AllocError>
    ensures { OnOk result (text.new.items ≡ text.old.items ++ marked spot source.now) }
{
    match spot {
        Spot::Whole => Ok(()),
        Spot::Line(line) => {
            let line = line_at(source, line);
            put_excerpt(text, line, indent(line))
        }
        Spot::At { line, col } => {
            put_excerpt(text, line_at(source, line), col.saturating_sub(1))
        }
    }
}

/// What stands in the line of a place from its column on.
#[tactic(auto, unfolding(crate::specs::Spots::rest_at))]
pub(crate) fn rest_at(spot: Spot, source: &[u8]) -> &[u8]
    ensures { result.now ≡ rest_at spot source.now }
{
    match spot {
        Spot::Whole => &[],
        Spot::Line(_) => &[],
        Spot::At { line, col } => rest_of(line_at(source, line), col.saturating_sub(1)),
    }
}
