// The words of a compiled set.
ghost use Rattle.std.specs.Prelude.{◌≡◌, ◌≤◌, ◌<◌, ◌+◌, ◌-◌, ◌*◌, [], ◌∷◌, ◌++◌, IfOk, IfSome, IsNone, OnOk, length, slice_get};
ghost use Rattle.prem_line.specs.Hexadecimal.{hex_word};
ghost use Rattle.prem_compile.specs.CompiledOf.{compiled_of};
ghost use Rattle.prem_build.specs.Tables.Listing.{bytes_at, code_text, list_text, part_line, part_text, placed_text, task_line, words_of};

use crate::tables::names::{first_name, rest_names};
use prem_asm::list;
use prem_compile::Compiled;
use prem_line::hex_word;
use prem_plant::PartKind;
use std::alloc::{AllocError, Global};

/// The bytes of a place, as far as there are any.
fn bytes_at(content: &[u8], start: u32, end: u32) -> &[u8]
    requires { start ≤ end }
    ensures bytes { result.now ≡ bytes_at content.now (start, end) }
    ensures size { length result.now ≤ end - start }
{
    let (start, size) = (start as usize, (end - start) as usize);
    if start >= content.len() {
        return &[];
    }
    let behind = &content[start..];
    if size >= behind.len() {
        behind
    } else {
        &behind[..size]
    }
}

/// The first word of bytes and the bytes behind it, where there are four.
fn next_word(bytes: &[u8]) -> Option<(u32, &[u8])>
    ensures word { IfSome result (λ w. words_of bytes.now ≡ w.0 ∷ words_of w.1.now) }
    ensures size { IfSome result (λ w. length bytes.now ≡ 4 + length w.1.now) }
    ensures none { IsNone result → words_of bytes.now ≡ [] }
{
    match bytes {
        [first, second, third, fourth, rest @ ..] => {
            let word = u32::from_le_bytes([*first, *second, *third, *fourth]);
            Some((word, rest))
        }
        _ => None,
    }
}

/// Bytes by fours, as little endian words.
fn words_of(alloc: Global, bytes: &[u8]) -> Result<Vec<u32>, AllocError>
    ensures words { IfOk result (λ words. words.items ≡ words_of bytes.now) }
    ensures size { IfOk result (λ words. 4 * length words.items ≤ length bytes.now) }
{
    let mut words = Vec::new(alloc);
    let mut rest = bytes;
    while let Some((word, behind)) = next_word(rest) {
        words.push(word)?;
        rest = behind;
    }
    Ok(words)
}

/// The line of a task.
fn push_task(text: &mut Vec<u8>, name: &[u8]) -> Result<(), AllocError>
    ensures { OnOk result (text.new.items ≡ text.old.items ++ task_line name.now) }
{
    text.extend_from_slice(b"task ")?;
    text.extend_from_slice(name)?;
    text.extend_from_slice(b"\n")
}

/// The line of a part.
fn push_line(text: &mut Vec<u8>, kind: &str, name: &[u8], at: u32) -> Result<(), AllocError>
    ensures { OnOk result (text.new.items ≡ text.old.items ++ part_line kind.now name.now at) }
{
    text.extend_from_slice(b"part ")?;
    text.extend_from_slice(kind.as_bytes())?;
    text.extend_from_slice(b" ")?;
    text.extend_from_slice(name)?;
    text.extend_from_slice(b" ")?;
    text.extend_from_slice(&hex_word(at))?;
    text.extend_from_slice(b"\n")
}

/// A part that has code, and its words.
fn push_code(
    alloc: Global,
    text: &mut Vec<u8>,
    content: &[u8],
    kind: &str,
    name: &[u8],
    place: (u32, u32),
) -> Result<(), AllocError>
    requires { place.0 ≤ place.1 }
    ensures { OnOk result (text.new.items ≡ text.old.items ++ code_text content.now kind.now name.now place) }
{
    let (start, end) = place;
    push_line(text, kind, name, start)?;
    let words = words_of(alloc, bytes_at(content, start, end))?;
    text.extend_from_slice(&list(alloc, &words, start)?)
}

/// The lines of a part at its place. A task is told where it starts.
fn push_placed(
    alloc: Global,
    text: &mut Vec<u8>,
    content: &[u8],
    kind: PartKind,
    name: &[u8],
    place: (u32, u32),
) -> Result<(), AllocError>
    requires { place.0 ≤ place.1 }
    ensures { OnOk result (text.new.items ≡ text.old.items ++ placed_text content.now kind name.now place) }
{
    match kind {
        PartKind::Start => {
            push_task(text, name)?;
            push_code(alloc, text, content, "start", name, place)
        }
        PartKind::Code(_) => push_code(alloc, text, content, "code", name, place),
        PartKind::Stub(_) => push_code(alloc, text, content, "stub", name, place),
        PartKind::Global(_) => Ok(()),
        PartKind::Stack => Ok(()),
        PartKind::Area(_) => Ok(()),
    }
}

/// The lines of the n-th part.
#[tactic(auto, unfolding(crate::specs::Tables::Listing::part_text))]
fn push_part(
    alloc: Global,
    text: &mut Vec<u8>,
    compiled: &Compiled,
    kind: PartKind,
    name: &[u8],
    n: usize,
) -> Result<(), AllocError>
    ensures { OnOk result (text.new.items ≡ text.old.items ++ part_text (compiled_of compiled.now).image.content kind name.now (slice_get (compiled_of compiled.now).layout n)) }
{
    match compiled.layout.part(n) {
        Some(place) => push_placed(
            alloc,
            text,
            compiled.image.content.items(),
            kind,
            name,
            place,
        ),
        None => Ok(()),
    }
}

/// The lines of all parts.
fn push_parts(alloc: Global, text: &mut Vec<u8>, compiled: &Compiled) -> Result<(), AllocError>
    ensures { OnOk result (text.new.items ≡ text.old.items ++ list_text (compiled_of compiled.now)) }
{
    let mut names = compiled.names.items();
    let mut n = 0usize;
    for part in compiled.parts.items() {
        push_part(alloc, text, compiled, part.kind, first_name(names), n)?;
        names = rest_names(names);
        n += 1;
    }
    Ok(())
}

/// Each task; its start, functions and stubs in the order of their places; and their words.
pub fn list_text(alloc: Global, compiled: &Compiled) -> Result<Vec<u8>, AllocError>
    ensures { IfOk result (λ text. text.items ≡ list_text (compiled_of compiled.now)) }
{
    let mut text = Vec::new(alloc);
    push_parts(alloc, &mut text, compiled)?;
    Ok(text)
}
