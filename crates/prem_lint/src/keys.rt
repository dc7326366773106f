// The line of a key in a set file, where the file is spelled as set files mostly are.
ghost use Rattle.std.specs.Prelude.{◌≡◌, ◌≤◌, ◌<◌, ◌+◌, ◌^◌, ◌++◌, IfOk, OnOk, length};
ghost use Rattle.std.specs.List.{prefix_len};
ghost use Rattle.prem_line.specs.Lines.{lines_of};
ghost use Rattle.prem_lint.specs.Keys.{begins_table, begins_with, behind, has_key, is_header, is_key_byte, is_sought, key_in, key_spot, line_of, line_spot, prefix, start, without_blanks};

use crate::excerpt::{front_of, indent, rest_of};
use crate::put::put_number;
use crate::spot::Spot;
use prem_line::first_line;
use std::alloc::{AllocError, Global};

/// The bytes that a set file has at most.
pub(crate) const SET_LIMIT: usize = 65_536;

/// A table of a set file.
#[derive(Clone, Copy, Debug, PartialEq, Eq)]
pub(crate) enum Section {
    /// What stands before all tables.
    Root,
    Plant,
    /// The task with this number, from 0.
    Task(usize),
    /// The device with this number, from 0.
    Device(usize),
    /// One that no set file has.
    Other,
}

/// The table in which a line stands, and the tasks and devices that have begun.
#[derive(Clone, Copy, Debug)]
pub(crate) struct Passed {
    pub(crate) section: Section,
    pub(crate) tasks: usize,
    pub(crate) devices: usize,
}

/// Whether the second text begins with the first.
fn begins_with(front: &[u8], text: &[u8]) -> bool
    ensures { result ≡ begins_with front.now text.now }
{
    front_of(text, front.len()) == front
}

fn without_blanks(line: &[u8]) -> &[u8]
    ensures { result.now ≡ without_blanks line.now }
{
    rest_of(line, indent(line))
}

fn is_key_byte(byte: u8) -> bool
    ensures { result ≡ is_key_byte byte }
{
    byte.is_ascii_alphanumeric() || byte == b'_' || byte == b'-' || byte == b'.'
}

fn key_len(line: &[u8]) -> usize
    ensures { result ≡ prefix_len is_key_byte line.now }
{
    line.iter().take_while(|byte| is_key_byte(**byte)).count()
}

/// The key with which a line begins.
fn key_in(line: &[u8]) -> &[u8]
    ensures { result.now ≡ key_in line.now }
{
    front_of(line, key_len(line))
}

/// What stands before a key in its path.
fn put_prefix(alloc: Global, text: &mut Vec<u8>, section: Section) -> Result<(), AllocError>
    ensures { OnOk result (text.new.items ≡ text.old.items ++ prefix section) }
{
    match section {
        Section::Root => Ok(()),
        Section::Plant => text.extend_from_slice(b"plant."),
        Section::Task(n) => {
            text.extend_from_slice(b"task.")?;
            put_number(alloc, text, n as u64)?;
            text.extend_from_slice(b".")
        }
        Section::Device(n) => {
            text.extend_from_slice(b"device.")?;
            put_number(alloc, text, n as u64)?;
            text.extend_from_slice(b".")
        }
        Section::Other => text.extend_from_slice(b"["),
    }
}

/// Whether a line begins a table.
fn is_header(line: &[u8]) -> bool
    ensures { result ≡ is_header line.now }
{
    begins_with(b"[", line)
}

/// The table behind a line that has no blanks in front.
#[tactic(auto, unfolding(crate::specs::Keys::behind))]
fn table_behind(p: Passed, line: &[u8]) -> Passed
    requires tasks { p.tasks < 2 ^ 32 }
    requires devices { p.devices < 2 ^ 32 }
    ensures same { result ≡ behind p line.now }
    ensures tasks { result.tasks ≤ p.tasks + 1 }
    ensures devices { result.devices ≤ p.devices + 1 }
{
    if begins_with(b"[[task]]", line) {
        Passed {
            section: Section::Task(p.tasks),
            tasks: p.tasks + 1,
            devices: p.devices,
        }
    } else if begins_with(b"[[device]]", line) {
        Passed {
            section: Section::Device(p.devices),
            tasks: p.tasks,
            devices: p.devices + 1,
        }
    } else if begins_with(b"[plant]", line) {
        Passed {
            section: Section::Plant,
            tasks: p.tasks,
            devices: p.devices,
        }
    } else if is_header(line) {
        Passed {
            section: Section::Other,
            tasks: p.tasks,
            devices: p.devices,
        }
    } else {
        p
    }
}

/// Whether the line has the key with this path.
fn has_key(alloc: Global, path: &[u8], section: Section, line: &[u8]) -> Result<bool, AllocError>
    ensures { IfOk result (λ has. has ≡ has_key path.now section line.now) }
{
    let mut text = Vec::new(alloc);
    put_prefix(alloc, &mut text, section)?;
    text.extend_from_slice(key_in(line))?;
    Ok(text.as_slice() == path)
}

/// Whether the line begins the table in which the key with this path would stand.
fn begins_table(
    alloc: Global,
    path: &[u8],
    section: Section,
    line: &[u8],
) -> Result<bool, AllocError>
    ensures { IfOk result (λ begins. begins ≡ begins_table path.now section line.now) }
{
    let mut text = Vec::new(alloc);
    put_prefix(alloc, &mut text, section)?;
    Ok(is_header(line) && begins_with(&text, path))
}

fn start() -> Passed
    ensures { result ≡ start }
{
    Passed {
        section: Section::Root,
        tasks: 0,
        devices: 0,
    }
}

/// What a line is looked for by.
#[derive(Clone, Copy, Debug, PartialEq, Eq)]
pub(crate) enum Sought {
    /// It has the key with the path.
    Key,
    /// It begins the table in which that would stand.
    Table,
}

/// Whether a line is one that is looked for.
fn is_sought(
    alloc: Global,
    sought: Sought,
    path: &[u8],
    section: Section,
    line: &[u8],
) -> Result<bool, AllocError>
    ensures { IfOk result (λ is. is ≡ is_sought sought path.now section line.now) }
{
    match sought {
        Sought::Key => has_key(alloc, path, section, line),
        Sought::Table => begins_table(alloc, path, section, line),
    }
}

/// The first line that is looked for by this path.
fn line_of(
    alloc: Global,
    sought: Sought,
    path: &[u8],
    text: &[u8],
) -> Result<Option<usize>, AllocError>
    requires { length text.now < 2 ^ 32 }
    ensures { IfOk result (λ line. line ≡ line_of (is_sought sought path.now) start 1 (lines_of text.now)) }
{
    let mut rest = text;
    let mut passed = start();
    let mut n = 1usize;
    while !rest.is_empty() {
        let (whole, later) = first_line(rest);
        let line = without_blanks(whole);
        passed = table_behind(passed, line);
        if is_sought(alloc, sought, path, passed.section, line)? {
            return Ok(Some(n));
        }
        rest = later;
        n += 1;
    }
    Ok(None)
}

fn line_spot(line: Option<usize>) -> Spot
    ensures { result ≡ line_spot line }
{
    match line {
        None => Spot::Whole,
        Some(n) => Spot::Line(n),
    }
}

/// The line of the key with this path, or else the one that begins its table.
#[tactic(auto, unfolding(crate::specs::Keys::key_spot))]
pub(crate) fn key_spot(alloc: Global, path: &[u8], text: &[u8]) -> Result<Spot, AllocError>
    ensures { IfOk result (λ spot. spot ≡ key_spot path.now text.now) }
{
    let front = front_of(text, SET_LIMIT);
    match line_of(alloc, Sought::Key, path, front)? {
        Some(n) => Ok(Spot::Line(n)),
        None => Ok(line_spot(line_of(alloc, Sought::Table, path, front)?)),
    }
}
