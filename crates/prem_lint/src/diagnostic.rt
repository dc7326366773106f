// A broken rule at its place.
ghost use Rattle.std.specs.Prelude.{◌≡◌, ◌++◌, OnOk};
ghost use Rattle.prem_lint.specs.Diagnostics.{diagnostic_of, diagnostic_text, error_text, note_text};

use crate::advice::put_advice;
use crate::excerpt::{put_marked, rest_at};
use crate::message::put_message;
use crate::put::{put_bytes, put_head};
use crate::spot::Spot;
use prem_tasks::Rule;
use std::alloc::{AllocError, Global};

/// A broken rule, and where in which file it is broken.
#[derive(Clone, Copy)]
pub struct Diagnostic<'a> {
    /// The name of the file.
    pub file: &'a str,
    /// What the file holds.
    pub source: &'a [u8],
    pub spot: Spot,
    pub rule: &'a Rule,
}

/// The place, what is wrong, and the line with its mark.
fn put_error(alloc: Global, text: &mut Vec<u8>, d: &Diagnostic) -> Result<(), AllocError>
    ensures { OnOk result (text.new.items ≡ text.old.items ++ error_text (diagnostic_of d.now)) }
{
    put_head(alloc, text, d.file, d.spot)?;
    put_bytes(text, b"error: ")?;
    put_message(alloc, text, d.rule, rest_at(d.spot, d.source))?;
    put_bytes(text, b"\n")?;
    put_marked(text, d.spot, d.source)
}

/// The place, and what to do.
fn put_note(alloc: Global, text: &mut Vec<u8>, d: &Diagnostic) -> Result<(), AllocError>
    ensures { OnOk result (text.new.items ≡ text.old.items ++ note_text (diagnostic_of d.now)) }
{
    put_head(alloc, text, d.file, d.spot)?;
    put_bytes(text, b"note: ")?;
    put_advice(alloc, text, d.rule)?;
    put_bytes(text, b"\n")
}

/// The text of a diagnostic: `FILE:LINE:COLUMN: error: ..`, the line of the source, a mark under it, and a note that says what to do.
pub fn put_diagnostic(alloc: Global, text: &mut Vec<u8>, d: &Diagnostic) -> Result<(), AllocError>
    ensures { OnOk result (text.new.items ≡ text.old.items ++ diagnostic_text (diagnostic_of d.now)) }
{
    put_error(alloc, text, d)?;
    put_note(alloc, text, d)
}
