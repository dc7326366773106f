// A set file that isn't in its form.
ghost use Rattle.std.specs.Prelude.{◌≡◌, ◌≤◌, ◌++◌, IfOk, IsErrOf, OnOk};
ghost use Rattle.prem_io.specs.Counts.{Rose};
ghost use Rattle.prem_set.specs.Lawful.{IsSet};
ghost use Rattle.prem_set.specs.Views.{set_view};
ghost use Rattle.prem_answer.specs.declared.status.Status.TheVariants.{Refused};
ghost use Rattle.prem_answer.specs.Stages.{Comes, IsReadAs, reply_of};
ghost use Rattle.prem_lint.specs.Forms.{fault_advice, fault_error, fault_message, fault_note, fault_spot, fault_text, form_text, set_limit, stated_in};

use crate::excerpt::put_marked;
use crate::keys::{SET_LIMIT, key_spot};
use crate::put::{put_bytes, put_head};
use crate::spot::Spot;
use prem_answer::{Answer, Halt, Status, read_file};
use prem_io::Store;
use prem_plant::Label;
use prem_set::{SetFail, SetFile, read_set};
use std::alloc::{AllocError, Global};

/// A path, and what is wrong there.
fn put_path(text: &mut Vec<u8>, path: &Label, words: &str) -> Result<(), AllocError>
    ensures { OnOk result (text.new.items ≡ text.old.items ++ (path.now ++ words.now)) }
{
    text.extend_from_slice(path.text().as_bytes())?;
    text.extend_from_slice(words.as_bytes())
}

/// What is wrong.
#[tactic(auto, unfolding(crate::specs::Forms::fault_message))]
fn put_message(text: &mut Vec<u8>, fail: &SetFail) -> Result<(), AllocError>
    ensures { OnOk result (text.new.items ≡ text.old.items ++ fault_message fail.now) }
{
    match fail {
        SetFail::NotToml => text.extend_from_slice(b"this is no TOML document"),
        SetFail::Key { path } => put_path(
            text,
            path,
            ": the key is unknown, or it has to be there and isn't",
        ),
        SetFail::Kind { path } => put_path(text, path, ": the value has another type"),
        SetFail::Value { path } => put_path(text, path, ": the value is out of its range"),
        SetFail::Limit { path } => put_path(text, path, ": there are too few or too many"),
        SetFail::OutOfMemory => Ok(()),
    }
}

/// What to do.
#[tactic(auto, unfolding(crate::specs::Forms::fault_advice))]
fn advice(fail: &SetFail) -> &'static str
    ensures { result.now ≡ fault_advice fail.now }
{
    match fail {
        SetFail::NotToml => {
            "a set file has the tables [plant], [[task]] and [[device]], with a line KEY = VALUE for each key"
        }
        SetFail::Key { .. } => {
            "[plant] may have line, sets, ways, fill, back, switch, memory, policy and target; a [[task]] has name, source, period and jobs, a [[device]] name, queue, cost and lines"
        }
        SetFail::Kind { .. } => {
            "names, sources, policy and target are texts in quotes, and all other values are integers"
        }
        SetFail::Value { .. } => {
            "docs/COMMANDS.md has the range of each key; no two tasks and no two devices have one name"
        }
        SetFail::Limit { .. } => "a set has 1 to 16 tasks and at most 8 devices",
        SetFail::OutOfMemory => "",
    }
}

fn put_advice(text: &mut Vec<u8>, fail: &SetFail) -> Result<(), AllocError>
    ensures { OnOk result (text.new.items ≡ text.old.items ++ fault_advice fail.now) }
{
    put_bytes(text, advice(fail).as_bytes())
}

/// The line of the key, as far as it is found.
fn fault_spot(alloc: Global, fail: &SetFail, bytes: &[u8]) -> Result<Spot, AllocError>
    ensures { IfOk result (λ spot. spot ≡ fault_spot fail.now bytes.now) }
{
    match fail {
        SetFail::NotToml => Ok(Spot::Whole),
        SetFail::Key { path } => key_spot(alloc, path.text().as_bytes(), bytes),
        SetFail::Kind { path } => key_spot(alloc, path.text().as_bytes(), bytes),
        SetFail::Value { path } => key_spot(alloc, path.text().as_bytes(), bytes),
        SetFail::Limit { path } => key_spot(alloc, path.text().as_bytes(), bytes),
        SetFail::OutOfMemory => Ok(Spot::Whole),
    }
}

/// The place, what is wrong, and the line with its mark.
fn put_error(
    alloc: Global,
    text: &mut Vec<u8>,
    name: &str,
    bytes: &[u8],
    fail: &SetFail,
    spot: Spot,
) -> Result<(), AllocError>
    ensures { OnOk result (text.new.items ≡ text.old.items ++ fault_error name.now bytes.now fail.now spot) }
{
    put_head(alloc, text, name, spot)?;
    put_bytes(text, b"error: ")?;
    put_message(text, fail)?;
    put_bytes(text, b"\n")?;
    put_marked(text, spot, bytes)
}

/// The place, and what to do.
fn put_note(
    alloc: Global,
    text: &mut Vec<u8>,
    name: &str,
    fail: &SetFail,
    spot: Spot,
) -> Result<(), AllocError>
    ensures { OnOk result (text.new.items ≡ text.old.items ++ fault_note name.now fail.now spot) }
{
    put_head(alloc, text, name, spot)?;
    put_bytes(text, b"note: ")?;
    put_advice(text, fail)?;
    put_bytes(text, b"\n")
}

/// What is said of the file.
fn put_fault(
    alloc: Global,
    text: &mut Vec<u8>,
    name: &str,
    bytes: &[u8],
    fail: &SetFail,
    spot: Spot,
) -> Result<(), AllocError>
    ensures { OnOk result (text.new.items ≡ text.old.items ++ fault_text name.now bytes.now fail.now spot) }
{
    put_error(alloc, text, name, bytes, fail, spot)?;
    put_note(alloc, text, name, fail, spot)
}

/// The answer to a set file that isn't in its form.
#[tactic(auto, unfolding(crate::specs::Forms::form_text))]
fn form_answer(
    alloc: Global,
    name: &str,
    bytes: &[u8],
    fail: &SetFail,
) -> Result<Answer, AllocError>
    ensures { IfOk result (λ a. reply_of a ≡ (Refused, form_text name.now bytes.now fail.now)) }
{
    let spot = fault_spot(alloc, fail, bytes)?;
    let mut text = Vec::new(alloc);
    put_fault(alloc, &mut text, name, bytes, fail, spot)?;
    Ok(Answer {
        status: Status::Refused,
        text,
    })
}

/// Reads a set file.
pub(crate) fn read_stated<S: Store>(
    alloc: Global,
    store: &mut S,
    name: &str,
) -> Result<SetFile, Halt>
    ensures set { Comes set_view (IsReadAs (S.files store.old) set_limit name.now (stated_in name.now)) result }
    ensures lawful { IfOk result (λ set. IsSet (set_view set)) }
    ensures fault { IsErrOf result Halt.ReadFault → Rose (S.faults store.old) (S.faults store.new) }
    ensures later { S.faults store.old ≤ S.faults store.new }
    ensures same { S.files store.new ≡ S.files store.old }
{
    let bytes = match read_file(alloc, store, name, SET_LIMIT) {
        Ok(bytes) => bytes,
        Err(halt) => return Err(halt),
    };
    match read_set(alloc, &bytes) {
        Ok(set) => Ok(set),
        Err(SetFail::OutOfMemory) => Err(Halt::OutOfMemory),
        Err(fail) => Err(Halt::Answered(form_answer(alloc, name, &bytes, &fail)?)),
    }
}
