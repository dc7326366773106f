// What a run in which devices feed tasks tells.
ghost use Rattle.std.specs.Prelude.{◌≡◌, ◌++◌, ◌≤◌, [], IfOk, OnOk, length, slice_get, string_bytes};
ghost use Rattle.std.specs.List.{flat_map};
ghost use Rattle.std.specs.Option.{option_map_or};
ghost use Rattle.prem_image.specs.Text.{image_text};
ghost use Rattle.prem_set.specs.Run.Text.{list_head, list_line, word_text};
ghost use Rattle.prem_report.specs.Report.{task_name};
ghost use Rattle.prem_mail.specs.Mailing.{mailed_in, state_in};
ghost use Rattle.prem_running.specs.Mail.Text.{lists_text, loss_text, losses_text, lost_line, mailed_text};

use prem_cycle::Stop;
use prem_image::{Image, TaskRecord};
use prem_lru::Policy;
use prem_mail::Mail;
use prem_plant::TaskId;
use prem_report::report;
use std::alloc::{AllocError, Global};

/// The name of a task, and nothing where there is no such task.
fn task_name(tasks: &[TaskRecord], k: TaskId) -> &str
    ensures { result.now ≡ task_name tasks.now k }
{
    match tasks.get(usize::from(k)) {
        Some(task) => task.name.text(),
        None => "",
    }
}

/// A word of a list.
fn word_text(alloc: Global, word: u32) -> Result<String, AllocError>
    ensures { IfOk result (λ s. string_bytes s ≡ word_text word) }
{
    format!(in alloc; " {word}")
}

/// What stands before the words of a list.
fn list_head(alloc: Global, name: &str) -> Result<String, AllocError>
    ensures { IfOk result (λ s. string_bytes s ≡ list_head name.now) }
{
    format!(in alloc; "in {name}")
}

/// The words of a list.
fn push_words(alloc: Global, text: &mut Vec<u8>, words: &[u32]) -> Result<(), AllocError>
    ensures { OnOk result (text.new.items ≡ text.old.items ++ flat_map word_text words.now) }
{
    'words: for word in words {
        text.extend_from_slice(word_text(alloc, *word)?.as_bytes())?;
    }
    Ok(())
}

/// The line of a task's list.
fn push_list(alloc: Global, text: &mut Vec<u8>, name: &str, words: &[u32]) -> Result<(), AllocError>
    ensures { OnOk result (text.new.items ≡ text.old.items ++ list_line name.now words.now) }
{
    text.extend_from_slice(list_head(alloc, name)?.as_bytes())?;
    push_words(alloc, text, words)?;
    text.extend_from_slice("\n".as_bytes())
}

/// The line of the list of the task with this number, where there is one.
fn push_list_of<P: Policy>(
    alloc: Global,
    text: &mut Vec<u8>,
    tasks: &[TaskRecord],
    mail: &Mail<P>,
    k: TaskId,
) -> Result<(), AllocError>
    ensures { OnOk result (text.new.items ≡ text.old.items ++ option_map_or (list_line (task_name tasks.now k)) (slice_get (mailed_in mail.now).mail.lists k) []) }
{
    match mail.words(k) {
        Some(words) => push_list(alloc, text, task_name(tasks, k), words),
        None => Ok(()),
    }
}

/// The lines of all lists.
fn push_lists<P: Policy>(
    alloc: Global,
    text: &mut Vec<u8>,
    tasks: &[TaskRecord],
    mail: &Mail<P>,
) -> Result<(), AllocError>
    requires { length tasks.now ≤ 16 }
    ensures { OnOk result (text.new.items ≡ text.old.items ++ lists_text tasks.now (mailed_in mail.now).mail.lists) }
{
    'tasks: for k in 0..tasks.len() as u16 {
        push_list_of(alloc, text, tasks, mail, k)?;
    }
    Ok(())
}

/// The line of a task's lost values.
fn lost_line(alloc: Global, name: &str, lost: u64) -> Result<String, AllocError>
    ensures { IfOk result (λ s. string_bytes s ≡ lost_line name.now lost) }
{
    format!(in alloc; "lost {name} {lost}\n")
}

/// The line of a task's lost values, where there are some.
fn push_loss(alloc: Global, text: &mut Vec<u8>, name: &str, lost: u64) -> Result<(), AllocError>
    ensures { OnOk result (text.new.items ≡ text.old.items ++ loss_text name.now lost) }
{
    if lost == 0 {
        return Ok(());
    }
    text.extend_from_slice(lost_line(alloc, name, lost)?.as_bytes())
}

/// That of the task with this number, where there is one.
fn push_loss_of<P: Policy>(
    alloc: Global,
    text: &mut Vec<u8>,
    tasks: &[TaskRecord],
    mail: &Mail<P>,
    k: TaskId,
) -> Result<(), AllocError>
    ensures { OnOk result (text.new.items ≡ text.old.items ++ option_map_or (loss_text (task_name tasks.now k)) (slice_get (mailed_in mail.now).mail.lost k) []) }
{
    match mail.lost(k) {
        Some(lost) => push_loss(alloc, text, task_name(tasks, k), lost),
        None => Ok(()),
    }
}

/// The lines of all lost values.
fn push_losses<P: Policy>(
    alloc: Global,
    text: &mut Vec<u8>,
    tasks: &[TaskRecord],
    mail: &Mail<P>,
) -> Result<(), AllocError>
    requires { length tasks.now ≤ 16 }
    ensures { OnOk result (text.new.items ≡ text.old.items ++ losses_text tasks.now (mailed_in mail.now).mail.lost) }
{
    'tasks: for k in 0..tasks.len() as u16 {
        push_loss_of(alloc, text, tasks, mail, k)?;
    }
    Ok(())
}

/// What a run of an image tells that stopped so: the lists, the lost values, and the report.
pub fn mailed_text<P: Policy>(
    alloc: Global,
    image: &Image,
    mail: &Mail<P>,
    stop: Stop,
) -> Result<Vec<u8>, AllocError>
    ensures { IfOk result (λ text. text.items ≡ mailed_text (image_text image.now) (mailed_in mail.now).mail (state_in mail.now) stop) }
{
    let tasks = image.tasks.items();
    let devices = image.devices.items();
    let mut text = Vec::new(alloc);
    push_lists(alloc, &mut text, tasks, mail)?;
    push_losses(alloc, &mut text, tasks, mail)?;
    let told = report(alloc, tasks, devices, false, mail.now(), mail.facts(), stop)?;
    text.extend_from_slice(&told)?;
    Ok(text)
}
