// What is written of the run of a sample.
ghost use Rattle.std.specs.Prelude.{◌≡◌, ◌++◌, ◌%◌, ◌^◌, IfOk, OnOk, map, string_bytes};
ghost use Rattle.std.specs.List.{sum};
ghost use Rattle.prem_cycle.specs.FactsOf.{report_in, task_report};
ghost use Rattle.prem_running.specs.Sample.Sample.{outputs_line, sample_line, sample_text, totals_text, words_of_all};

use prem_cycle::{Facts, Stop, TaskFacts};
use prem_image::{DeviceRecord, TaskRecord};
use prem_report::{push_counts, push_devices, push_stop};
use std::alloc::{AllocError, Global};

/// The output words of all tasks, one task after another.
fn words_of_all(alloc: Global, tasks: &[TaskFacts]) -> Result<Vec<u32>, AllocError>
    ensures { IfOk result (λ words. words.items ≡ words_of_all (map task_report tasks.now)) }
{
    let mut words = Vec::new(alloc);
    'tasks: for task in tasks {
        words.extend_from_slice(task.outputs.items())?;
    }
    Ok(words)
}

/// The sum of words, as a word.
fn sum_of(words: &[u32]) -> u32
    ensures { result ≡ sum words.now % 2 ^ 32 }
{
    let mut total = 0u32;
    'words: for word in words {
        total = total.wrapping_add(*word);
    }
    total
}

/// The line of the seed.
fn sample_line(alloc: Global, seed: u64) -> Result<String, AllocError>
    ensures { IfOk result (λ s. string_bytes s ≡ sample_line seed) }
{
    format!(in alloc; "sample {seed} tasks 4\n")
}

/// The line of the output words.
fn outputs_line(alloc: Global, words: &[u32]) -> Result<String, AllocError>
    ensures { IfOk result (λ s. string_bytes s ≡ outputs_line words.now) }
{
    let (count, total) = (words.len(), sum_of(words));
    format!(in alloc; "outputs {count} sum {total}\n")
}

/// The lines of a report that are of no single task, interval or transfer.
fn push_totals(
    alloc: Global,
    text: &mut Vec<u8>,
    tasks: &[TaskRecord],
    devices: &[DeviceRecord],
    cycles: u64,
    facts: &Facts,
    stop: Stop,
) -> Result<(), AllocError>
    ensures { OnOk result (text.new.items ≡ text.old.items ++ totals_text tasks.now devices.now cycles (report_in facts.now) stop) }
{
    push_counts(alloc, text, cycles, facts)?;
    push_devices(alloc, text, devices, facts)?;
    push_stop(alloc, text, tasks, stop)
}

/// What is written of the run of a sample. It fails only for want of memory.
pub fn sample_text(
    alloc: Global,
    seed: u64,
    tasks: &[TaskRecord],
    devices: &[DeviceRecord],
    cycles: u64,
    facts: &Facts,
    stop: Stop,
) -> Result<Vec<u8>, AllocError>
    ensures { IfOk result (λ text. text.items ≡ sample_text seed tasks.now devices.now cycles (report_in facts.now) stop) }
{
    let words = words_of_all(alloc, facts.tasks.items())?;
    let mut text = sample_line(alloc, seed)?.into_bytes();
    text.extend_from_slice(outputs_line(alloc, &words)?.as_bytes())?;
    push_totals(alloc, &mut text, tasks, devices, cycles, facts, stop)?;
    Ok(text)
}
