// The rows of a picture: their names, the releases of jobs, and the last deadlines.
ghost use Rattle.std.specs.Prelude.{◌≡◌, ◌*◌, ◌++◌, [], IfOk, OnOk, length, slice_get, string_bytes};
ghost use Rattle.std.specs.Option.{option_map_or};
ghost use Rattle.prem_report.specs.Report.{in_turn};
ghost use Rattle.prem_chart.specs.Places.{IsView};
ghost use Rattle.prem_chart.specs.Head.{device_key};
ghost use Rattle.prem_chart.specs.Rows.{all_releases, arrow_path, arrow_text, base_text, deadline_path, deadline_shown, deadline_text, deadline_told, device_keys, each_text, every_text, is_marked, jobs_told, labels_text, later_release, name_start, plain_end, plain_label, release_shown, release_told, releases_text, task_label};

use crate::bars::{cycle_told, push_owner};
use crate::head::push_device_key;
use crate::placing::{bus_top, idle_top, place, task_top};
use crate::text::push_escaped;
use crate::view::{Canvas, View};
use prem_image::{DeviceRecord, TaskRecord};
use std::alloc::{AllocError, Global};

/// A line below the bars of a row.
#[tactic(auto, unfolding(crate::specs::Rows::base_text))]
pub(crate) fn base_text(alloc: Global, y: u32) -> Result<String, AllocError>
    ensures { IfOk result (λ s. string_bytes s ≡ base_text y) }
{
    format!(in alloc; "<path class=\"base\" d=\"M1400 {y}h10300\"/>\n")
}

/// How many jobs a task has, behind its name.
#[tactic(auto, unfolding(crate::specs::Rows::jobs_told))]
fn jobs_told(alloc: Global, period: u32, jobs: u32) -> Result<String, AllocError>
    ensures { IfOk result (λ s. string_bytes s ≡ jobs_told period jobs) }
{
    format!(in alloc; ": {jobs} jobs, one every {period} cycles</title>")
}

/// The beginning of the name of a row.
#[tactic(auto, unfolding(crate::specs::Rows::name_start))]
pub(crate) fn name_start(alloc: Global, y: u32) -> Result<String, AllocError>
    ensures { IfOk result (λ s. string_bytes s ≡ name_start y) }
{
    format!(in alloc; "<text class=\"name\" x=\"1250\" y=\"{y}\">")
}

/// The period of a task, behind the name of its row.
#[tactic(auto, unfolding(crate::specs::Rows::every_text))]
fn every_text(alloc: Global, y: u32, period: u32) -> Result<String, AllocError>
    ensures { IfOk result (λ s. string_bytes s ≡ every_text y period) }
{
    format!(in alloc;
        "</text><text class=\"every\" x=\"1250\" y=\"{y}\">every {period}</text></g>\n"
    )
}

/// The name of the row of a task.
fn push_task_label(
    alloc: Global,
    text: &mut Vec<u8>,
    sheet: Canvas,
    k: u16,
    task: &TaskRecord,
) -> Result<(), AllocError>
    ensures { OnOk result (text.new.items ≡ text.old.items ++ task_label sheet k task.now) }
{
    let top = task_top(sheet, k);
    push_owner(text, task.name.text())?;
    text.extend_from_slice(jobs_told(alloc, task.period, task.jobs)?.as_bytes())?;
    text.extend_from_slice(name_start(alloc, top + 280)?.as_bytes())?;
    push_escaped(text, task.name.text().as_bytes())?;
    text.extend_from_slice(every_text(alloc, top + 410, task.period)?.as_bytes())?;
    text.extend_from_slice(base_text(alloc, top + 430)?.as_bytes())
}

/// The name of the row of the task with this number, where there is one.
fn push_task_label_at(
    alloc: Global,
    text: &mut Vec<u8>,
    sheet: Canvas,
    tasks: &[TaskRecord],
    k: u16,
) -> Result<(), AllocError>
    ensures { OnOk result (text.new.items ≡ text.old.items ++ option_map_or (task_label sheet k) (slice_get tasks.now k) []) }
{
    match tasks.get(k as usize) {
        Some(task) => push_task_label(alloc, text, sheet, k, task),
        None => Ok(()),
    }
}

/// The names of the rows of so many tasks, which are all.
fn push_task_labels(
    alloc: Global,
    text: &mut Vec<u8>,
    sheet: Canvas,
    tasks: &[TaskRecord],
    count: u16,
) -> Result<(), AllocError>
    requires { length tasks.now ≡ count }
    ensures { OnOk result (text.new.items ≡ text.old.items ++ each_text (task_label sheet) tasks.now) }
{
    'labels: for k in 0..count {
        push_task_label_at(alloc, text, sheet, tasks, k)?;
    }
    Ok(())
}

/// The end of the name of a row without a task, and the line below it.
#[tactic(auto, unfolding(crate::specs::Rows::plain_end))]
fn plain_end(alloc: Global, row: &str, y: u32) -> Result<String, AllocError>
    ensures { IfOk result (λ s. string_bytes s ≡ plain_end row.now y) }
{
    format!(in alloc; "{row}</text>\n<path class=\"base\" d=\"M1400 {y}h10300\"/>\n")
}

/// The name of a row without a task.
fn push_plain_label(
    alloc: Global,
    text: &mut Vec<u8>,
    row: &str,
    y: u32,
    below: u32,
) -> Result<(), AllocError>
    ensures { OnOk result (text.new.items ≡ text.old.items ++ plain_label row.now y below) }
{
    text.extend_from_slice(name_start(alloc, y)?.as_bytes())?;
    text.extend_from_slice(plain_end(alloc, row, below)?.as_bytes())
}

/// The names of all rows.
#[tactic(auto, unfolding(crate::specs::Rows::labels_text))]
pub(crate) fn push_labels(
    alloc: Global,
    text: &mut Vec<u8>,
    sheet: Canvas,
    tasks: &[TaskRecord],
    count: u16,
) -> Result<(), AllocError>
    requires { length tasks.now ≡ count }
    ensures { OnOk result (text.new.items ≡ text.old.items ++ labels_text sheet tasks.now) }
{
    push_task_labels(alloc, text, sheet, tasks, count)?;
    let (idle, bus) = (idle_top(sheet), bus_top(sheet));
    push_plain_label(alloc, text, "idle", idle + 215, idle + 240)?;
    push_plain_label(alloc, text, "bus", bus + 275, bus + 360)
}

/// Whether a cycle is in the window, or just behind it.
fn is_marked(view: View, cycle: u64) -> bool
    ensures { result ≡ is_marked view cycle }
{
    view.first <= cycle && cycle <= view.behind
}

/// What is told of the release of a job behind the first one.
#[tactic(auto, unfolding(crate::specs::Rows::later_release))]
fn later_release(alloc: Global, job: u32) -> Result<String, AllocError>
    ensures { IfOk result (λ s. string_bytes s ≡ later_release job) }
{
    let before = job.saturating_sub(1);
    format!(in alloc; ": release of job {job}, deadline of job {before}")
}

/// What is told of the release of a job.
fn release_told(alloc: Global, job: u32) -> Result<String, AllocError>
    ensures { IfOk result (λ s. string_bytes s ≡ release_told job) }
{
    if job == 0 {
        String::from_str(alloc, ": release of job 0")
    } else {
        later_release(alloc, job)
    }
}

/// The line with a point of a release at this place.
#[tactic(auto, unfolding(crate::specs::Rows::arrow_path))]
fn arrow_path(alloc: Global, x: u32, y: u32) -> Result<String, AllocError>
    ensures { IfOk result (λ s. string_bytes s ≡ arrow_path x y) }
{
    format!(in alloc; "<path class=\"release\" d=\"M{x} {y}v390m0 -310l-40 -75h80z\"/></g>\n")
}

/// The mark of a release, behind what is told of it.
fn push_arrow(
    alloc: Global,
    text: &mut Vec<u8>,
    sheet: Canvas,
    k: u16,
    cycle: u64,
) -> Result<(), AllocError>
    requires { IsView sheet.view }
    ensures { OnOk result (text.new.items ≡ text.old.items ++ arrow_text sheet k cycle) }
{
    let (x, y) = (place(sheet.view, cycle), task_top(sheet, k) + 40);
    text.extend_from_slice(cycle_told(alloc, cycle)?.as_bytes())?;
    text.extend_from_slice(arrow_path(alloc, x, y)?.as_bytes())
}

/// The release of a job of a task with this name and period.
fn push_release(
    alloc: Global,
    text: &mut Vec<u8>,
    sheet: Canvas,
    k: u16,
    task: &str,
    period: u32,
    job: u32,
) -> Result<(), AllocError>
    requires { IsView sheet.view }
    ensures { OnOk result (text.new.items ≡ text.old.items ++ release_shown sheet k task.now period job) }
{
    let cycle = u64::from(job) * u64::from(period);
    if is_marked(sheet.view, cycle) {
        push_owner(text, task)?;
        text.extend_from_slice(release_told(alloc, job)?.as_bytes())?;
        push_arrow(alloc, text, sheet, k, cycle)?;
    }
    Ok(())
}

/// The dashed line of the last deadline at this place.
#[tactic(auto, unfolding(crate::specs::Rows::deadline_path))]
fn deadline_path(alloc: Global, x: u32, y: u32) -> Result<String, AllocError>
    ensures { IfOk result (λ s. string_bytes s ≡ deadline_path x y) }
{
    format!(in alloc; "<path class=\"deadline\" d=\"M{x} {y}v390\"/></g>\n")
}

/// What is told of the deadline of the last of so many jobs.
#[tactic(auto, unfolding(crate::specs::Rows::deadline_told))]
fn deadline_told(alloc: Global, jobs: u32) -> Result<String, AllocError>
    ensures { IfOk result (λ s. string_bytes s ≡ deadline_told jobs) }
{
    let job = jobs.saturating_sub(1);
    format!(in alloc; ": deadline of job {job}")
}

/// The mark of the last deadline, behind the name of its task.
fn push_deadline_mark(
    alloc: Global,
    text: &mut Vec<u8>,
    sheet: Canvas,
    k: u16,
    jobs: u32,
    cycle: u64,
) -> Result<(), AllocError>
    requires { IsView sheet.view }
    ensures { OnOk result (text.new.items ≡ text.old.items ++ deadline_text sheet k jobs cycle) }
{
    let (x, y) = (place(sheet.view, cycle), task_top(sheet, k) + 40);
    text.extend_from_slice(deadline_told(alloc, jobs)?.as_bytes())?;
    text.extend_from_slice(cycle_told(alloc, cycle)?.as_bytes())?;
    text.extend_from_slice(deadline_path(alloc, x, y)?.as_bytes())
}

/// The deadline of the last job of a task with this name and period.
fn push_deadline(
    alloc: Global,
    text: &mut Vec<u8>,
    sheet: Canvas,
    k: u16,
    task: &str,
    period: u32,
    jobs: u32,
) -> Result<(), AllocError>
    requires { IsView sheet.view }
    ensures { OnOk result (text.new.items ≡ text.old.items ++ deadline_shown sheet k task.now period jobs) }
{
    let cycle = u64::from(jobs) * u64::from(period);
    if is_marked(sheet.view, cycle) {
        push_owner(text, task)?;
        push_deadline_mark(alloc, text, sheet, k, jobs, cycle)?;
    }
    Ok(())
}

/// The releases of a task, and its last deadline.
fn push_task_releases(
    alloc: Global,
    text: &mut Vec<u8>,
    sheet: Canvas,
    k: u16,
    task: &TaskRecord,
) -> Result<(), AllocError>
    requires { IsView sheet.view }
    ensures { OnOk result (text.new.items ≡ text.old.items ++ releases_text sheet k task.now) }
{
    push_jobs(alloc, text, sheet, k, task)?;
    push_deadline(
        alloc,
        text,
        sheet,
        k,
        task.name.text(),
        task.period,
        task.jobs,
    )
}

/// The releases of a task.
fn push_jobs(
    alloc: Global,
    text: &mut Vec<u8>,
    sheet: Canvas,
    k: u16,
    task: &TaskRecord,
) -> Result<(), AllocError>
    requires { IsView sheet.view }
    ensures { OnOk result (text.new.items ≡ text.old.items ++ in_turn (release_shown sheet k task.now.name task.now.period) task.now.jobs) }
{
    'jobs: for job in 0..task.jobs {
        push_release(alloc, text, sheet, k, task.name.text(), task.period, job)?;
    }
    Ok(())
}

/// The releases of the task with this number, where there is one.
fn push_task_releases_at(
    alloc: Global,
    text: &mut Vec<u8>,
    sheet: Canvas,
    tasks: &[TaskRecord],
    k: u16,
) -> Result<(), AllocError>
    requires { IsView sheet.view }
    ensures { OnOk result (text.new.items ≡ text.old.items ++ option_map_or (releases_text sheet k) (slice_get tasks.now k) []) }
{
    match tasks.get(k as usize) {
        Some(task) => push_task_releases(alloc, text, sheet, k, task),
        None => Ok(()),
    }
}

/// The releases of so many tasks, which are all.
#[tactic(auto, unfolding(crate::specs::Rows::all_releases))]
pub(crate) fn push_releases(
    alloc: Global,
    text: &mut Vec<u8>,
    sheet: Canvas,
    tasks: &[TaskRecord],
    count: u16,
) -> Result<(), AllocError>
    requires view { IsView sheet.view }
    requires count { length tasks.now ≡ count }
    ensures { OnOk result (text.new.items ≡ text.old.items ++ all_releases sheet tasks.now) }
{
    'tasks: for k in 0..count {
        push_task_releases_at(alloc, text, sheet, tasks, k)?;
    }
    Ok(())
}

/// The key of the device with this number, where there is one.
fn push_device_key_at(
    alloc: Global,
    text: &mut Vec<u8>,
    devices: &[DeviceRecord],
    k: u16,
) -> Result<(), AllocError>
    ensures { OnOk result (text.new.items ≡ text.old.items ++ option_map_or (λ d. device_key k d.device.name) (slice_get devices.now k) []) }
{
    match devices.get(k as usize) {
        Some(device) => push_device_key(alloc, text, k, device.device.name.text()),
        None => Ok(()),
    }
}

/// The keys of so many devices, which are all.
pub(crate) fn push_device_keys(
    alloc: Global,
    text: &mut Vec<u8>,
    devices: &[DeviceRecord],
    count: u16,
) -> Result<(), AllocError>
    requires { length devices.now ≡ count }
    ensures { OnOk result (text.new.items ≡ text.old.items ++ device_keys devices.now) }
{
    'devices: for k in 0..count {
        push_device_key_at(alloc, text, devices, k)?;
    }
    Ok(())
}
