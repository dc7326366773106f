// Image files and run files of a store.
ghost use Rattle.std.specs.Prelude.{◌≡◌, ◌≢◌, ◌≤◌, IfOk, IsErrOf, string_bytes};
ghost use Rattle.prem_list.specs.Sequence.{items_of};
ghost use Rattle.prem_io.specs.Counts.{Rose};
ghost use Rattle.prem_image.specs.Text.{image_text};
ghost use Rattle.prem_cycle.specs.Inputs.{FitsRun, setup_of, words_of};
ghost use Rattle.prem_imagefile.specs.declared.fail.ImageFail.TheVariants.{OutOfMemory};
ghost use Rattle.prem_answer.specs.Stages.{Comes, IsReadAs, form_by, form_reply, reply_of};
ghost use Rattle.prem_exec.specs.Forms.{image_why, line_why, which_word};
ghost use Rattle.prem_exec.specs.Exec.{image_limit, image_of_bytes, input_of, run_limit, run_of_bytes};

use prem_answer::{Answer, Halt, Telling, form, form_by, read_file};
use prem_gate::RunInput;
use prem_image::Image;
use prem_imagefile::{ImageFail, read_image};
use prem_io::Store;
use prem_report::fitting::read_run_of;
use prem_set::run::{RunFail, Which};
use std::alloc::{AllocError, Global};

/// The bytes that an image file has at most.
const IMAGE_LIMIT: usize = 16_842_752;

/// The bytes that a run file has at most.
const RUN_LIMIT: usize = 4_194_304;

/// Why bytes are no image. Want of memory is no reason.
fn image_why(alloc: Global, fail: ImageFail) -> Result<String, AllocError>
    requires { fail ≢ OutOfMemory }
    ensures { IfOk result (λ s. string_bytes s ≡ image_why fail) }
{
    match fail {
        ImageFail::Magic => String::from_str(alloc, "magic"),
        ImageFail::Version { found } => format!(in alloc; "version {found}"),
        ImageFail::Short { at } => format!(in alloc; "short {at}"),
        ImageFail::Long { at } => format!(in alloc; "long {at}"),
        ImageFail::Field { at } => format!(in alloc; "field {at}"),
        ImageFail::OutOfMemory => unreachable!(),
    }
}

/// The answer to an image file that isn't one.
fn image_form(alloc: Global, name: &str, fail: ImageFail) -> Result<Answer, AllocError>
    requires { fail ≢ OutOfMemory }
    ensures { IfOk result (λ a. reply_of a ≡ form_reply name.now (image_why fail)) }
{
    let why = image_why(alloc, fail)?;
    form(alloc, name, &why)
}

/// Reads an image file.
pub(crate) fn image_file<S: Store>(alloc: Global, store: &mut S, name: &str) -> Result<Image, Halt>
    ensures image { Comes image_text (IsReadAs (S.files store.old) image_limit name.now (image_of_bytes name.now)) result }
    ensures fault { IsErrOf result Halt.ReadFault → Rose (S.faults store.old) (S.faults store.new) }
    ensures later { S.faults store.old ≤ S.faults store.new }
    ensures same { S.files store.new ≡ S.files store.old }
{
    let bytes = match read_file(alloc, store, name, IMAGE_LIMIT) {
        Ok(bytes) => bytes,
        Err(halt) => return Err(halt),
    };
    match read_image(alloc, &bytes) {
        Ok(image) => Ok(image),
        Err(ImageFail::OutOfMemory) => Err(Halt::OutOfMemory),
        Err(fail) => Err(Halt::Answered(image_form(alloc, name, fail)?)),
    }
}

/// The word of what is wrong with a line.
fn which_word(which: Which) -> &'static str
    ensures { result.now ≡ which_word which }
{
    match which {
        Which::Text => "text",
        Which::Word => "word",
        Which::Task => "task",
        Which::Device => "device",
        Which::Number => "number",
        Which::Slot => "slot",
        Which::Order => "order",
        Which::Limit => "limit",
    }
}

/// The answer to a run file whose line n is refused.
pub fn line_form(
    alloc: Global,
    telling: Telling,
    name: &str,
    n: u32,
    which: Which,
) -> Result<Answer, AllocError>
    ensures { IfOk result (λ a. reply_of a ≡ form_by telling name.now (line_why (n, which))) }
{
    let word = which_word(which);
    let why = format!(in alloc; "line {n} {word}")?;
    form_by(alloc, telling, name, &why)
}

/// Reads a run file of an image.
pub(crate) fn run_file<S: Store>(
    alloc: Global,
    store: &mut S,
    name: &str,
    image: &Image,
) -> Result<RunInput, Halt>
    ensures input { Comes input_of (IsReadAs (S.files store.old) run_limit name.now (run_of_bytes (image_text image.now) name.now)) result }
    ensures fits { IfOk result (λ input. FitsRun (setup_of image.now) (words_of input) (items_of input.requests)) }
    ensures fault { IsErrOf result Halt.ReadFault → Rose (S.faults store.old) (S.faults store.new) }
    ensures later { S.faults store.old ≤ S.faults store.new }
    ensures same { S.files store.new ≡ S.files store.old }
{
    let bytes = match read_file(alloc, store, name, RUN_LIMIT) {
        Ok(bytes) => bytes,
        Err(halt) => return Err(halt),
    };
    match read_run_of(alloc, &bytes, image) {
        Ok(input) => Ok(input),
        Err(RunFail::Line { n, which }) => Err(Halt::Answered(line_form(
            alloc,
            Telling::Whole,
            name,
            n,
            which,
        )?)),
        Err(RunFail::OutOfMemory) => Err(Halt::OutOfMemory),
    }
}
