// The mail file of a task set.
ghost use Rattle.std.specs.Prelude.{◌≡◌, ◌≤◌, IfOk, IsErrOf, length, map};
ghost use Rattle.prem_io.specs.Counts.{Rose};
ghost use Rattle.prem_tasks.specs.SetOf.{set_of};
ghost use Rattle.prem_mail.specs.Feeds.{AreFeeds};
ghost use Rattle.prem_answer.specs.Stages.{Comes, IsReadAs, form_reply, reply_of};
ghost use Rattle.prem_exec.specs.Sources.Sources.{names_of};
ghost use Rattle.prem_running.specs.Mail.Files.{feeds_of_bytes, line_why, mail_limit, which_word};

use prem_answer::{Answer, Halt, form, read_file};
use prem_exec::sources::names_of;
use prem_io::Store;
use prem_mail::{Feed, MailFail, MailWhich, read_mail};
use prem_tasks::TaskSet;
use std::alloc::{AllocError, Global};

/// The bytes that a mail file has at most.
const MAIL_LIMIT: usize = 1_048_576;

/// The word of what is wrong with a line.
fn which_word(which: MailWhich) -> &'static str
    ensures { result.now ≡ which_word which }
{
    match which {
        MailWhich::Text => "text",
        MailWhich::Word => "word",
        MailWhich::Task => "task",
        MailWhich::Device => "device",
        MailWhich::Number => "number",
        MailWhich::Slot => "slot",
        MailWhich::Twice => "twice",
        MailWhich::Limit => "limit",
    }
}

/// The answer to a mail file whose line n is refused.
fn line_form(alloc: Global, name: &str, n: u32, which: MailWhich) -> Result<Answer, AllocError>
    ensures { IfOk result (λ a. reply_of a ≡ form_reply name.now (line_why (n, which))) }
{
    let word = which_word(which);
    let why = format!(in alloc; "line {n} {word}")?;
    form(alloc, name, &why)
}

/// Reads a mail file of a task set.
pub fn read_mail_file<S: Store>(
    alloc: Global,
    store: &mut S,
    name: &str,
    set: &TaskSet,
) -> Result<Vec<Feed>, Halt>
    ensures feeds { Comes (λ feeds. feeds.items) (IsReadAs (S.files store.old) mail_limit name.now (feeds_of_bytes (set_of set.now) name.now)) result }
    ensures lawful { IfOk result (λ feeds. AreFeeds (length (names_of (set_of set.now)).tasks) (map (λ d. d.1) (names_of (set_of set.now)).devices) feeds.items) }
    ensures fault { IsErrOf result Halt.ReadFault → Rose (S.faults store.old) (S.faults store.new) }
    ensures later { S.faults store.old ≤ S.faults store.new }
    ensures same { S.files store.new ≡ S.files store.old }
{
    let bytes = match read_file(alloc, store, name, MAIL_LIMIT) {
        Ok(bytes) => bytes,
        Err(halt) => return Err(halt),
    };
    let names = names_of(alloc, set)?;
    match read_mail(alloc, &bytes, &names) {
        Ok(feeds) => Ok(feeds),
        Err(MailFail::Line { n, which }) => Err(Halt::Answered(line_form(alloc, name, n, which)?)),
        Err(MailFail::OutOfMemory) => Err(Halt::OutOfMemory),
    }
}
