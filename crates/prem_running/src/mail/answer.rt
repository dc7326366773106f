// A set is read with its run file and its mail file, compiled and run.
ghost use Rattle.std.specs.Prelude.{◌≡◌, ◌≤◌, IsErrOf, length, map};
ghost use Rattle.prem_io.specs.Counts.{Rose};
ghost use Rattle.prem_command.specs.Words.{mail_asked};
ghost use Rattle.prem_mail.specs.Feeds.{AreFeeds};
ghost use Rattle.prem_answer.specs.Stages.{Comes, IsGiven, reply_of};
ghost use Rattle.prem_exec.specs.Sources.Sources.{names_of};
ghost use Rattle.prem_running.specs.Mail.Mail.{mail_stages, mail_tells};

use crate::mail::files::read_mail_file;
use crate::mail::text::mailed_text;
use crate::running::run_limit;
use crate::teller::{Teller, tell_set};
use prem_answer::{Answer, Halt, Status};
use prem_command::MailWords;
use prem_compile::{Compiled, TaskSet};
use prem_exec::sources::{read_run_file, read_task_set};
use prem_gate::RunInput;
use prem_io::Store;
use prem_lru::Policy;
use prem_mail::{Feed, Mail};
use std::alloc::{AllocError, Global};

/// What runs sets whose devices feed their tasks so.
#[derive(Drop)]
struct Mailer<'a> {
    cycles: Option<u64>,
    feeds: &'a [Feed],
}

impl Teller for Mailer<'_> {
    ghost told = { λ mailer. mail_tells mailer.cycles mailer.feeds.now };

    ghost suits = { λ mailer set. AreFeeds (length (names_of set).tasks) (map (λ d. d.1) (names_of set).devices) mailer.feeds.now };

    fn tell<P: Policy>(
        &self,
        alloc: Global,
        set: &TaskSet,
        input: &RunInput,
        compiled: &Compiled,
    ) -> Result<Answer, AllocError> {
        let limit = run_limit(self.cycles, compiled.limit);
        let mut mail = Mail::<P>::new(alloc, &compiled.image, input, self.feeds)?;
        let stop = mail.run_to(limit);
        Ok(Answer {
            status: Status::Done,
            text: mailed_text(alloc, &compiled.image, &mail, stop)?,
        })
    }
}

/// The answer to `mail SET RUN MAIL`: the set and its sources are read, then the run file, then the mail file, and the set is compiled and run,
/// up to the cycle that the words tell or else to the set's limit. The first of these stages that doesn't go through decides.
pub fn mail_answer<S: Store>(
    alloc: Global,
    asked: &MailWords,
    store: &mut S,
) -> Result<Answer, Halt>
    ensures answer { Comes reply_of (IsGiven (S.files store.old) (mail_stages (mail_asked asked.now))) result }
    ensures fault { IsErrOf result Halt.ReadFault → Rose (S.faults store.old) (S.faults store.new) }
    ensures later { S.faults store.old ≤ S.faults store.new }
    ensures same { S.files store.new ≡ S.files store.old }
{
    let set = match read_task_set(alloc, store, asked.of) {
        Ok(set) => set,
        Err(halt) => return Err(halt),
    };
    let input = match read_run_file(alloc, store, asked.run, &set) {
        Ok(input) => input,
        Err(halt) => return Err(halt),
    };
    let feeds = match read_mail_file(alloc, store, asked.mail, &set) {
        Ok(feeds) => feeds,
        Err(halt) => return Err(halt),
    };
    let mailer = Mailer {
        cycles: asked.cycles,
        feeds: feeds.as_slice(),
    };
    tell_set(alloc, &mailer, &set, &input)
}
