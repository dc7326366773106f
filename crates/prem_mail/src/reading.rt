// One line of a mail file.
ghost use Rattle.std.specs.Prelude.{◌≡◌, option_map};
ghost use Rattle.prem_line.specs.Lines.{words_of};
ghost use Rattle.prem_line.specs.Failing.{Gives};
ghost use Rattle.prem_mail.specs.MailFile.{feed_of, feed_words, fed_words, is_fed, last_word, line_read, words_read};
ghost use Rattle.prem_mail.specs.Views.{feed_view};

use crate::fail::{MailLineFail, MailWhich};
use crate::feed::Feed;
use prem_line::{first_word, is_skipped, is_text, number};
use prem_set::run::Names;

/// As many feeds may a mail file have.
const FEEDS: usize = 8192;

/// The words of a feed.
#[derive(Clone, Copy)]
pub(crate) struct WordsOfFeed<'a> {
    device: &'a [u8],
    line: &'a [u8],
    task: &'a [u8],
}

/// These words, where none is behind them.
fn last_word<'a>(
    device: &'a [u8],
    line: &'a [u8],
    task: &'a [u8],
    rest: &[u8],
) -> Option<WordsOfFeed<'a>>
    ensures { option_map feed_view result ≡ last_word device.now line.now task.now (words_of rest.now) }
{
    match first_word(rest) {
        None => Some(WordsOfFeed { device, line, task }),
        Some(_) => None,
    }
}

/// Divides `DEVICE LINE TASK`; none where the words are fewer or more.
#[tactic(auto, unfolding(crate::specs::MailFile::feed_words))]
fn feed_words(line: &[u8]) -> Option<WordsOfFeed<'_>>
    ensures { option_map feed_view result ≡ feed_words (words_of line.now) }
{
    let (device, rest) = first_word(line)?;
    let (line, rest) = first_word(rest)?;
    let (task, rest) = first_word(rest)?;
    last_word(device, line, task, rest)
}

/// Whether one of the feeds is of this device and line.
fn is_fed(feeds: &[Feed], device: u16, line: u64) -> bool
    ensures { result ≡ is_fed feeds.now device line }
{
    feeds.iter().any(|feed| feed.device == device && u64::from(feed.line) == line)
}

/// The feed of these words, behind the others.
#[tactic(auto, unfolding(crate::specs::MailFile::feed_of))]
fn feed_of(names: &Names, feeds: &[Feed], words: &WordsOfFeed<'_>) -> Result<Feed, MailWhich>
    ensures { result ≡ feed_of names.now feeds.now (feed_view words.now) }
{
    let task = names.find_task(words.task).ok_or(MailWhich::Task)?;
    let (device, lines) = names.find_device(words.device).ok_or(MailWhich::Device)?;
    let line = number(words.line).ok_or(MailWhich::Number)?;
    if line >= u64::from(lines) {
        return Err(MailWhich::Slot);
    }
    if is_fed(feeds, device, line) {
        return Err(MailWhich::Twice);
    }
    if feeds.len() >= FEEDS {
        return Err(MailWhich::Limit);
    }
    Ok(Feed {
        device,
        line: line as u32,
        task,
    })
}

/// Reads the words behind `feed`.
#[tactic(auto, unfolding(crate::specs::MailFile::fed_words))]
fn read_feed(names: &Names, feeds: &mut Vec<Feed>, line: &[u8]) -> Result<(), MailLineFail>
    ensures { Gives (λ _. feeds.new.items) result (fed_words names.now feeds.old.items (words_of line.now)) }
{
    let words = feed_words(line).ok_or(MailWhich::Word)?;
    let feed = feed_of(names, feeds, &words)?;
    feeds.push(feed)?;
    Ok(())
}

/// Reads the words of a line, the first of which is `feed`.
fn read_words(
    names: &Names,
    feeds: &mut Vec<Feed>,
    first: &[u8],
    line: &[u8],
) -> Result<(), MailLineFail>
    ensures { Gives (λ _. feeds.new.items) result (words_read names.now feeds.old.items first.now (words_of line.now)) }
{
    if first == b"feed".as_slice() {
        read_feed(names, feeds, line)
    } else {
        Err(MailLineFail::Refused(MailWhich::Word))
    }
}

/// Reads a line.
#[tactic(auto, unfolding(crate::specs::MailFile::line_read))]
pub(crate) fn read_line(
    names: &Names,
    feeds: &mut Vec<Feed>,
    line: &[u8],
) -> Result<(), MailLineFail>
    ensures { Gives (λ _. feeds.new.items) result (line_read names.now feeds.old.items line.now) }
{
    if is_skipped(line) {
        return Ok(());
    }
    if !is_text(line) {
        return Err(MailLineFail::Refused(MailWhich::Text));
    }
    let (first, rest) = first_word(line).ok_or(MailWhich::Word)?;
    read_words(names, feeds, first, rest)
}
