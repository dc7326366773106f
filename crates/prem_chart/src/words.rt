// The words of the command line: those that tell distances, and all others.
ghost use Rattle.std.specs.Prelude.{◌≡◌, [], IfOk, OnOk, map, option_map, string_bytes};
ghost use Rattle.prem_command.specs.Chart.{chart_asked};
ghost use Rattle.prem_time.specs.Words.{distances_behind};
ghost use Rattle.prem_chart.specs.Words.{asked_by, is_every, parted_from, start, with_distances, with_word};
ghost use Rattle.prem_chart.specs.Asked.{asked_in, parted_in};

use prem_command::WordsFail;
use prem_command::chart::{ChartWords, chart_command};
use prem_time::{Distance, distances_in};
use std::alloc::{AllocError, Global};

/// Words that stand behind a word `--every`, and all others.
#[derive(Drop)]
pub(crate) struct Parted {
    pub(crate) plain: Vec<String>,
    pub(crate) every: Vec<String>,
    /// Whether the last word is an `--every`, with none behind it.
    pub(crate) behind: bool,
}

/// What picture is asked for, and how far apart the requests of some devices are.
#[derive(Drop)]
pub(crate) struct PictureAsked<'a> {
    pub(crate) chart: ChartWords<'a>,
    pub(crate) distances: Vec<Distance<'a>>,
}

/// Whether a distance stands behind this word.
fn is_every(word: &str) -> bool
    ensures { result ≡ is_every word.now }
{
    word == "--every"
}

/// One more word.
fn push_word(alloc: Global, parted: &mut Parted, word: &str) -> Result<(), AllocError>
    ensures { OnOk result (parted_in parted.new ≡ with_word (parted_in parted.old) word.now) }
{
    if parted.behind {
        parted.every.push(String::from_str(alloc, word)?)?;
        parted.behind = false;
    } else if is_every(word) {
        parted.behind = true;
    } else {
        parted.plain.push(String::from_str(alloc, word)?)?;
    }
    Ok(())
}

/// The words that tell distances, and all others.
pub(crate) fn part_words(alloc: Global, words: &[String]) -> Result<Parted, AllocError>
    ensures { IfOk result (λ parted. parted_in parted ≡ parted_from start (map string_bytes words.now)) }
{
    let mut parted = Parted {
        plain: Vec::new(alloc),
        every: Vec::new(alloc),
        behind: false,
    };
    'words: for word in words {
        push_word(alloc, &mut parted, word.as_str())?;
    }
    Ok(parted)
}

/// What words ask for, or none where they are other ones.
fn asked_plain<'a>(
    alloc: Global,
    chart: ChartWords<'a>,
    every: &'a [String],
) -> Result<Option<PictureAsked<'a>>, AllocError>
    ensures { IfOk result (λ asked. option_map asked_in asked ≡ with_distances (chart_asked chart.entry) (distances_behind (map string_bytes every.now) [])) }
{
    match distances_in(alloc, every)? {
        Some(distances) => Ok(Some(PictureAsked { chart, distances })),
        None => Ok(None),
    }
}

/// What words ask for that stand behind no `--every`, with those that stand behind one, or none where they are other ones.
pub(crate) fn asked_of<'a>(
    alloc: Global,
    plain: &'a [String],
    every: &'a [String],
    behind: bool,
) -> Result<Option<PictureAsked<'a>>, AllocError>
    ensures { IfOk result (λ asked. option_map asked_in asked ≡ asked_by (map string_bytes plain.now) (map string_bytes every.now) behind) }
{
    if behind {
        return Ok(None);
    }
    match chart_command(alloc, plain) {
        Ok(chart) => asked_plain(alloc, chart, every),
        Err(WordsFail::Usage) => Ok(None),
        Err(WordsFail::OutOfMemory) => Err(AllocError),
    }
}
