//! The words of the command line of pictures.
ghost use Rattle.std.specs.Prelude.{◌≡◌, IfOk, false, map, string_bytes};
ghost use Rattle.clap.specs.Words.{app_of, found_of, rows_of, rule_of};
ghost use Rattle.prem_command.specs.Words.{Tells};
ghost use Rattle.prem_command.specs.Chart.{chart_asked, chart_in, chart_of, chart_words, from, to};

use crate::said::WordsFail;
use crate::words::{number_in, read, text_in, two_names};
use clap::{Arg, ArgMatches, Command};
use std::alloc::{AllocError, Global};

/// How the picture of a run is asked for: its files, and the cycles that it shows.
#[derive(Clone, Copy, Debug)]
pub struct ChartWords<'a> {
    pub set: &'a str,
    pub run: &'a str,
    /// The first cycle of the picture, where the words tell it.
    pub from: Option<u64>,
    /// The cycle behind its last one, where they tell it.
    pub to: Option<u64>,
}

/// `--from N`, from 0 to 2^50 - 1
fn from<'a>(alloc: Global) -> Arg<'a>
    ensures rule { rule_of result ≡ from }
    ensures local { result.global ≡ false }
{
    Arg::new(alloc, "from")
        .long("from")
        .value_parser(clap::value_parser!(u64).range(0..=1_125_899_906_842_623))
}

/// `--to N`, from 0 to 2^50
fn to<'a>(alloc: Global) -> Arg<'a>
    ensures rule { rule_of result ≡ to }
    ensures local { result.global ≡ false }
{
    Arg::new(alloc, "to")
        .long("to")
        .value_parser(clap::value_parser!(u64).range(0..=1_125_899_906_842_624))
}

/// FILE RUN [--from N] [--to N]
fn chart_words<'a>(alloc: Global) -> Result<Command<'a>, AllocError>
    ensures { IfOk result (λ c. app_of c ≡ chart_words) }
{
    let command = two_names(alloc)?.arg(from(alloc))?;
    command.arg(to(alloc))
}

/// What is asked of a picture.
fn chart_in<'a>(matches: &ArgMatches<'a>) -> ChartWords<'a>
    ensures { chart_asked result ≡ chart_in (rows_of (found_of matches.now)) }
{
    ChartWords {
        set: text_in(matches, "FILE"),
        run: text_in(matches, "RUN"),
        from: number_in(matches, "from"),
        to: number_in(matches, "to"),
    }
}

/// What the words of the command line of pictures say, without the program's name.
#[tactic(auto, unfolding(crate::specs::Chart::chart_of))]
pub fn chart_command<'a>(alloc: Global, words: &'a [String]) -> Result<ChartWords<'a>, WordsFail>
    ensures { Tells chart_asked result (chart_of (map string_bytes words.entry.now)) }
{
    let matches = read(chart_words(alloc)?, words)?;
    Ok(chart_in(&matches))
}
