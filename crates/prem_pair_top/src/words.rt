// The words of the command line.
ghost use Rattle.std.specs.Prelude.{◌≡◌, codes, map, option_map, string_bytes};
ghost use Rattle.std.specs.Str.{bytes_eq};
ghost use Rattle.prem_pair_top.specs.Words.{are_files, asked_of, flag_of, limited, options_of, pair_asked, unlimited};

use prem_answer::is_file;
use prem_line::number_up_to;

/// The last cycle up to which a run may be asked to go.
const LAST_CYCLE: u64 = 1 << 50;

/// How far a run goes, and what is told.
#[derive(Clone, Copy, Debug, PartialEq, Eq)]
pub struct Options {
    /// The cycles after which the run stops, where the words tell them.
    pub cycles: Option<u64>,
    /// Whether intervals and transfers are told.
    pub intervals: bool,
}

/// The set and the run file of each core, and how they are run.
#[derive(Clone, Copy, Debug)]
pub struct PairWords<'a> {
    pub set: &'a str,
    pub other_set: &'a str,
    pub run: &'a str,
    pub other_run: &'a str,
    pub options: Options,
}

/// Whether all four may.
fn are_files(a: &str, b: &str, c: &str, d: &str) -> bool
    ensures { result ≡ are_files a.now b.now c.now d.now }
{
    is_file(a) && (is_file(b) && (is_file(c) && is_file(d)))
}

/// Whether a word is that of the option that tells how far the run goes.
fn is_cycles(word: &str) -> bool
    ensures { result ≡ bytes_eq word.now (codes "--cycles") }
{
    word == "--cycles"
}

/// Whether a word is that of the option by which intervals and transfers are told.
fn is_intervals(word: &str) -> bool
    ensures { result ≡ bytes_eq word.now (codes "--intervals") }
{
    word == "--intervals"
}

/// Whether `--intervals` stands there, or nothing.
fn flag_of(words: &[String]) -> Option<bool>
    ensures { result ≡ flag_of (map string_bytes words.now) }
{
    match words {
        [] => Some(false),
        [word] => {
            if is_intervals(word.as_str()) {
                Some(true)
            } else {
                None
            }
        }
        [_, _, ..] => None,
    }
}

/// A limit of cycles, and whether intervals are told.
fn limited(cycles: Option<u64>, flag: Option<bool>) -> Option<Options>
    ensures { result ≡ limited cycles flag }
{
    match cycles {
        None => None,
        Some(n) => match flag {
            Some(intervals) => Some(Options {
                cycles: Some(n),
                intervals,
            }),
            None => None,
        },
    }
}

/// No limit, and whether intervals are told.
fn unlimited(flag: Option<bool>) -> Option<Options>
    ensures { result ≡ unlimited flag }
{
    match flag {
        Some(intervals) => Some(Options {
            cycles: None,
            intervals,
        }),
        None => None,
    }
}

/// What the options say.
fn options_of(words: &[String]) -> Option<Options>
    ensures { result ≡ options_of (map string_bytes words.now) }
{
    match words {
        [] | [_] => unlimited(flag_of(words)),
        [word, number, words @ ..] => {
            if is_cycles(word.as_str()) {
                limited(number_up_to(number.as_bytes(), LAST_CYCLE), flag_of(words))
            } else {
                None
            }
        }
    }
}

/// What the words say, without the program's name.
pub(crate) fn asked_of(words: &[String]) -> Option<PairWords<'_>>
    ensures { option_map pair_asked result ≡ asked_of (map string_bytes words.entry.now) }
{
    match words {
        [] | [_] | [_, _] | [_, _, _] => None,
        [set, other_set, run, other_run, words @ ..] => {
            if !are_files(
                set.as_str(),
                other_set.as_str(),
                run.as_str(),
                other_run.as_str(),
            ) {
                return None;
            }
            match options_of(words) {
                Some(options) => Some(PairWords {
                    set: set.as_str(),
                    other_set: other_set.as_str(),
                    run: run.as_str(),
                    other_run: other_run.as_str(),
                    options,
                }),
                None => None,
            }
        }
    }
}
