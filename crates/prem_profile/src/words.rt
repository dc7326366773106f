// The words of the command line.
ghost use Rattle.std.specs.Prelude.{◌≡◌, codes, map, option_map, string_bytes};
ghost use Rattle.std.specs.Str.{bytes_eq};
ghost use Rattle.prem_profile.specs.Words.{are_files, asked_of, bound_of, cycles_of, files_asked, limited, profile_asked, run_of};

use prem_answer::is_file;
use prem_line::number_up_to;

/// The last cycle up to which a run may be asked to go.
const LAST_CYCLE: u64 = 1 << 50;

/// A set, a run file, and the cycle in which the run stops, where the words tell one.
#[derive(Clone, Copy, Debug)]
pub struct RunWords<'a> {
    pub set: &'a str,
    pub run: &'a str,
    pub cycles: Option<u64>,
}

/// What is profiled.
#[derive(Clone, Copy, Debug)]
pub enum ProfileWords<'a> {
    /// The run of a set.
    Run(RunWords<'a>),
    /// The bound of a set in this file.
    Bound(&'a str),
}

/// Whether a word is that of the option that tells how far the run goes.
fn is_cycles(word: &str) -> bool
    ensures { result ≡ bytes_eq word.now (codes "--cycles") }
{
    word == "--cycles"
}

/// A number of cycles that is there.
fn limited(cycles: Option<u64>) -> Option<Option<u64>>
    ensures { result ≡ limited cycles }
{
    match cycles {
        Some(n) => Some(Some(n)),
        None => None,
    }
}

/// How far the run goes, by the words behind the files.
fn cycles_of(words: &[String]) -> Option<Option<u64>>
    ensures { result ≡ cycles_of (map string_bytes words.now) }
{
    match words {
        [] => Some(None),
        [word, number] => {
            if is_cycles(word.as_str()) {
                limited(number_up_to(number.as_bytes(), LAST_CYCLE))
            } else {
                None
            }
        }
        [_] | [_, _, _, ..] => None,
    }
}

/// Whether both may be files.
fn are_files(set: &str, run: &str) -> bool
    ensures { result ≡ are_files set.now run.now }
{
    is_file(set) && is_file(run)
}

/// The files, and how far the run goes, where the words behind the files tell that.
fn files_asked<'a>(
    set: &'a str,
    run: &'a str,
    cycles: Option<Option<u64>>,
) -> Option<ProfileWords<'a>>
    ensures { option_map profile_asked result ≡ files_asked set.now run.now cycles }
{
    match cycles {
        Some(cycles) => Some(ProfileWords::Run(RunWords { set, run, cycles })),
        None => None,
    }
}

/// Whether a word is that of the option that asks for the bound.
fn is_bound(word: &str) -> bool
    ensures { result ≡ bytes_eq word.now (codes "--bound") }
{
    word == "--bound"
}

/// The bound of a set, where only the set's file stands behind the option.
fn bound_of(words: &[String]) -> Option<ProfileWords<'_>>
    ensures { option_map profile_asked result ≡ bound_of (map string_bytes words.entry.now) }
{
    match words {
        [set] => {
            if is_file(set.as_str()) {
                Some(ProfileWords::Bound(set.as_str()))
            } else {
                None
            }
        }
        [] | [_, _, ..] => None,
    }
}

/// The run of a set.
fn run_of(words: &[String]) -> Option<ProfileWords<'_>>
    ensures { option_map profile_asked result ≡ run_of (map string_bytes words.entry.now) }
{
    match words {
        [] | [_] => None,
        [set, run, words @ ..] => {
            if are_files(set.as_str(), run.as_str()) {
                files_asked(set.as_str(), run.as_str(), cycles_of(words))
            } else {
                None
            }
        }
    }
}

/// What the words say, without the program's name.
pub(crate) fn asked_of(words: &[String]) -> Option<ProfileWords<'_>>
    ensures { option_map profile_asked result ≡ asked_of (map string_bytes words.entry.now) }
{
    match words {
        [] => None,
        [first, rest @ ..] => {
            if is_bound(first.as_str()) {
                bound_of(rest)
            } else {
                run_of(words)
            }
        }
    }
}
