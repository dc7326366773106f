// The words of the command line.
ghost use Rattle.std.specs.Prelude.{◌≡◌, ◌==◌, ◌≤◌, [], not, length, map, option_map, IfOk, string_bytes};
ghost use Rattle.std.specs.List.{prefix_len};
ghost use Rattle.std.specs.Str.{bytes_eq};
ghost use Rattle.prem_plant.specs.Label.{is_name};
ghost use Rattle.prem_time.specs.Words.{asked_of, back_of, distance_in, distances_behind, every_in, front_of, is_named};
ghost use Rattle.prem_time.specs.Asked.{asked_in, distance_of, distances_in};

use prem_answer::is_file;
use prem_line::number_up_to;
use prem_plant::has_name_bytes;
use std::alloc::{AllocError, Global};

/// The greatest number of cycles that words tell.
const MOST_CYCLES: u64 = 1 << 40;

/// The requests of a device are at least so many cycles apart.
#[derive(Clone, Copy)]
pub struct Distance<'a> {
    /// Its name.
    pub device: &'a [u8],
    /// In cycles, 1 to 2^40.
    pub every: u64,
}

/// The file of a set, and how far apart the requests of some of its devices are.
#[derive(Drop)]
pub(crate) struct TimesAsked<'a> {
    pub(crate) set: &'a str,
    pub(crate) distances: Vec<Distance<'a>>,
}

/// How many bytes stand before the first `=`.
fn front_len(word: &[u8]) -> usize
    ensures len { result ≡ prefix_len (λ b. not (b == 61)) word.now }
    ensures within { result ≤ length word.now }
{
    word.iter().take_while(|byte| **byte != b'=').count()
}

/// Those bytes.
fn front_of(word: &[u8]) -> &[u8]
    ensures { result.now ≡ front_of word.now }
{
    &word[..front_len(word)]
}

/// The bytes behind it.
fn back_of(word: &[u8]) -> &[u8]
    ensures { result.now ≡ back_of word.now }
{
    let len = front_len(word);
    if len < word.len() {
        &word[len + 1..]
    } else {
        &[]
    }
}

/// The cycles that a word tells: 1 to 2^40.
fn every_in(word: &[u8]) -> Option<u64>
    ensures { result ≡ every_in word.now }
{
    match number_up_to(back_of(word), MOST_CYCLES) {
        Some(0) | None => None,
        Some(every) => Some(every),
    }
}

/// Whether a task or a device may have this name.
fn is_name(bytes: &[u8]) -> bool
    ensures { result ≡ is_name bytes.now }
{
    !bytes.is_empty() && bytes.len() <= 32 && has_name_bytes(bytes)
}

/// `DEVICE=CYCLES`.
fn distance_in(word: &[u8]) -> Option<Distance>
    ensures { option_map distance_of result ≡ distance_in word.now }
{
    if !is_name(front_of(word)) {
        return None;
    }
    match every_in(word) {
        Some(every) => Some(Distance {
            device: front_of(word),
            every,
        }),
        None => None,
    }
}

/// Whether two names are the same.
pub(crate) fn is_same(name: &[u8], other: &[u8]) -> bool
    ensures { result ≡ bytes_eq name.now other.now }
{
    name == other
}

/// Whether one of some distances is that of a device of this name.
fn is_named(name: &[u8], distances: &[Distance]) -> bool
    ensures { result ≡ is_named name.now (distances_in distances.now) }
{
    for distance in distances {
        if is_same(distance.device, name) {
            return true;
        }
    }
    false
}

/// The distances that words tell, each of another device; none where a word tells none. It fails only for want of memory.
pub fn distances_in<'a>(
    alloc: Global,
    words: &'a [String],
) -> Result<Option<Vec<Distance<'a>>>, AllocError>
    ensures { IfOk result (λ found. option_map (λ all. distances_in all.items) found ≡ distances_behind (map string_bytes words.now) []) }
{
    let mut all = Vec::new(alloc);
    for word in words {
        match distance_in(word.as_bytes()) {
            Some(distance) if !is_named(distance.device, &all) => all.push(distance)?,
            _ => return Ok(None),
        }
    }
    Ok(Some(all))
}

/// What the words ask for, or none where they are other ones.
pub(crate) fn asked_of<'a>(
    alloc: Global,
    words: &'a [String],
) -> Result<Option<TimesAsked<'a>>, AllocError>
    ensures { IfOk result (λ asked. option_map asked_in asked ≡ asked_of (map string_bytes words.now)) }
{
    match words {
        [set, rest @ ..] if is_file(set) => match distances_in(alloc, rest)? {
            Some(distances) => Ok(Some(TimesAsked {
                set: set.as_str(),
                distances,
            })),
            None => Ok(None),
        },
        _ => Ok(None),
    }
}
