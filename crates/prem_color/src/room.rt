// How many lines of a marked function go into each set of the cache.
ghost use Rattle.std.specs.Prelude.{◌≡◌, ◌≤◌, ◌<◌, ◌-◌, option_map};
ghost use Rattle.prem_layout.specs.Footprint.{last_line_end, line_end, numbers_from};
ghost use Rattle.prem_color.specs.Rooms.{no_lines, with_lines, with_ranges};
ghost use Rattle.prem_color.specs.RoomOf.{room_of};

use prem_foot::{line_end, next_run};

/// The greatest number of sets that a cache may have.
const SETS: usize = 1024;

/// How many lines go into each set, and the first line behind them.
#[derive(Clone, Copy)]
pub(crate) struct Room {
    counts: [u32; 1024],
    at: u64,
}

/// The bytes of a line, the sets of the cache, and the lines that go into one.
#[derive(Clone, Copy)]
pub(crate) struct CacheShape {
    pub line: u64,
    pub sets: u64,
    pub ways: u32,
}

/// The first line behind all those of ranges.
fn last_line_end(ranges: &[(u64, u64)], line: u64) -> u64
    requires { 1 ≤ line }
    ensures { result ≡ last_line_end line ranges.now }
{
    let mut end = 0;
    for range in ranges {
        end = line_end(*range, line).max(end);
    }
    end
}

/// The counts with the lines from one up to another, or none where one of them finds its set full.
fn with_run(counts: [u32; 1024], first: u64, end: u64, sets: u64, ways: u32) -> Option<[u32; 1024]>
    requires order { first ≤ end }
    requires some { 1 ≤ sets }
    requires most { sets ≤ 1024 }
    ensures { result ≡ with_lines sets ways (numbers_from first (end - first)) counts }
{
    let mut counts = counts;
    for n in first..end {
        let set = (n % sets) as usize;
        if counts[set] >= ways {
            return None;
        }
        counts[set] += 1;
    }
    Some(counts)
}

impl Room {
    /// No line.
    pub(crate) fn new() -> Room
        ensures { room_of result ≡ no_lines }
    {
        Room {
            counts: [0; SETS],
            at: 0,
        }
    }

    /// The room with the lines of more ranges that aren't among those so far, or none where one of them finds its set full.
    pub(crate) fn with_ranges(&self, ranges: &[(u64, u64)], cache: CacheShape) -> Option<Room>
        requires line { 1 ≤ cache.line }
        requires some { 1 ≤ cache.sets }
        requires most { cache.sets ≤ 1024 }
        ensures { option_map room_of result ≡ with_ranges cache.line cache.sets cache.«ways» ranges.now (room_of self.now) }
    {
        let mut counts = self.counts;
        let mut at = self.at;
        while let Some((first, end)) = next_run(ranges, cache.line, at) {
            let Some(next) = with_run(counts, first, end, cache.sets, cache.ways) else {
                return None;
            };
            counts = next;
            at = end;
        }
        Some(Room {
            counts,
            at: last_line_end(ranges, cache.line).max(self.at),
        })
    }
}
