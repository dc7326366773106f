// The lines of ranges of bytes, and which sets of the cache have room for them.
ghost use Rattle.std.specs.Prelude.{◌≡◌, ◌≤◌, ◌<◌, ◌++◌, ◌%◌, ◌^◌, [], length, slice_index, filter, nat_le, IfOk};
ghost use Rattle.std.specs.List.{list_all};
ghost use Rattle.prem_plant.specs.Ranges.{IsPlant};
ghost use Rattle.prem_layout.specs.Footprint.{lines_of};
ghost use Rattle.prem_wcet.specs.Crowds.{IsCrowd};

use prem_bounds::line_cost;
use prem_foot::{counts_of, lines_of};
use prem_plant::Plant;
use std::alloc::{AllocError, Global};

/// A collection of lines in the sets of the cache.
#[derive(Clone, Copy)]
pub struct Crowd {
    /// How many bytes a line has.
    pub line: u32,
    sets: u32,
    room: u32,
    /// How many lines go into each set.
    counts: [u32; 1024],
    /// Whether all lines of the collection's data have room.
    pub roomy: bool,
    /// What a line costs that is brought in.
    pub miss: u64,
    /// How many lines have room.
    pub held: u64,
    /// Whether all lines have room.
    pub alone: bool,
}

impl Crowd {
    ghost use Rattle.std.specs.Prelude.{◌≡◌, ◌≤◌};
    ghost use Rattle.prem_wcet.specs.Crowds.{IsCache, access_by, fetch_by, has_room};

    /// Whether the set of a line has room for all lines that go into it.
    pub fn has_room(&self, n: u32) -> bool
        requires { IsCache self.now }
        ensures { result ≡ has_room self.now n }
    {
        self.counts[(n % self.sets) as usize] <= self.room
    }

    /// What the fetch of an instruction at a place may miss.
    pub fn fetch(&self, at: u32) -> u64
        requires { IsCache self.now }
        ensures cost { result ≡ fetch_by self.now at }
        ensures small { result ≤ 2000 }
    {
        if self.has_room(at / self.line) {
            0
        } else {
            self.miss
        }
    }

    /// What a load or a store may miss.
    pub fn access(&self) -> u64
        requires { IsCache self.now }
        ensures cost { result ≡ access_by self.now }
        ensures small { result ≤ 2000 }
    {
        if self.roomy { 0 } else { self.miss }
    }
}

/// How many of the lines have room in sets that have so many.
fn roomy_count(lines: &[u32], counts: &[u32; 1024], sets: u32, room: u32) -> u64
    requires some { 1 ≤ sets }
    requires most { sets ≤ 1024 }
    requires short { length lines.now < 2 ^ 32 }
    ensures { result ≡ length (filter (λ n. nat_le (slice_index counts.now (n % sets)) room) lines.now) }
{
    let mut count = 0;
    for n in lines {
        if counts[(*n % sets) as usize] <= room {
            count += 1;
        }
    }
    count
}

/// Whether all of the lines have room in sets that have so many.
fn all_roomy(lines: &[u32], counts: &[u32; 1024], sets: u32, room: u32) -> bool
    requires some { 1 ≤ sets }
    requires most { sets ≤ 1024 }
    ensures { result ≡ list_all (λ n. nat_le (slice_index counts.now (n % sets)) room) lines.now }
{
    for n in lines {
        if counts[(*n % sets) as usize] > room {
            return false;
        }
    }
    true
}

/// A collection of lines, of which these are its data's.
fn crowd_with(lines: &[u32], touched: &[u32], p: &Plant) -> Crowd
    requires plant { IsPlant p.now }
    requires short { length lines.now < 2 ^ 32 }
    ensures { IsCrowd p.now lines.now touched.now result }
{
    let counts = counts_of(lines, p.sets);
    let roomy = all_roomy(touched, &counts, p.sets, p.ways);
    let held = roomy_count(lines, &counts, p.sets, p.ways);
    let miss = line_cost(p);
    Crowd {
        line: p.line,
        sets: p.sets,
        room: p.ways,
        counts,
        roomy,
        miss,
        held,
        alone: held == lines.len() as u64,
    }
}

/// No lines.
pub fn no_crowd(p: &Plant) -> Crowd
    requires { IsPlant p.now }
    ensures { IsCrowd p.now [] [] result }
{
    crowd_with(&[], &[], p)
}

/// Ranges behind others.
fn with_ranges(code: Vec<(u32, u32)>, touched: &[(u32, u32)]) -> Result<Vec<(u32, u32)>, AllocError>
    ensures { IfOk result (λ all. all.items ≡ code.items ++ touched.now) }
{
    let mut all = code;
    for range in touched {
        all.push(*range)?;
    }
    Ok(all)
}

/// The lines of ranges of code and of data.
pub fn crowd_of(
    alloc: Global,
    code: Vec<(u32, u32)>,
    touched: &[(u32, u32)],
    p: &Plant,
) -> Result<Crowd, AllocError>
    requires { IsPlant p.now }
    ensures { IfOk result (IsCrowd p.now (lines_of p.now.line (code.items ++ touched.now)) (lines_of p.now.line touched.now)) }
{
    let data = lines_of(alloc, touched, p.line)?;
    let ranges = with_ranges(code, touched)?;
    let lines = lines_of(alloc, &ranges, p.line)?;
    Ok(crowd_with(&lines, &data, p))
}
