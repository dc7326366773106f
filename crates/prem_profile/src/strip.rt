// The words of code of a compiled set, and the rows in which they are booked.
ghost use Rattle.std.specs.Prelude.{◌≡◌, ◌+◌, ◌/◌, ◌++◌, length, map, replicate, slice_set, IfOk, OnOk};
ghost use Rattle.prem_profile.specs.Spent.{no_cost};
ghost use Rattle.prem_profile.specs.Strips.{set_rows, strip_of, strip_rows, strip_words};

use crate::cost::{Cost, no_cost};
use std::alloc::{AllocError, Global};

/// The words of a function's code, of a stub or of a start.
#[derive(Drop)]
pub struct Strip {
    /// The number of its task.
    pub task: u16,
    /// What its words are told as.
    pub name: Vec<u8>,
    /// Whether it is called; a start isn't.
    pub called: bool,
    /// The address of the first one.
    pub at: u32,
    /// How many there are.
    pub count: u32,
    /// The line of each.
    pub lines: Vec<u32>,
}

/// The rows of a profile: which one each word of memory has, and their costs, which are nothing.
#[derive(Drop)]
pub struct Rows {
    pub words: Vec<usize>,
    pub costs: Vec<Cost>,
}

/// A word of memory gets a row, if it is there.
pub fn set_row(words: &mut Vec<usize>, place: usize, row: usize)
    ensures { words.new.items ≡ slice_set words.old.items place row }
{
    if place < words.len() {
        words[place] = row;
    }
}

/// So many words of memory from a place on get a row each.
fn set_rows(rows: &mut Rows, place: u32, count: u32) -> Result<(), AllocError>
    ensures words { OnOk result (rows.new.words.items ≡ set_rows rows.old.words.items place (length rows.old.costs.items) count) }
    ensures costs { OnOk result (rows.new.costs.items ≡ rows.old.costs.items ++ replicate count no_cost) }
{
    'words: for n in 0..count {
        let row = rows.costs.len();
        rows.costs.push(no_cost())?;
        set_row(&mut rows.words, place as usize + n as usize, row);
    }
    Ok(())
}

/// The words of strips get their rows.
fn set_strips(rows: &mut Rows, strips: &[Strip]) -> Result<(), AllocError>
    ensures words { OnOk result (rows.new.words.items ≡ strip_rows rows.old.words.items (length rows.old.costs.items) (map strip_of strips.now)) }
    ensures costs { OnOk result (rows.new.costs.items ≡ rows.old.costs.items ++ replicate (strip_words (map strip_of strips.now)) no_cost) }
{
    'strips: for strip in strips {
        set_rows(rows, strip.at / 4, strip.count)?;
    }
    Ok(())
}

/// Zeros for so many words.
pub fn no_rows(alloc: Global, size: usize) -> Result<Vec<usize>, AllocError>
    ensures { IfOk result (λ words. words.items ≡ replicate size 0) }
{
    let mut words = Vec::new(alloc);
    'words: for _ in 0..size {
        words.push(0usize)?;
    }
    Ok(words)
}

/// Costs of so many rows, which are nothing.
fn no_costs(alloc: Global, rows: usize) -> Result<Vec<Cost>, AllocError>
    ensures { IfOk result (λ costs. costs.items ≡ replicate rows no_cost) }
{
    let mut costs = Vec::new(alloc);
    'rows: for _ in 0..rows {
        costs.push(no_cost())?;
    }
    Ok(costs)
}

/// The rows of strips in a memory of so many words, from this row on.
pub fn rows_from(
    alloc: Global,
    first: usize,
    size: usize,
    strips: &[Strip],
) -> Result<Rows, AllocError>
    ensures words { IfOk result (λ rows. rows.words.items ≡ strip_rows (replicate size 0) first (map strip_of strips.now)) }
    ensures costs { IfOk result (λ rows. rows.costs.items ≡ replicate (first + strip_words (map strip_of strips.now)) no_cost) }
{
    let words = no_rows(alloc, size)?;
    let costs = no_costs(alloc, first)?;
    let mut rows = Rows { words, costs };
    set_strips(&mut rows, strips)?;
    Ok(rows)
}
