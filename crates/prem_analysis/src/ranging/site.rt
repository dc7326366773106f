// What a function stands among.
use prem_list::Sequence;
use prem_syntax::Global;
use prem_tree::resolve::Routine;

/// Elements of a global, by its number.
#[derive(Clone, Copy)]
pub struct Area {
    pub global: usize,
    pub low: u32,
    pub high: u32,
}

/// A marked function with its areas.
#[derive(Drop)]
pub struct Marked {
    pub function: usize,
    pub areas: Sequence<Area>,
    /// For each function of the program whether this one is it, or reaches it.
    pub reached: Vec<bool>,
}

/// The program's globals, functions and marked functions, and the number of the function that is looked at.
#[derive(Clone, Copy)]
pub struct Site<'a, 'p> {
    pub globals: &'a [&'p Global],
    pub routines: &'a [Routine<'p>],
    pub marked: &'a [Marked],
    pub number: usize,
}
