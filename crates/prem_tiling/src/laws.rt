//! Laws of tiles: a program with tiles does what the program did.
ghost use Rattle.std.specs.Prelude.{◌≡◌, ◌≤◌, ℕ, List, Some, Ok};
ghost use Rattle.prem_syntax.specs.Syntax.{Text, ProgramText};
ghost use Rattle.prem_syntax.specs.Resolve.{functions_of, number_named};
ghost use Rattle.prem_syntax.specs.Source.{source};
ghost use Rattle.prem_syntax.specs.ProgramRules.{IsWellFormed};
ghost use Rattle.prem_tiling.specs.Shapes.Tiled.{Cut, tiled};
ghost use Rattle.prem_tiling.specs.Shapes.Tile.{Past, tile};
ghost use Rattle.prem_tiling.specs.Laws.CanCut.{CanCut};
ghost use Rattle.prem_tiling.specs.Laws.Runs.{AreSame};

/// A program that breaks no rule, and the one in which a function of it has been cut into tiles, do the same for all
/// inputs and jobs: both end with the same outputs, globals and number of inputs used, or go wrong at one line. The marked
/// calls are the same, but each call of the function is a call of each tile, of which the first begins with the globals
/// before it, each with those behind the one before it, and the last ends with the globals behind it.
pub fn tiles_do_the_same()
    ensures { (p : ProgramText) (c : Cut) → IsWellFormed p → CanCut p c → (n : ℕ) → number_named (functions_of p) c.function.name ≡ Some n → (inputs : List ℕ) (jobs : ℕ) → AreSame n c.tiles (source p inputs jobs) (source (tiled c p) inputs jobs) }
{}

/// The same of the program that `tile` gives, whatever the limits of texts are.
pub fn tile_keeps_the_meaning()
    ensures { (past : Past) (p : ProgramText) (name : Text) (tiles stated : ℕ) (q : ProgramText) → IsWellFormed p → 2 ≤ tiles → tiles ≤ 64 → tile past p name tiles stated ≡ Ok q → (n : ℕ) → number_named (functions_of p) name ≡ Some n → (inputs : List ℕ) (jobs : ℕ) → AreSame n tiles (source p inputs jobs) (source q inputs jobs) }
{}
