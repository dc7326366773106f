// The call.
ghost use Rattle.std.specs.Prelude.{◌≤◌, IfOk};
ghost use Rattle.prem_syntax.specs.SyntaxOf.{program_of};
ghost use Rattle.prem_tree.specs.Checked.{checked_program};
ghost use Rattle.prem_tiling.specs.Shapes.Tile.{tile};
ghost use Rattle.prem_tile.specs.Cutting.Answer.{is_text_past, IsTiled, Tells};

use crate::cutting::fail::TileFail;
use crate::cutting::stages::tile_program;
use prem_syntax::Program;
use prem_tree::Checked;
use std::alloc::Global;

/// Cuts the marked function of a name into `tiles` marked functions, each with the stated length `stated`, in cycles.
///
/// The function has no parameters, its locals begin with a literal or a minus sign before one, and its body is one `for`
/// between two literals that calls nothing. Each tile does its share of the loop's turns, in order; a region whose
/// accesses all follow the loop's variable is narrowed to what the tile can reach. The tiles stand where the function
/// stood, and each statement that calls it becomes a block that calls all of them.
///
/// The refusals come in the order in which `TileFail` lists them. The program with tiles breaks no rule of the language
/// and has the outputs, final globals and inputs used of the program, for all inputs and jobs, or goes wrong in the same
/// line. That all its texts can be compiled isn't promised.
pub fn tile(
    alloc: Global,
    c: &Checked,
    name: &[u8],
    tiles: u32,
    stated: u32,
) -> Result<Program, TileFail>
    requires several { 2 ≤ tiles }
    requires few { tiles ≤ 64 }
    requires some { 1 ≤ stated }
    requires stated { stated ≤ 2147483647 }
    ensures exact { Tells result (tile is_text_past (program_of (checked_program c.now)) name.now tiles stated) }
    ensures kept { IfOk result (λ q. IsTiled (program_of (checked_program c.now)) (program_of q) name.now tiles) }
{
    tile_program(alloc, c.program(), name, tiles, stated)
}
