// The text of a program with tiles.
ghost use Rattle.std.specs.Prelude.{◌≡◌, ◌≤◌, ℕ, List, Ok};
ghost use Rattle.prem_syntax.specs.Syntax.{Text, ProgramText};
ghost use Rattle.prem_syntax.specs.ProgramRules.{IsWellFormed};
ghost use Rattle.prem_text.specs.Texts.{reads};
ghost use Rattle.prem_tiling.specs.Shapes.Tile.{tile};
ghost use Rattle.prem_tile.specs.Cutting.Answer.{is_text_past, IsReadBack};

/// Where a text's program is cut into tiles, the canonical text of the program with tiles is read, and gives it back, places
/// aside.
pub fn tiles_are_read()
    ensures { (text : List ℕ) (p : ProgramText) (name : Text) (tiles stated : ℕ) (q : ProgramText) → reads text ≡ Ok p → IsWellFormed p → 2 ≤ tiles → tiles ≤ 64 → stated ≤ 2147483647 → tile is_text_past p name tiles stated ≡ Ok q → IsReadBack q }
{}
