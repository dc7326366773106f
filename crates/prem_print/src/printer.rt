// The text of a program.
ghost use Rattle.std.specs.Prelude.{◌≡◌, IfOk};
ghost use Rattle.prem_syntax.specs.SyntaxOf.{program_of};
ghost use Rattle.prem_text.specs.Texts.{reads};
ghost use Rattle.prem_text.specs.Canonical.Printed.{printed};
ghost use Rattle.prem_text.specs.Canonical.Law.{IsOfText, IsTextOf, ReadBack};

use crate::item::push_items;
use prem_syntax::Program;
use std::alloc::{AllocError, Global};

/// The canonical spelling of a program: one blank between each two tokens, the fewest parentheses, `=` for every
/// assignment, `unsigned` without `int`, and decimal literals, with `u` where they are unsigned. It fails only for want of
/// memory.
///
/// Where the tree is, places aside, that of some text, the spelling divides into the tokens of a program of the grammar
/// that has this tree, places aside; and reading it gives the tree back, places aside, unless the spelling is past a limit.
pub fn print(alloc: Global, p: &Program) -> Result<Vec<u8>, AllocError>
    ensures spelling { IfOk result (λ text. text.items ≡ printed (program_of p.now)) }
    ensures tokens { IfOk result (λ text. IsOfText (program_of p.now) → IsTextOf (program_of p.now) text.items) }
    ensures reading { IfOk result (λ text. IsOfText (program_of p.now) → ReadBack (program_of p.now) (reads text.items)) }
{
    let mut text = Vec::new(alloc);
    push_items(&mut text, p.items.items())?;
    text.pop();
    Ok(text)
}
