// What is read of a text, and what the text is.
ghost use Rattle.std.specs.Prelude.{◌≡◌, ℕ, List, Ok, Err};
ghost use Rattle.prem_syntax.specs.Syntax.{ProgramText};
ghost use Rattle.prem_text.specs.declared.lexing.token.fail.FrontFail.{FrontFail};
ghost use Rattle.prem_text.specs.Texts.{reads, IsProgramText, IsNoProgram};

/// Reading a text, its tokens first and then the grammar, is exact. It gives a tree exactly where the text divides into
/// tokens that a program of the grammar has within the limits, and that program's tree. It refuses a text for exactly
/// one reason: the text doesn't divide, whatever its tokens are up to there; or no program has a token behind those
/// before it, which are within the limits; or a token is the first past a limit in some program.
pub fn texts_are_exact()
    ensures read { (text : List ℕ) (items : ProgramText) → IsProgramText text items → reads text ≡ Ok items }
    ensures sound { (text : List ℕ) (items : ProgramText) → reads text ≡ Ok items → IsProgramText text items }
    ensures refused { (text : List ℕ) (fail : FrontFail) → reads text ≡ Err fail → IsNoProgram text fail }
    ensures refuses { (text : List ℕ) (fail : FrontFail) → IsNoProgram text fail → reads text ≡ Err fail }
{}
