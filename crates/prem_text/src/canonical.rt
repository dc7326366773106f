//! The canonical spelling of a program's tree: its tokens, with the fewest parentheses, and its text; and the laws that say that it is read back.
ghost use Rattle.std.specs.Prelude.{◌≤◌, ℕ, List, map};
ghost use Rattle.prem_syntax.specs.Syntax.{Expression, ProgramText};
ghost use Rattle.prem_text.specs.Lexing.Token.Lexeme.{Seen};
ghost use Rattle.prem_text.specs.Spelling.Spelled.{AreSpellings};
ghost use Rattle.prem_text.specs.Texts.{reads};
ghost use Rattle.prem_text.specs.Canonical.Canonical.{expression_lexemes, program_lexemes};
ghost use Rattle.prem_text.specs.Canonical.Printed.{spelling_of, printed};
ghost use Rattle.prem_text.specs.Canonical.Law.{IsOfText, AreCanonical, IsSpelled, IsTextOf, HasFewest, ReadBack};

/// The canonical tokens of a tree that is, places aside, that of some text: a program of the grammar has just these,
/// wherever they stand, and gives the tree back, places aside; each is spelled by its bytes; and the canonical spelling,
/// however long it is, divides into them.
pub fn canonical_tokens_are_exact()
    ensures grammar { (p : ProgramText) (ts : List Seen) → IsOfText p → AreCanonical p ts → IsSpelled p ts }
    ensures bytes { (p : ProgramText) → IsOfText p → AreSpellings (map spelling_of (program_lexemes p)) }
    ensures text { (p : ProgramText) → IsOfText p → IsTextOf p (printed p) }
{}

/// The canonical tokens of an expression, where one of a level or tighter is wanted, are those of a phrase that has its
/// tree, places aside. No such phrase has fewer parentheses, and none has as few but with these tokens. 11 is the level of
/// a prefix, and no part of a phrase wants a tighter one.
pub fn parentheses_are_fewest()
    ensures { (least : ℕ) (e : Expression) → least ≤ 11 → HasFewest least e (expression_lexemes least e) }
{}

/// The canonical spelling of a tree that is, places aside, that of some text: within the limits of a text, reading it
/// gives the tree back, places aside, unless an expression of it or a statement is past its limit; past the limits it is
/// too long.
pub fn canonical_texts_are_read()
    ensures { (p : ProgramText) → IsOfText p → ReadBack p (reads (printed p)) }
{}
