//! The grammar of the source language, and the laws that hold the reader of its tokens to it.
//!
//! The reader is a definition: a machine that takes one token after the other, with what is open, the innermost
//! first, as its state. The grammar is declared apart from it, by phrases: plain data with one constructor for
//! each alternative, and functions that give a phrase's tokens, its tree, and which of its tokens are past a limit.
ghost use Rattle.std.specs.Prelude.{◌≡◌, ◌≤◌, ◌<◌, ◌++◌, ◌∷◌, ℕ, List, Some, Ok, Err, true, false};
ghost use Rattle.prem_syntax.specs.Syntax.{Expression, Statement, ProgramText};
ghost use Rattle.prem_text.specs.declared.lexing.token.fail.FrontFail.TheVariants.{Syntax, TooDeep};
ghost use Rattle.prem_text.specs.Lexing.Token.Lexeme.{Seen};
ghost use Rattle.prem_text.specs.Grammar.Expression.{State, bottom, wants, ends, stops, move};
ghost use Rattle.prem_text.specs.Grammar.Statement.{Point, leaves, turn};
ghost use Rattle.prem_text.specs.Grammar.Reader.{read};
ghost use Rattle.prem_text.specs.Grammar.Phrases.{Phrase, spelled, tree, IsExpression, Spells};
ghost use Rattle.prem_text.specs.Grammar.StatementPhrases.{StatementPhrases, AreStatements, all_written, all_meant, all_past};
ghost use Rattle.prem_text.specs.Grammar.ProgramPhrases.{ProgramPhrase, IsProgram, program_tokens, program_tree, program_past};
ghost use Rattle.prem_text.specs.Grammar.Law.{moves, is_closer, body_begins, turns, goes_on, limits, ends_body, are_within, IsUnexpected, IsPast};

/// The reader of expressions is exact, for all levels at which it may end. The tokens of an expression are taken,
/// and behind them it ends with the expression's tree; where it ends, the tokens that it took spell the tree. What
/// it took begins an expression, and no expression has those tokens followed by one at which it stops.
pub fn expressions_are_exact()
    ensures read { (least : ℕ) (p : Phrase) (t : Seen) → IsExpression least p → is_closer t.0 ≡ true
        → (s : State) × (moves least (wants bottom) (spelled p) ≡ Some s) × (move least s t ≡ ends (tree p)) }
    ensures sound { (least : ℕ) (ts : List Seen) (s : State) (t : Seen) (e : Expression) → least ≤ 11
        → moves least (wants bottom) ts ≡ Some s → move least s t ≡ ends e → Spells least ts e }
    ensures begun { (least : ℕ) (ts : List Seen) (s : State) → least ≤ 11 → moves least (wants bottom) ts ≡ Some s
        → (rest : List Seen) × (e : Expression) × Spells least (ts ++ rest) e }
    ensures stops { (least : ℕ) (ts : List Seen) (s : State) (t : Seen) → moves least (wants bottom) ts ≡ Some s
        → move least s t ≡ stops → (rest : List Seen) (e : Expression) → Spells least (ts ++ t ∷ rest) e → ⊥ }
{}

/// The reader of the statements of a body is exact. The tokens of statements are taken, and before `}` or `return`
/// it leaves the body with their trees; where it leaves, the tokens that it took spell the statements. What it took
/// begins some statements, and none have those tokens followed by one that it doesn't take. It sees past a limit
/// just those tokens that are: the 257th of an expression and those behind it, and the first token of a statement
/// of nesting 65 or more.
pub fn statements_are_exact()
    ensures read { (ss : StatementPhrases) (t : Seen) → AreStatements ss → ends_body t.0 ≡ true
        → (p : Point) × (turns body_begins (all_written ss) ≡ Some p) × (turn p t ≡ leaves (all_meant ss)) }
    ensures sound { (ts : List Seen) (p : Point) (t : Seen) (statements : List Statement) → turns body_begins ts ≡ Some p
        → turn p t ≡ leaves statements
        → (ss : StatementPhrases) × AreStatements ss × (all_meant ss ≡ statements) × (all_written ss ≡ ts) }
    ensures begun { (ts : List Seen) (p : Point) → turns body_begins ts ≡ Some p
        → (rest : List Seen) × (ss : StatementPhrases) × AreStatements ss × (all_written ss ≡ ts ++ rest) }
    ensures stops { (ts : List Seen) (p : Point) (t : Seen) → turns body_begins ts ≡ Some p → goes_on (turn p t) ≡ false
        → (rest : List Seen) (ss : StatementPhrases) → AreStatements ss → all_written ss ≡ ts ++ t ∷ rest → ⊥ }
    ensures limited { (ss : StatementPhrases) → AreStatements ss → limits body_begins (all_written ss) ≡ all_past 1 ss }
{}

/// The reader of programs is exact. It gives the tree of a program none of whose tokens is past a limit, and what it
/// gives a tree for is such a program. It refuses a token with `Syntax` exactly where the tokens before it begin a
/// program, with none of them past a limit, and no program has that token behind them. (Lines count from 1.) It refuses
/// a token with `TooDeep` exactly where it is the first past a limit in a program, whatever stands behind it.
pub fn programs_are_exact()
    ensures read { (p : ProgramPhrase) → IsProgram p → are_within (program_past p) ≡ true
        → read (program_tokens p) ≡ Ok (program_tree p) }
    ensures sound { (ts : List Seen) (items : ProgramText) → read ts ≡ Ok items
        → (p : ProgramPhrase) × IsProgram p × (program_tokens p ≡ ts) × (program_tree p ≡ items)
        × (are_within (program_past p) ≡ true) }
    ensures stops { (ts : List Seen) (line col : ℕ) → read ts ≡ Err (Syntax line col) → 0 < line
        → IsUnexpected ts line col }
    ensures unexpected { (ts : List Seen) (line col : ℕ) → IsUnexpected ts line col → read ts ≡ Err (Syntax line col) }
    ensures limits { (ts : List Seen) (line : ℕ) → read ts ≡ Err (TooDeep line) → IsPast ts line }
    ensures past { (ts : List Seen) (line : ℕ) → IsPast ts line → read ts ≡ Err (TooDeep line) }
{}
