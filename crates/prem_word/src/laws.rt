// What the table of ranges promises of words.
ghost use Rattle.std.specs.Prelude.{ℕ, ℤ, Bool, ◌<◌, ◌≤◌, ◌^◌, pos, ◌-ℤ◌, ◌⊎◌, IsTrue};
ghost use Rattle.std.specs.Int.{w32, bit_not};
ghost use Rattle.prem_word.specs.Words.{value_in, word_of, truth, apply_op, CanApply};
ghost use Rattle.prem_word.specs.Ranges.{Span, LiesIn, IsRange, IsMeet, whole, truths, encloses, converted, range_of_op, range_negate, range_flip, join, meet, bit_length};
ghost use Rattle.prem_word.specs.Words.{result_kind};

use crate::kind::{BinOp, Kind};

/// Whatever an operator gives at two words whose values lie in two ranges, its value lies in the operator's range. So does
/// a word's value in either kind lie in the converted range, and what `-`, `~`, `!`, `&&` and `||` give in theirs.
pub fn ranges_hold()
    ensures operators { (op : BinOp) (k : Kind) (a b : Span) (v w : ℕ) → v < 2 ^ 32 → w < 2 ^ 32 → LiesIn a (value_in k v) → LiesIn b (value_in k w) → CanApply op w → LiesIn (range_of_op op k a b) (value_in (result_kind op k) (apply_op op k v w)) }
    ensures conversions { (j k : Kind) (r : Span) (w : ℕ) → w < 2 ^ 32 → LiesIn r (value_in j w) → LiesIn (converted k r) (value_in k w) }
    ensures negated { (k : Kind) (a : Span) (w : ℕ) → w < 2 ^ 32 → LiesIn a (value_in k w) → LiesIn (range_negate k a) (value_in k (word_of (pos 0 -ℤ pos w))) }
    ensures flipped { (k : Kind) (a : Span) (w : ℕ) → w < 2 ^ 32 → LiesIn a (value_in k w) → LiesIn (range_flip k a) (value_in k (bit_not w32 w)) }
    ensures truths { (k : Kind) (t : Bool) → LiesIn truths (value_in k (truth t)) }
{}

/// Ranges of a kind give ranges of the result's kind, and a word gives a word, which stands for a number of its kind.
pub fn ranges_are_kept()
    ensures operators { (op : BinOp) (k : Kind) (a b : Span) → IsRange k a → IsRange k b → IsRange (result_kind op k) (range_of_op op k a b) }
    ensures conversions { (j k : Kind) (r : Span) → IsRange j r → IsRange k (converted k r) }
    ensures negated { (k : Kind) (a : Span) → IsRange k (range_negate k a) }
    ensures flipped { (k : Kind) (a : Span) → IsRange k a → IsRange k (range_flip k a) }
    ensures joined { (k : Kind) (a b : Span) → IsRange k a → IsRange k b → IsRange k (join a b) }
    ensures words { (op : BinOp) (k : Kind) (v w : ℕ) → v < 2 ^ 32 → w < 2 ^ 32 → apply_op op k v w < 2 ^ 32 }
    ensures values { (k : Kind) (w : ℕ) → w < 2 ^ 32 → LiesIn (whole k) (value_in k w) }
{}

/// A join holds what either range holds, and no lesser range does. A meet holds what both hold, and there is none exactly
/// where no number is in both.
pub fn joins_and_meets_are_exact()
    ensures joined { (a b : Span) (z : ℤ) → LiesIn a z ⊎ LiesIn b z → LiesIn (join a b) z }
    ensures least { (a b r : Span) → IsTrue (encloses r a) → IsTrue (encloses r b) → IsTrue (encloses r (join a b)) }
    ensures met { (a b : Span) → IsMeet a b (meet a b) }
{}

/// The bit length of a number is the exponent of the least power of two that is above it.
pub fn bit_lengths_are_least()
    ensures enough { (n : ℕ) → n < 2 ^ 64 → n < 2 ^ bit_length n }
    ensures least { (n j : ℕ) → n < 2 ^ 64 → n < 2 ^ j → bit_length n ≤ j }
{}
