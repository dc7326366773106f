// What holds behind either of two ways.
ghost use Rattle.std.specs.Prelude.{◌≡◌};
ghost use Rattle.prem_word.specs.Ranges.{join};
ghost use Rattle.prem_ranges.specs.Environment.{with_range};
ghost use Rattle.prem_analysis.specs.Ranging.View.{span_of, known_of};

use crate::ranging::found::Known;
use crate::ranging::range::Range;

fn join(a: Range, b: Range) -> Range
    ensures { span_of result ≡ join (span_of a) (span_of b) }
{
    Range {
        lo: a.lo.min(b.lo),
        hi: a.hi.max(b.hi),
    }
}

/// What is known of a local behind either of two ways.
pub fn either(l: Known, m: Known) -> Known
    ensures { known_of result ≡ with_range (join (known_of l).range (known_of m).range) (known_of l) }
{
    Known {
        kind: l.kind,
        range: join(l.range, m.range),
    }
}
