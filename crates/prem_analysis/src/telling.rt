// What is told of a broken rule.
ghost use Rattle.std.specs.Prelude.{◌≡◌, ◌≤ℤ◌, Some};
ghost use Rattle.prem_word.specs.Ranges.{from_to, span_of};
ghost use Rattle.prem_analysis.specs.Ranging.View.{rule_of, breach_of};
ghost use Rattle.prem_analysis.specs.Named.{Named};
ghost use Rattle.prem_analysis.specs.Told.{told_of, said};

use crate::fail::RangeFail;
use crate::ranging::{Broken, Rule, table_range};
use prem_word::Range;

fn stated_range(stated: (i64, i64)) -> Range
    requires { stated.0 ≤ℤ stated.1 }
    ensures { span_of result ≡ from_to stated.0 stated.1 }
{
    Range {
        lo: stated.0,
        hi: stated.1,
    }
}

/// What is told of a broken rule. The numbers that it names are below 65536.
pub fn told(broken: Broken) -> RangeFail
    requires { Named 65536 65536 (rule_of broken.rule) }
    ensures { said result ≡ Some (told_of (breach_of broken)) }
{
    let line = broken.at.line;
    match broken.rule {
        Rule::LoopBound => RangeFail::LoopBound { line },
        Rule::TooLarge => RangeFail::TooLarge { line },
        Rule::ZeroDivisor { range } => RangeFail::ZeroDivisor {
            line,
            range: table_range(range),
        },
        Rule::IndexOutside { range, len } => RangeFail::IndexOutside {
            line,
            range: table_range(range),
            len,
        },
        Rule::RegionOutside {
            function,
            range,
            global,
        } => RangeFail::RegionOutside {
            line,
            function: function as u16,
            range: table_range(range),
            global: global as u16,
        },
        Rule::ArgRange { range, stated } => RangeFail::ArgRange {
            line,
            range: table_range(range),
            stated: stated_range(stated),
        },
    }
}
