// The rules on ranges that programs break when they have their new ranges, but for regions.
ghost use Rattle.std.specs.Prelude.{◌≡◌, ◌≤◌, ◌<◌, ◌≤ℤ◌, Some, length, map};
ghost use Rattle.prem_word.specs.Ranges.{from_to, span_of};
ghost use Rattle.prem_layout.specs.Rules.{refused_by, over_tasks};
ghost use Rattle.prem_tasks.specs.Stops.{Ends};
ghost use Rattle.prem_tasks.specs.Told.{told_of};
ghost use Rattle.prem_stages.specs.Stages.{checked_text};
ghost use Rattle.prem_analysis.specs.Ranging.View.{rule_of, breach_of};
ghost use Rattle.prem_annotate.specs.Rules.First.{Tellable};
ghost use Rattle.prem_annotate_answer.specs.Written.{other_ranges};
ghost use Rattle.prem_annotate_answer.specs.Steps.{told_nameless};

use prem_analysis::ranging::{Broken, Rule as Breach, table_range};
use prem_annotate::rules::first_other;
use prem_tasks::{Rule, Stop, refused};
use prem_tree::Checked;
use prem_word::Range;
use std::alloc::Global;

fn stated_range(stated: (i64, i64)) -> Range
    requires { stated.0 ≤ℤ stated.1 }
    ensures { span_of result ≡ from_to stated.0 stated.1 }
{
    Range {
        lo: stated.0,
        hi: stated.1,
    }
}

/// The rule that is broken where no marked function watches.
fn rule_of(broken: Broken) -> Rule
    requires { Tellable (rule_of broken.rule) }
    ensures { told_of result ≡ told_nameless (breach_of broken) }
{
    let line = broken.at.line;
    match broken.rule {
        Breach::LoopBound => Rule::LoopBound { line },
        Breach::TooLarge => Rule::TooLarge { line },
        Breach::ZeroDivisor { range } => Rule::ZeroDivisor {
            line,
            range: table_range(range),
        },
        Breach::IndexOutside { range, len } => Rule::IndexOutside {
            line,
            range: table_range(range),
            len,
        },
        Breach::RegionOutside { .. } => unreachable!(),
        Breach::ArgRange { range, stated } => Rule::ArgRange {
            line,
            range: table_range(range),
            stated: stated_range(stated),
        },
    }
}

/// The first rule on ranges but for regions that a task's program breaks when it has its new ranges.
fn other_rules_of(alloc: Global, task: usize, program: &Checked) -> Result<(), Stop>
    requires { task < 16 }
    ensures { Ends result (refused_by (Some task) (other_ranges (checked_text program.now))) }
{
    let found = first_other(alloc, program)?;
    match found {
        Some(broken) => Err(refused(alloc, task, rule_of(broken))),
        None => Ok(()),
    }
}

/// The first rule on ranges but for regions that one of the programs breaks when it has its new ranges.
pub fn other_rules(alloc: Global, programs: &[Checked]) -> Result<(), Stop>
    requires { length programs.now ≤ 16 }
    ensures { Ends result (over_tasks other_ranges (map checked_text programs.now)) }
{
    for n in 0..programs.len() {
        other_rules_of(alloc, n, &programs[n])?;
    }
    Ok(())
}
