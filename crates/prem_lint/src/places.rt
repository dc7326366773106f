// Where in a text a rule is broken.
ghost use Rattle.std.specs.Prelude.{◌≡◌, IfOk};
ghost use Rattle.std.specs.Option.{option_map};
ghost use Rattle.prem_syntax.specs.SyntaxOf.{item_of, program_of};
ghost use Rattle.prem_syntax.specs.Literals.{ProgramHasWords};
ghost use Rattle.prem_syntax.specs.ProgramRules.{IsWellFormed};
ghost use Rattle.prem_tree.specs.Checked.{checked_program};
ghost use Rattle.prem_ranges.specs.RangesKept.{first_range_breach};
ghost use Rattle.prem_tasks.specs.Told.{told_of};
ghost use Rattle.prem_stages.specs.Stages.{checked_text};
ghost use Rattle.prem_lint.specs.Places.{item_place, named_place, program_place, spot_at, spot_of};
ghost use Rattle.prem_lint.specs.Programs.{HasProgram, function_spot_of, range_spot_of};

use crate::excerpt::place_of;
use crate::spot::Spot;
use prem_analysis::marks::marked_of;
use prem_analysis::see_program;
use prem_syntax::{Item, Place, Program, have_words};
use prem_tasks::Rule;
use prem_tree::Checked;
use prem_tree::resolve::resolve;
use std::alloc::{AllocError, Global};

/// The place of an item, where it is the function with this name.
fn item_place(name: &[u8], item: &Item) -> Option<Place>
    ensures { result ≡ item_place name.now (item_of item.now) }
{
    match item {
        Item::Global(_) => None,
        Item::Function(f) => {
            if f.name.bytes() == name {
                Some(f.at)
            } else {
                None
            }
        }
    }
}

/// The place of the function with this name.
fn named_place(name: &[u8], p: &Program) -> Option<Place>
    ensures { result ≡ named_place name.now (program_of p.now) }
{
    for item in p.items.items() {
        if let Some(at) = item_place(name, item) {
            return Some(at);
        }
    }
    None
}

fn spot_at(place: Option<Place>) -> Spot
    ensures { result ≡ spot_at place }
{
    match place {
        None => Spot::Whole,
        Some(at) => Spot::At {
            line: at.line as usize,
            col: at.col as usize,
        },
    }
}

/// Where a program has the function with this name.
fn function_spot(name: &[u8], program: Option<&Checked>) -> Spot
    ensures { result ≡ function_spot_of name.now (option_map (λ c. checked_text c.now) program.entry) }
{
    match program {
        None => Spot::Whole,
        Some(program) => spot_at(named_place(name, program.program())),
    }
}

/// The place of the first broken rule on ranges of a well-formed program.
#[tactic(auto, using(prem_analysis::proofs::Programs::all_ranged, prem_analysis::proofs::Programs::is_first_range_breach))]
fn breach_place(alloc: Global, p: &Program) -> Result<Option<Place>, AllocError>
    requires formed { IsWellFormed (program_of p.now) }
    requires words { ProgramHasWords (program_of p.now) }
    ensures { IfOk result (λ at. at ≡ option_map (λ b. b.at) (first_range_breach (program_of p.now))) }
{
    let r = resolve(alloc, p)?;
    let marked = marked_of(alloc, &r)?;
    let seen = see_program(alloc, &r, &marked)?;
    match seen.found {
        Some(broken) => Ok(Some(broken.at)),
        None => Ok(None),
    }
}

/// The same of a checked program.
#[tactic(auto, unfolding(crate::specs::Places::program_place))]
fn checked_place(alloc: Global, c: &Checked) -> Result<Option<Place>, AllocError>
    ensures { IfOk result (λ at. at ≡ program_place (program_of (checked_program c.now))) }
{
    let program = c.program();
    have_words(program);
    breach_place(alloc, program)
}

/// A line, with the column of the first broken rule on ranges.
fn range_spot(alloc: Global, line: u32, program: Option<&Checked>) -> Result<Spot, AllocError>
    ensures { IfOk result (λ spot. spot ≡ range_spot_of line (option_map (λ c. checked_text c.now) program.entry)) }
{
    let place = match program {
        None => None,
        Some(program) => checked_place(alloc, program)?,
    };
    match place {
        None => Ok(Spot::Line(line as usize)),
        Some(at) => Ok(Spot::At {
            line: line as usize,
            col: at.col as usize,
        }),
    }
}

/// Where in a text a rule is broken, of which this is the program where the rule is one behind those on programs.
#[tactic(auto, using(crate::proofs::Texts::function_there, crate::proofs::Texts::range_there), unfolding(crate::specs::Places::spot_of))]
pub(crate) fn spot_of(
    alloc: Global,
    rule: &Rule,
    text: &[u8],
    program: Option<&Checked>,
) -> Result<Spot, AllocError>
    requires { HasProgram (told_of rule.now) text.now (option_map (λ c. checked_text c.now) program) }
    ensures { IfOk result (λ spot. spot ≡ spot_of (told_of rule.now) text.now) }
{
    match rule {
        Rule::TooLong => Ok(Spot::Whole),
        Rule::NotText { at } => Ok(place_of(text, *at)),
        Rule::Token { line, col } => Ok(Spot::At {
            line: *line as usize,
            col: *col as usize,
        }),
        Rule::Syntax { line, col } => Ok(Spot::At {
            line: *line as usize,
            col: *col as usize,
        }),
        Rule::TooDeep { line } => Ok(Spot::Line(*line as usize)),
        Rule::Limit { .. } => Ok(Spot::Whole),
        Rule::NoJob => Ok(Spot::Whole),
        Rule::Unknown { line, .. } => Ok(Spot::Line(*line as usize)),
        Rule::Twice { line, .. } => Ok(Spot::Line(*line as usize)),
        Rule::TypeRule { line, .. } => Ok(Spot::Line(*line as usize)),
        Rule::CallOrder { line } => Ok(Spot::Line(*line as usize)),
        Rule::MarkedCall { line } => Ok(Spot::Line(*line as usize)),
        Rule::SystemCall { line } => Ok(Spot::Line(*line as usize)),
        Rule::LoopForm { line } => Ok(Spot::Line(*line as usize)),
        Rule::LoopBound { line } => range_spot(alloc, *line, program),
        Rule::TooLarge { line } => range_spot(alloc, *line, program),
        Rule::ZeroDivisor { line, .. } => range_spot(alloc, *line, program),
        Rule::IndexOutside { line, .. } => range_spot(alloc, *line, program),
        Rule::RegionOutside { line, .. } => range_spot(alloc, *line, program),
        Rule::ArgRange { line, .. } => range_spot(alloc, *line, program),
        Rule::Depth { line } => Ok(Spot::Line(*line as usize)),
        Rule::Frame { function } => Ok(function_spot(function.bytes(), program)),
        Rule::MemoryFull { .. } => Ok(Spot::Whole),
        Rule::Reach { function } => Ok(function_spot(function.bytes(), program)),
        Rule::Conflict { function, .. } => Ok(function_spot(function.bytes(), program)),
        Rule::BoundTooLarge { function } => Ok(function_spot(function.bytes(), program)),
        Rule::Length { function, .. } => Ok(function_spot(function.bytes(), program)),
        Rule::Outputs => Ok(Spot::Whole),
        Rule::Intervals => Ok(Spot::Whole),
    }
}
