// What to do where a rule is broken.
ghost use Rattle.std.specs.Prelude.{◌≡◌, ◌++◌, OnOk};
ghost use Rattle.prem_word.specs.Ranges.{span_of};
ghost use Rattle.prem_syntax.specs.Name.{name_bytes};
ghost use Rattle.prem_layout.specs.Rules.{Length};
ghost use Rattle.prem_tasks.specs.Told.{told_of};
ghost use Rattle.prem_lint.specs.Messages.{advice, argument_advice, count_advice, index_advice, late_advice, region_advice, type_advice};

use crate::put::{put_bytes, put_high, put_low, put_name, put_number, put_values};
use prem_syntax::{Count, Name, TypeRule};
use prem_tasks::Rule;
use prem_word::Range;
use std::alloc::{AllocError, Global};

fn count_advice(which: Count) -> &'static str
    ensures { result.now ≡ count_advice which }
{
    match which {
        Count::Functions => "join functions, or move some into another task",
        Count::Globals => "join globals into arrays, or move some into another task",
        Count::Parameters => "leave some of the values in globals",
        Count::Regions => "state one region for several that lie side by side",
        Count::Length => "give each array 1 to 65536 elements",
        Count::Stated => {
            "write PREDICTABLE(1000000) at first: where that is too short, the least length is told"
        }
    }
}

fn type_advice(rule: TypeRule) -> &'static str
    ensures { result.now ≡ type_advice rule }
{
    match rule {
        TypeRule::Void => "give it a type of values, such as int",
        TypeRule::Narrow => "short and char are types of globals alone; write int or unsigned",
        TypeRule::Scalar => {
            "write name[index] for an element, and a name alone for everything else"
        }
        TypeRule::Initial => {
            "a scalar takes one constant, an array a list in braces that is no longer than the array"
        }
        TypeRule::Count => "give one argument for each parameter",
        TypeRule::Target => "put the value into a local first, and assign that to a global",
        TypeRule::Return => "end it with return and a value exactly where its type isn't void",
        TypeRule::Marked => "let it leave its result in a global, and call it from job",
        TypeRule::Region => {
            "write REGION(name, first, last) with first <= last, and last below the length (0 for a scalar)"
        }
        TypeRule::Range => "write RANGE(low, high) with low <= high, both values of the type",
        TypeRule::Job => "give it its values by in() or by globals",
    }
}

fn put_index(alloc: Global, text: &mut Vec<u8>, r: Range) -> Result<(), AllocError>
    ensures { OnOk result (text.new.items ≡ text.old.items ++ index_advice (span_of r)) }
{
    put_bytes(text, b"the index is ")?;
    put_values(alloc, text, r)?;
    put_bytes(
        text,
        b" here; keep it inside by the limits of a loop, a RANGE or an if on a local",
    )
}

fn put_region(
    alloc: Global,
    text: &mut Vec<u8>,
    function: &Name,
    r: Range,
    global: &Name,
) -> Result<(), AllocError>
    ensures { OnOk result (text.new.items ≡ text.old.items ++ region_advice (name_bytes function.now) (span_of r) (name_bytes global.now)) }
{
    put_bytes(text, b"write REGION(")?;
    put_name(text, global)?;
    put_bytes(text, b", ")?;
    put_low(alloc, text, r)?;
    put_bytes(text, b", ")?;
    put_high(alloc, text, r)?;
    put_bytes(text, b") before ")?;
    put_name(text, function)
}

fn put_argument(alloc: Global, text: &mut Vec<u8>, r: Range) -> Result<(), AllocError>
    ensures { OnOk result (text.new.items ≡ text.old.items ++ argument_advice (span_of r)) }
{
    put_bytes(text, b"the argument is ")?;
    put_values(alloc, text, r)?;
    put_bytes(
        text,
        b" here; widen the RANGE, or keep it inside by an if on a local",
    )
}

fn put_length(
    alloc: Global,
    text: &mut Vec<u8>,
    function: &Name,
    bound: u64,
    stated: u32,
) -> Result<(), AllocError>
    ensures { OnOk result (text.new.items ≡ text.old.items ++ late_advice (Length (name_bytes function.now) bound stated)) }
{
    put_bytes(text, b"write PREDICTABLE(")?;
    put_number(alloc, text, bound)?;
    put_bytes(text, b") or more")
}

/// What to do.
#[tactic(auto, unfolding(crate::specs::Messages::advice))]
pub(crate) fn put_advice(alloc: Global, text: &mut Vec<u8>, rule: &Rule) -> Result<(), AllocError>
    ensures { OnOk result (text.new.items ≡ text.old.items ++ advice (told_of rule.now)) }
{
    match rule {
        Rule::TooLong => {
            text.extend_from_slice(b"split the task into several, or shorten its text")
        }
        Rule::NotText { .. } => text.extend_from_slice(b"outside comments a source is ASCII"),
        Rule::Token { .. } => text.extend_from_slice(
            b"a name has at most 64 characters, a literal at most 32 bits, a comment has an end, and strings and characters are left out",
        ),
        Rule::Syntax { .. } => text.extend_from_slice(
            b"look for a missing ; or ) before it, or for a form of C that the language leaves out",
        ),
        Rule::TooDeep { .. } => text.extend_from_slice(
            b"put a part of the expression into a local, or inner statements into a function",
        ),
        Rule::Limit { which } => text.extend_from_slice(count_advice(*which).as_bytes()),
        Rule::NoJob => text.extend_from_slice(
            b"write void job(void) { .. }: it is what the task does at each release",
        ),
        Rule::Unknown { .. } => {
            text.extend_from_slice(b"declare it above this line, or mend its spelling")
        }
        Rule::Twice { .. } => text.extend_from_slice(
            b"rename one of the two: a parameter or local can't have the name of a global or function either",
        ),
        Rule::TypeRule { rule, .. } => text.extend_from_slice(type_advice(*rule).as_bytes()),
        Rule::CallOrder { .. } => text.extend_from_slice(
            b"move the callee above its caller; a function can't call itself",
        ),
        Rule::MarkedCall { .. } => text.extend_from_slice(b"call it from the body of job"),
        Rule::SystemCall { .. } => text.extend_from_slice(
            b"take inputs into globals before the call of the PREDICTABLE function, and give outputs behind it",
        ),
        Rule::LoopForm { .. } => text.extend_from_slice(
            b"write for (i = low; i < high; i++) over an int that the body doesn't assign, with int limits and a step of 1 to 2047, or BOUNDED(n) while (..) with n of 1 to 1048576",
        ),
        Rule::LoopBound { .. } => { text.extend_from_slice(b"let the loop end at a lower number") }
        Rule::TooLarge { .. } => { text.extend_from_slice(b"give one of these loops fewer turns") }
        Rule::ZeroDivisor { .. } => text.extend_from_slice(
            b"divide by a local, where an if has shown that it is above 0 or below 0",
        ),
        Rule::IndexOutside { range, .. } => put_index(alloc, text, *range),
        Rule::RegionOutside {
            function,
            range,
            global,
            ..
        } => put_region(alloc, text, function, *range, global),
        Rule::ArgRange { range, .. } => put_argument(alloc, text, *range),
        Rule::Depth { .. } => text.extend_from_slice(b"put a part of it into a local first"),
        Rule::Frame { .. } => text.extend_from_slice(
            b"give it fewer locals: each parameter, local and BOUNDED loop takes 4 bytes",
        ),
        Rule::MemoryFull { .. } => {
            text.extend_from_slice(b"raise memory in [plant], or make globals smaller")
        }
        Rule::Reach { .. } => text.extend_from_slice(b"split it into several functions"),
        Rule::Conflict { .. } => text.extend_from_slice(
            b"raise ways or sets in [plant], or let it access less",
        ),
        Rule::BoundTooLarge { .. } => text.extend_from_slice(b"give its loops fewer turns"),
        Rule::Length {
            function,
            bound,
            stated,
        } => put_length(alloc, text, function, *bound, *stated),
        Rule::Outputs => text.extend_from_slice(
            b"let some task have fewer jobs, or give fewer outputs in each",
        ),
        Rule::Intervals => text.extend_from_slice(
            b"let some task have fewer jobs, or call fewer PREDICTABLE functions in each",
        ),
    }
}
