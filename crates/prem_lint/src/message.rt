// What is wrong where a rule is broken.
ghost use Rattle.std.specs.Prelude.{◌≡◌, ◌-◌, ◌++◌, OnOk, decimal, pos};
ghost use Rattle.std.specs.Fmt.{signed_decimal};
ghost use Rattle.prem_word.specs.Ranges.{span_of};
ghost use Rattle.prem_syntax.specs.Name.{name_bytes};
ghost use Rattle.prem_text.specs.declared.lexing.token.fail.FrontFail.TheVariants.{NotText};
ghost use Rattle.prem_layout.specs.Rules.{ConflictIn, Length, MemoryFull};
ghost use Rattle.prem_tasks.specs.Told.{told_of};
ghost use Rattle.prem_lint.specs.Messages.{argument_message, count_message, divisor_message, front_message, index_message, late_message, message, region_message, type_message};
ghost use Rattle.prem_lint.specs.Elements.{array, element, past};

use crate::element::{array, element};
use crate::put::{put_bytes, put_high, put_integer, put_low, put_name, put_number, put_values};
use prem_syntax::{Count, Name, TypeRule};
use prem_tasks::Rule;
use prem_word::Range;
use std::alloc::{AllocError, Global};

fn count_message(which: Count) -> &'static str
    ensures { result.now ≡ count_message which }
{
    match which {
        Count::Functions => "too many functions: a program may have 256",
        Count::Globals => "too many globals: a program may have 256",
        Count::Parameters => "too many parameters: a function may have 8",
        Count::Regions => "too many regions: a function may state 32",
        Count::Length => "the length of an array is out of its range, which is 1 to 65536",
        Count::Stated => "a stated length is out of its range, which is 1 to 2147483647 cycles",
    }
}

fn type_message(rule: TypeRule) -> &'static str
    ensures { result.now ≡ type_message rule }
{
    match rule {
        TypeRule::Void => "a global, parameter or local can't be void",
        TypeRule::Narrow => "a parameter, local or result has to be int or unsigned",
        TypeRule::Scalar => {
            "an array is used without an index, an index without an array, or a function's name as a value"
        }
        TypeRule::Initial => "the initial value doesn't fit what is declared",
        TypeRule::Count => "the call has a wrong number of arguments",
        TypeRule::Target => {
            "the value goes to no parameter or local, or comes from a void function"
        }
        TypeRule::Return => "a void function returns a value, or another one returns none",
        TypeRule::Marked => "a PREDICTABLE function has to be void, and can't be job",
        TypeRule::Region => "the limits of REGION aren't those of elements of the global",
        TypeRule::Range => {
            "the limits of RANGE are out of order, or outside the parameter's type"
        }
        TypeRule::Job => "job has to be void job(void)",
    }
}

/// A name between words.
fn put_named(text: &mut Vec<u8>, before: &str, name: &Name, behind: &str) -> Result<(), AllocError>
    ensures { OnOk result (text.new.items ≡ text.old.items ++ (before.now ++ (name_bytes name.now ++ behind.now))) }
{
    text.extend_from_slice(before.as_bytes())?;
    text.extend_from_slice(name.bytes())?;
    text.extend_from_slice(behind.as_bytes())
}

fn put_not_text(alloc: Global, text: &mut Vec<u8>, at: u32) -> Result<(), AllocError>
    ensures { OnOk result (text.new.items ≡ text.old.items ++ front_message (NotText at)) }
{
    put_bytes(text, b"the byte at offset ")?;
    put_number(alloc, text, at as u64)?;
    put_bytes(text, b" is neither printable ASCII nor a blank")
}

fn put_divisor(alloc: Global, text: &mut Vec<u8>, r: Range) -> Result<(), AllocError>
    ensures { OnOk result (text.new.items ≡ text.old.items ++ divisor_message (span_of r)) }
{
    put_bytes(text, b"the divisor can be 0: it is ")?;
    put_values(alloc, text, r)
}

/// The value of a range that lies past another one.
fn past(high: i64, r: Range) -> i64
    ensures { result ≡ past high (span_of r) }
{
    if high < r.hi { r.hi } else { r.lo }
}

/// The element with which the rest of a line begins.
fn put_element(text: &mut Vec<u8>, rest: &[u8]) -> Result<(), AllocError>
    ensures { OnOk result (text.new.items ≡ text.old.items ++ element rest.now) }
{
    put_bytes(text, element(rest))
}

/// Its array.
fn put_array(text: &mut Vec<u8>, rest: &[u8]) -> Result<(), AllocError>
    ensures { OnOk result (text.new.items ≡ text.old.items ++ array rest.now) }
{
    put_bytes(text, array(rest))
}

/// The value of a range that lies past another one.
fn put_past(alloc: Global, text: &mut Vec<u8>, high: i64, r: Range) -> Result<(), AllocError>
    ensures { OnOk result (text.new.items ≡ text.old.items ++ signed_decimal (past high (span_of r))) }
{
    put_integer(alloc, text, past(high, r))
}

/// The value of a range that lies past a stated one.
fn put_past_stated(
    alloc: Global,
    text: &mut Vec<u8>,
    stated: Range,
    r: Range,
) -> Result<(), AllocError>
    ensures { OnOk result (text.new.items ≡ text.old.items ++ signed_decimal (past (span_of stated).hi (span_of r))) }
{
    put_past(alloc, text, stated.hi, r)
}

/// The value of a range that lies past the last element.
fn put_past_last(alloc: Global, text: &mut Vec<u8>, len: u32, r: Range) -> Result<(), AllocError>
    ensures { OnOk result (text.new.items ≡ text.old.items ++ signed_decimal (past (pos (len - 1)) (span_of r))) }
{
    put_past(alloc, text, i64::from(len.saturating_sub(1)), r)
}

/// The last element.
fn put_last(alloc: Global, text: &mut Vec<u8>, len: u32) -> Result<(), AllocError>
    ensures { OnOk result (text.new.items ≡ text.old.items ++ decimal (len - 1)) }
{
    put_number(alloc, text, len.saturating_sub(1) as u64)
}

fn put_index(
    alloc: Global,
    text: &mut Vec<u8>,
    r: Range,
    len: u32,
    rest: &[u8],
) -> Result<(), AllocError>
    ensures { OnOk result (text.new.items ≡ text.old.items ++ index_message (span_of r) len rest.now) }
{
    put_element(text, rest)?;
    put_bytes(text, b": the index can be ")?;
    put_past_last(alloc, text, len, r)?;
    put_bytes(text, b", and ")?;
    put_array(text, rest)?;
    put_bytes(text, b" has elements 0 to ")?;
    put_last(alloc, text, len)
}

fn put_region(
    alloc: Global,
    text: &mut Vec<u8>,
    function: &Name,
    r: Range,
    global: &Name,
) -> Result<(), AllocError>
    ensures { OnOk result (text.new.items ≡ text.old.items ++ region_message (name_bytes function.now) (span_of r) (name_bytes global.now)) }
{
    put_name(text, function)?;
    put_bytes(text, b" may access ")?;
    put_name(text, global)?;
    put_bytes(text, b" at ")?;
    put_values(alloc, text, r)?;
    put_bytes(text, b" here, and no REGION that it states has that")
}

fn put_argument(
    alloc: Global,
    text: &mut Vec<u8>,
    r: Range,
    stated: Range,
) -> Result<(), AllocError>
    ensures { OnOk result (text.new.items ≡ text.old.items ++ argument_message (span_of r) (span_of stated)) }
{
    put_bytes(text, b"an argument of this call can be ")?;
    put_past_stated(alloc, text, stated, r)?;
    put_bytes(text, b", and its parameter has RANGE(")?;
    put_low(alloc, text, stated)?;
    put_bytes(text, b", ")?;
    put_high(alloc, text, stated)?;
    put_bytes(text, b")")
}

fn put_memory(alloc: Global, text: &mut Vec<u8>, need: u64, have: u32) -> Result<(), AllocError>
    ensures { OnOk result (text.new.items ≡ text.old.items ++ late_message (MemoryFull need have)) }
{
    put_bytes(text, b"the set needs ")?;
    put_number(alloc, text, need)?;
    put_bytes(text, b" bytes of memory, and has ")?;
    put_number(alloc, text, have as u64)
}

fn put_conflict(
    alloc: Global,
    text: &mut Vec<u8>,
    function: &Name,
    set: u32,
    lines: u32,
    ways: u32,
) -> Result<(), AllocError>
    ensures { OnOk result (text.new.items ≡ text.old.items ++ late_message (ConflictIn (name_bytes function.now) set lines ways)) }
{
    put_name(text, function)?;
    put_bytes(text, b" needs ")?;
    put_number(alloc, text, lines as u64)?;
    put_bytes(text, b" lines in set ")?;
    put_number(alloc, text, set as u64)?;
    put_bytes(text, b" of the cache, which has ")?;
    put_number(alloc, text, ways as u64)?;
    put_bytes(text, b" ways")
}

fn put_length(
    alloc: Global,
    text: &mut Vec<u8>,
    function: &Name,
    bound: u64,
    stated: u32,
) -> Result<(), AllocError>
    ensures { OnOk result (text.new.items ≡ text.old.items ++ late_message (Length (name_bytes function.now) bound stated)) }
{
    put_name(text, function)?;
    put_bytes(text, b" needs at least ")?;
    put_number(alloc, text, bound)?;
    put_bytes(text, b" cycles, and states ")?;
    put_number(alloc, text, stated as u64)
}

/// What is wrong. The source goes on so at the place of the rule.
#[tactic(auto, unfolding(crate::specs::Messages::message))]
pub(crate) fn put_message(
    alloc: Global,
    text: &mut Vec<u8>,
    rule: &Rule,
    rest: &[u8],
) -> Result<(), AllocError>
    ensures { OnOk result (text.new.items ≡ text.old.items ++ message (told_of rule.now) rest.now) }
{
    match rule {
        Rule::TooLong => text.extend_from_slice(
            b"the source is too long: it may have 1048576 bytes and 200000 tokens",
        ),
        Rule::NotText { at } => put_not_text(alloc, text, *at),
        Rule::Token { .. } => text.extend_from_slice(b"no token begins here"),
        Rule::Syntax { .. } => {
            text.extend_from_slice(b"this can't follow what stands before it")
        }
        Rule::TooDeep { .. } => text.extend_from_slice(
            b"nested too deeply: an expression may have 256 tokens, and a statement may stand in 63 others",
        ),
        Rule::Limit { which } => text.extend_from_slice(count_message(*which).as_bytes()),
        Rule::NoJob => text.extend_from_slice(b"there is no function job"),
        Rule::Unknown { name, .. } => put_named(text, "", name, " isn't declared here"),
        Rule::Twice { name, .. } => put_named(text, "", name, " is declared a second time"),
        Rule::TypeRule { rule, .. } => text.extend_from_slice(type_message(*rule).as_bytes()),
        Rule::CallOrder { .. } => text.extend_from_slice(
            b"the function called here isn't defined before the one that calls it",
        ),
        Rule::MarkedCall { .. } => {
            text.extend_from_slice(b"a PREDICTABLE function is called outside of job")
        }
        Rule::SystemCall { .. } => text.extend_from_slice(
            b"in() or out() stands in a PREDICTABLE function, or in one that it calls",
        ),
        Rule::LoopForm { .. } => {
            text.extend_from_slice(b"this is neither a counting loop nor a bounded one")
        }
        Rule::LoopBound { .. } => {
            text.extend_from_slice(b"the variable of this loop can pass 2147483647")
        }
        Rule::TooLarge { .. } => text.extend_from_slice(
            b"this loop and those around it can take more than 1099511627776 turns",
        ),
        Rule::ZeroDivisor { range, .. } => put_divisor(alloc, text, *range),
        Rule::IndexOutside { range, len, .. } => put_index(alloc, text, *range, *len, rest),
        Rule::RegionOutside {
            function,
            range,
            global,
            ..
        } => put_region(alloc, text, function, *range, global),
        Rule::ArgRange { range, stated, .. } => put_argument(alloc, text, *range, *stated),
        Rule::Depth { .. } => {
            text.extend_from_slice(b"this expression needs more than 12 registers")
        }
        Rule::Frame { function } => {
            put_named(text, "the frame of ", function, " has more than 2032 bytes")
        }
        Rule::MemoryFull { need, have } => put_memory(alloc, text, *need, *have),
        Rule::Reach { function } => put_named(
            text,
            "a jump in the code of ",
            function,
            " goes further than 1048576 bytes",
        ),
        Rule::Conflict {
            function,
            set,
            lines,
            ways,
        } => put_conflict(alloc, text, function, *set, *lines, *ways),
        Rule::BoundTooLarge { function } => put_named(
            text,
            "the bound of ",
            function,
            " passes 1099511627776 cycles",
        ),
        Rule::Length {
            function,
            bound,
            stated,
        } => put_length(alloc, text, function, *bound, *stated),
        Rule::Outputs => {
            text.extend_from_slice(b"all jobs together can give more than 262143 outputs")
        }
        Rule::Intervals => {
            text.extend_from_slice(b"all jobs together can have more than 262143 intervals")
        }
    }
}
