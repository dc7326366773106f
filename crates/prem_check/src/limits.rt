// The limits of a program, and that it has a `job`.
ghost use Rattle.std.specs.Prelude.{◌≡◌, not, map, length, nat_lt, None};
ghost use Rattle.std.specs.Option.{option_map};
ghost use Rattle.std.specs.List.{list_any};
ghost use Rattle.prem_syntax.specs.Syntax.{FunctionText, GlobalVariable};
ghost use Rattle.prem_syntax.specs.SyntaxOf.{function_of, global_of, mark_of};
ghost use Rattle.prem_syntax.specs.Rules.{Limit, NoJob, first_of};
ghost use Rattle.prem_syntax.specs.Breaches.{if_broken, is_stated, is_length, regions_of, is_job_name, in_limits};
ghost use Rattle.prem_check.specs.FoundOf.{found_of};

use crate::found::{Broken, earlier};
use crate::function::is_job;
use crate::loops::is_between;
use prem_syntax::{Count, Function, Global, Mark};

fn has_many_parameters(functions: &[&Function]) -> bool
    ensures { result ≡ list_any (λ (f : FunctionText). nat_lt 8 (length f.params)) (map (λ f. function_of f.now) functions.now) }
{
    for f in functions {
        if f.params.items().len() > 8 {
            return true;
        }
    }
    false
}

fn regions(mark: &Option<Mark>) -> usize
    ensures { result ≡ length (regions_of (option_map mark_of mark.now)) }
{
    match mark {
        Some(mark) => mark.regions.items().len(),
        None => 0,
    }
}

fn has_many_regions(functions: &[&Function]) -> bool
    ensures { result ≡ list_any (λ (f : FunctionText). nat_lt 32 (length (regions_of f.mark))) (map (λ f. function_of f.now) functions.now) }
{
    for f in functions {
        if regions(&f.mark) > 32 {
            return true;
        }
    }
    false
}

fn is_length(len: Option<u32>) -> bool
    ensures { result ≡ is_length len }
{
    match len {
        Some(n) => is_between(1, 65536, n),
        None => true,
    }
}

fn has_other_length(globals: &[&Global]) -> bool
    ensures { result ≡ list_any (λ (g : GlobalVariable). not (is_length g.len)) (map (λ g. global_of g.now) globals.now) }
{
    for g in globals {
        if !is_length(g.len) {
            return true;
        }
    }
    false
}

fn is_stated(mark: &Option<Mark>) -> bool
    ensures { result ≡ is_stated (option_map mark_of mark.now) }
{
    match mark {
        Some(mark) => is_between(1, 2147483647, mark.stated),
        None => true,
    }
}

fn has_other_stated(functions: &[&Function]) -> bool
    ensures { result ≡ list_any (λ (f : FunctionText). not (is_stated f.mark)) (map (λ f. function_of f.now) functions.now) }
{
    for f in functions {
        if !is_stated(&f.mark) {
            return true;
        }
    }
    false
}

fn has_job(functions: &[&Function]) -> bool
    ensures { result ≡ list_any (λ (f : FunctionText). is_job_name f.name) (map (λ f. function_of f.now) functions.now) }
{
    for f in functions {
        if is_job(f) {
            return true;
        }
    }
    false
}

fn limit<'a>(broken: bool, which: Count) -> Option<Broken<'a>>
    ensures { found_of result ≡ first_of (if_broken broken None (Limit which)) }
{
    if broken {
        Some(Broken::Limit { which })
    } else {
        None
    }
}

/// The first limit that a program is past.
pub fn in_limits<'a>(globals: &[&Global], functions: &[&Function]) -> Option<Broken<'a>>
    ensures { found_of result ≡ first_of (in_limits (map (λ g. global_of g.now) globals.now) (map (λ f. function_of f.now) functions.now)) }
{
    let items = earlier(
        limit(functions.len() > 256, Count::Functions),
        limit(globals.len() > 256, Count::Globals),
    );
    let parameters = limit(has_many_parameters(functions), Count::Parameters);
    let regions = limit(has_many_regions(functions), Count::Regions);
    let length = limit(has_other_length(globals), Count::Length);
    let stated = limit(has_other_stated(functions), Count::Stated);
    earlier(
        earlier(earlier(earlier(items, parameters), regions), length),
        stated,
    )
}

/// That a program has no `job`.
pub fn no_job<'a>(functions: &[&Function]) -> Option<Broken<'a>>
    ensures { found_of result ≡ first_of (if_broken (not (list_any (λ (f : FunctionText). is_job_name f.name) (map (λ f. function_of f.now) functions.now))) None NoJob) }
{
    if has_job(functions) {
        None
    } else {
        Some(Broken::NoJob)
    }
}
