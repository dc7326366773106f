// The breaches in functions.
ghost use Rattle.std.specs.Prelude.{◌≡◌, ◌&&◌, ◌||◌, ◌==◌, not, is_some, is_none, length, IfOk, OnOk};
ghost use Rattle.prem_syntax.specs.SyntaxOf.{function_of};
ghost use Rattle.prem_syntax.specs.Rules.{first_of};
ghost use Rattle.prem_syntax.specs.Breaches.{is_void, is_job_name, is_marked_text, in_heading, in_function};
ghost use Rattle.prem_names.specs.Scopes.{scope_of, SameItems};
ghost use Rattle.prem_check.specs.FoundOf.{found_of};

use crate::call::{Around, is_void};
use crate::declaration::{has_name, in_locals, in_parameters, is_narrow};
use crate::expression::in_option;
use crate::found::{Broken, Rule, earlier, if_at, if_type_at};
use crate::global::in_mark;
use crate::statement::in_statements;
use prem_names::{Index, Names};
use prem_syntax::{Function, TypeRule};
use std::alloc::AllocError;

/// Whether a function has the name `job`.
pub fn is_job(f: &Function) -> bool
    ensures { result ≡ is_job_name (function_of f.now).name }
{
    f.name.bytes() == b"job".as_slice()
}

/// Whether a void function has a result, or another has none.
fn has_wrong_result(f: &Function) -> bool
    ensures { result ≡ ((is_void f.now.ty && is_some (function_of f.now).result) || (not (is_void f.now.ty) && is_none (function_of f.now).result)) }
{
    match &f.result {
        Some(_) => is_void(f.ty),
        None => !is_void(f.ty),
    }
}

fn is_wrongly_marked(f: &Function) -> bool
    ensures { result ≡ (is_marked_text (function_of f.now) && (not (is_void f.now.ty) || is_job_name (function_of f.now).name)) }
{
    f.mark.is_some() && (!is_void(f.ty) || is_job(f))
}

fn is_wrong_job(f: &Function) -> bool
    ensures { result ≡ (is_job_name (function_of f.now).name && not (is_void f.now.ty && length (function_of f.now).params == 0)) }
{
    is_job(f) && !(is_void(f.ty) && f.params.items().len() == 0)
}

/// What is said of a function at its name, behind items with these names.
fn in_heading<'a>(before: &Index, f: &'a Function) -> Option<Broken<'a>>
    ensures { found_of result ≡ first_of (in_heading (before.now) (function_of f.now)) }
{
    let twice = if_at(
        has_name(before, &f.name),
        f.at,
        Rule::Twice { name: &f.name },
    );
    let narrow = if_type_at(is_narrow(f.ty), f.at, TypeRule::Narrow);
    let result = if_type_at(has_wrong_result(f), f.at, TypeRule::Return);
    let marked = if_type_at(is_wrongly_marked(f), f.at, TypeRule::Marked);
    let job = if_type_at(is_wrong_job(f), f.at, TypeRule::Job);
    earlier(
        earlier(earlier(earlier(twice, narrow), result), marked),
        job,
    )
}

/// The first breach in a function: the names of all items, those before it, its number, and whether it is marked or
/// reached from a marked one.
pub fn in_function<'a>(
    items: &Index,
    before: &Index,
    number: usize,
    is_within_marked: bool,
    names: &mut Names<'a>,
    f: &'a Function,
) -> Result<Option<Broken<'a>>, AllocError>
    ensures found { IfOk result (λ found. found_of found
        ≡ first_of (in_function (scope_of names.old).functions (items.now) number is_within_marked (scope_of names.old).globals (before.now) (function_of f.now))) }
    ensures names { OnOk result (SameItems (scope_of names.new) (scope_of names.old)) }
{
    names.drop_locals();
    let head = earlier(in_mark(names, &f.mark), in_heading(before, f));
    let params = in_parameters(items, names, f.params.items())?;
    let locals = in_locals(items, names, f.locals.items())?;
    let declared = earlier(earlier(head, params), locals);
    let around = Around {
        names,
        number,
        is_job: is_job(f),
        is_within_marked,
    };
    let body = earlier(declared, in_statements(&around, f.body.items()));
    Ok(earlier(body, in_option(names, &f.result)))
}
