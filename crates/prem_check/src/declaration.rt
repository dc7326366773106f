// The breaches in declarations of parameters and locals.
ghost use Rattle.std.specs.Prelude.{◌≡◌, ◌++◌, map, IfOk, OnOk, not};
ghost use Rattle.prem_syntax.specs.Name.{name_bytes};
ghost use Rattle.prem_syntax.specs.SyntaxOf.{parameter_of, local_of};
ghost use Rattle.prem_syntax.specs.Resolve.{parameter_names, local_names};
ghost use Rattle.prem_syntax.specs.Rules.{OfTypes, first_of};
ghost use Rattle.prem_syntax.specs.Breaches.{if_at, has_name, is_narrow, is_from, fits_type, is_range, in_declared, in_parameters, in_expression, in_locals};
ghost use Rattle.prem_names.specs.Scopes.{scope_of, with_locals};
ghost use Rattle.prem_check.specs.FoundOf.{found_of};
ghost use Rattle.prem_check.specs.Taken.{taken_of};

use crate::call::is_void;
use crate::expression::in_expression;
use crate::found::{Broken, Rule, earlier, if_at, if_type_at};
use prem_names::{Index, Names};
use prem_syntax::{Local, Name, Param, Place, Ty, TypeRule};
use std::alloc::AllocError;

/// Whether a name is among names.
pub fn has_name(all: &Index, name: &Name) -> bool
    ensures { result ≡ has_name all.now (name_bytes name.now) }
{
    all.has(name.bytes())
}

/// Whether a name is that of an item, or of a parameter or local.
#[tactic(auto, using(crate::proofs::Taken::has_name_append))]
fn is_taken(items: &Index, names: &Names, name: &Name) -> bool
    ensures { result ≡ has_name (taken_of items.now (scope_of names.now)) (name_bytes name.now) }
{
    has_name(items, name) || names.has_local(name)
}

/// Whether a type is narrower than int.
pub fn is_narrow(ty: Ty) -> bool
    ensures { result ≡ is_narrow ty }
{
    matches!(ty, Ty::Short | Ty::Ushort | Ty::Schar | Ty::Uchar)
}

fn is_from(low: u32, high: u32, z: i64) -> bool
    ensures { result ≡ is_from low high z }
{
    -i64::from(low) <= z && z <= i64::from(high)
}

fn fits_type(ty: Ty, z: i64) -> bool
    ensures { result ≡ fits_type ty z }
{
    match ty {
        Ty::Void => false,
        Ty::Int => is_from(2147483648, 2147483647, z),
        Ty::Unsigned => is_from(0, 4294967295, z),
        Ty::Short => is_from(32768, 32767, z),
        Ty::Ushort => is_from(0, 65535, z),
        Ty::Schar => is_from(128, 127, z),
        Ty::Uchar => is_from(0, 255, z),
    }
}

fn is_range(ty: Ty, range: Option<(i64, i64)>) -> bool
    ensures { result ≡ is_range ty range }
{
    match range {
        Some((low, high)) => low <= high && fits_type(ty, low) && fits_type(ty, high),
        None => true,
    }
}

/// A parameter or local, among the names of items and those that are declared before.
#[tactic(auto, using(crate::proofs::First::first_of_append))]
fn in_declared<'a>(
    items: &Index,
    names: &Names,
    at: Place,
    ty: Ty,
    name: &'a Name,
) -> Option<Broken<'a>>
    ensures { found_of result ≡ first_of (in_declared (taken_of items.now (scope_of names.now)) at ty (name_bytes name.now)) }
{
    let twice = if_at(is_taken(items, names, name), at, Rule::Twice { name });
    let void = if_type_at(is_void(ty), at, TypeRule::Void);
    let narrow = if_type_at(is_narrow(ty), at, TypeRule::Narrow);
    earlier(earlier(twice, void), narrow)
}

#[tactic(auto, using(crate::proofs::First::first_of_append))]
fn in_parameter<'a>(items: &Index, names: &Names, p: &'a Param) -> Option<Broken<'a>>
    ensures { found_of result ≡ first_of (in_declared (taken_of items.now (scope_of names.now)) p.now.at p.now.ty (name_bytes p.now.name)
        ++ if_at (not (is_range p.now.ty p.now.range)) p.now.at (OfTypes TypeRule.Range)) }
{
    let declared = in_declared(items, names, p.at, p.ty, &p.name);
    earlier(
        declared,
        if_type_at(!is_range(p.ty, p.range), p.at, TypeRule::Range),
    )
}

/// The first breach in parameters, whose names are added.
pub fn in_parameters<'a>(
    items: &Index,
    names: &mut Names<'a>,
    params: &'a [Param],
) -> Result<Option<Broken<'a>>, AllocError>
    ensures found { IfOk result (λ f. found_of f ≡ first_of (in_parameters (taken_of items.now (scope_of names.old)) (map parameter_of params.now))) }
    ensures names { OnOk result (scope_of names.new ≡ with_locals (scope_of names.old) (parameter_names (map parameter_of params.now))) }
{
    let mut found = None;
    for param in params {
        found = earlier(found, in_parameter(items, names, param));
        names.add_local(&param.name, param.ty)?;
    }
    Ok(found)
}

#[tactic(auto, using(crate::proofs::First::first_of_append))]
fn in_local<'a>(items: &Index, names: &Names, l: &'a Local) -> Option<Broken<'a>>
    ensures { found_of result ≡ first_of (in_declared (taken_of items.now (scope_of names.now)) l.now.at l.now.ty (name_bytes l.now.name)
        ++ in_expression (scope_of names.now) (local_of l.now).value) }
{
    let declared = in_declared(items, names, l.at, l.ty, &l.name);
    earlier(declared, in_expression(names, &l.value))
}

/// The first breach in locals, whose names are added. Each local has its name behind its own declaration.
pub fn in_locals<'a>(
    items: &Index,
    names: &mut Names<'a>,
    locals: &'a [Local],
) -> Result<Option<Broken<'a>>, AllocError>
    ensures found { IfOk result (λ f. found_of f ≡ first_of (in_locals (taken_of items.now (scope_of names.old)) (scope_of names.old) (map local_of locals.now))) }
    ensures names { OnOk result (scope_of names.new ≡ with_locals (scope_of names.old) (local_names (map local_of locals.now))) }
{
    let mut found = None;
    for local in locals {
        found = earlier(found, in_local(items, names, local));
        names.add_local(&local.name, local.ty)?;
    }
    Ok(found)
}
