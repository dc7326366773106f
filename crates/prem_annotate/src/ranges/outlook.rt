// What is found of a function where it is known what calls give its parameters.
ghost use Rattle.std.specs.Prelude.{◌≡◌, ◌++◌, [], ◌∷◌, map, IfOk, OnOk};
ghost use Rattle.std.specs.Option.{option_map};
ghost use Rattle.prem_word.specs.Ranges.{IsRange, whole, encloses};
ghost use Rattle.prem_syntax.specs.SyntaxOf.{parameter_of, function_of};
ghost use Rattle.prem_syntax.specs.Resolve.{promoted};
ghost use Rattle.prem_ranges.specs.After.{stated_or_whole, known_parameter};
ghost use Rattle.prem_ranges.specs.Sound.{Ranged};
ghost use Rattle.prem_analysis.specs.Ranging.View.{span_of, known_of, env_of};
ghost use Rattle.prem_analysis.specs.Functions.{plain_routine};
ghost use Rattle.prem_annotating.specs.Inferred.{if_narrower};
ghost use Rattle.prem_annotate.specs.Ranges.Slots.{slot_of, with_slot, with_slots};
ghost use Rattle.prem_annotate.specs.Ranges.Outlook.{ranges_of, outlook_of, outlook_with};

use crate::ranges::slots::ParameterRange;
use crate::seeing::{Sight, see_routine};
use prem_analysis::ranging::{Known, Range, whole_range};
use prem_syntax::Param;
use prem_tree::resolve::{Routine, promoted};
use prem_word::Kind;
use std::alloc::{AllocError, Global};

/// The ranges of a function's parameters, none where all numbers of the kind are given; its accesses; and what it passes to
/// others.
#[derive(Drop)]
pub struct Outlook {
    pub ranges: Vec<Option<(i64, i64)>>,
    pub sight: Sight,
}

/// Whether a range holds all numbers of a kind.
fn holds_all(k: Kind, r: Range) -> bool
    ensures { result ≡ encloses (span_of r) (whole k) }
{
    let all = whole_range(k);
    r.lo <= all.lo && all.hi <= r.hi
}

/// A range that tells something.
fn narrowed(k: Kind, given: Option<Range>) -> Option<(i64, i64)>
    ensures { result ≡ if_narrower k (option_map span_of given) }
{
    match given {
        Some(r) => {
            if holds_all(k, r) {
                None
            } else {
                Some((r.lo, r.hi))
            }
        }
        None => None,
    }
}

/// The RANGE that stands, or else what calls give.
fn range_of_parameter(p: &Param, s: ParameterRange) -> Option<(i64, i64)>
    ensures { result ≡ (with_slot (slot_of s) (parameter_of p.now)).range }
{
    match p.range {
        Some(stated) => Some(stated),
        None => narrowed(promoted(p.ty), s.given),
    }
}

/// What is known of a parameter without a RANGE.
fn known_given(k: Kind, given: Option<Range>) -> Range
    ensures { span_of result ≡ stated_or_whole k (if_narrower k (option_map span_of given)) }
{
    match given {
        Some(r) => { if holds_all(k, r) { whole_range(k) } else { r } }
        None => whole_range(k),
    }
}

fn known(p: &Param, s: ParameterRange) -> Known
    requires { IsRange (promoted p.now.ty) (stated_or_whole (promoted p.now.ty) p.now.range) }
    ensures { known_of result ≡ known_parameter (with_slot (slot_of s) (parameter_of p.now)) }
{
    let kind = promoted(p.ty);
    let range = match p.range {
        Some((lo, hi)) => Range { lo, hi },
        None => known_given(kind, s.given),
    };
    Known { kind, range }
}

fn add_known(env: &mut Vec<Known>, p: &Param, s: ParameterRange) -> Result<(), AllocError>
    requires { IsRange (promoted p.now.ty) (stated_or_whole (promoted p.now.ty) p.now.range) }
    ensures { OnOk result (env_of env.new.items ≡ env_of env.old.items ++ known_parameter (with_slot (slot_of s) (parameter_of p.now)) ∷ []) }
{
    env.push(known(p, s))?;
    Ok(())
}

/// What is known of parameters.
pub fn known_parameters(
    alloc: Global,
    row: &[ParameterRange],
    ps: &[Param],
) -> Result<Vec<Known>, AllocError>
    requires { Ranged (map known_parameter (map parameter_of ps.now)) }
    ensures { IfOk result (λ env. env_of env.items ≡ map known_parameter (with_slots (map slot_of row.now) (map parameter_of ps.now))) }
{
    let mut env = Vec::new(alloc);
    for i in 0..ps.len() {
        if i >= row.len() {
            return Ok(env);
        }
        add_known(&mut env, &ps[i], row[i])?;
    }
    Ok(env)
}

fn add_range(
    all: &mut Vec<Option<(i64, i64)>>,
    p: &Param,
    s: ParameterRange,
) -> Result<(), AllocError>
    ensures { OnOk result (all.new.items ≡ all.old.items ++ (with_slot (slot_of s) (parameter_of p.now)).range ∷ []) }
{
    all.push(range_of_parameter(p, s))?;
    Ok(())
}

/// The ranges of parameters.
fn ranges(
    alloc: Global,
    row: &[ParameterRange],
    ps: &[Param],
) -> Result<Vec<Option<(i64, i64)>>, AllocError>
    ensures { IfOk result (λ all. all.items ≡ ranges_of (with_slots (map slot_of row.now) (map parameter_of ps.now))) }
{
    let mut all = Vec::new(alloc);
    for i in 0..ps.len() {
        if i >= row.len() {
            return Ok(all);
        }
        add_range(&mut all, &ps[i], row[i])?;
    }
    Ok(all)
}

/// What is found of a function whose parameters are given so much.
pub fn regard(alloc: Global, row: &[ParameterRange], f: &Routine) -> Result<Outlook, AllocError>
    requires { Ranged (map known_parameter (function_of f.now.text.now).params) }
    ensures { IfOk result (λ o. outlook_of o ≡ outlook_with (map slot_of row.now) (plain_routine f.now)) }
{
    let ps = f.text.params.items();
    let ranges = ranges(alloc, row, ps)?;
    let known = known_parameters(alloc, row, ps)?;
    let sight = see_routine(alloc, known, f)?;
    Ok(Outlook { ranges, sight })
}
