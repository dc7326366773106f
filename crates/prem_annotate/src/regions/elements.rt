// The elements of globals that functions access.
ghost use Rattle.std.specs.Prelude.{◌≡◌, ◌++◌, [], ◌∷◌, map, IfOk, OnOk};
ghost use Rattle.std.specs.Option.{option_map};
ghost use Rattle.prem_syntax.specs.SyntaxOf.{global_of};
ghost use Rattle.prem_syntax.specs.Reach.{is_in};
ghost use Rattle.prem_annotating.specs.Inferred.{join_with};
ghost use Rattle.prem_analysis.specs.Ranging.View.{span_of};
ghost use Rattle.prem_annotate.specs.Seeing.Sight.{touch_of};
ghost use Rattle.prem_annotate.specs.Ranges.Outlook.{outlook_of};
ghost use Rattle.prem_annotate.specs.Regions.Elements.{elements_of, with_touch, with_touches, with_touches_if, with_members};
ghost use Rattle.prem_annotate.specs.Regions.Found.{nothing, no_elements};

use crate::ranges::{Outlook, least_around};
use crate::seeing::GlobalAccess;
use prem_analysis::ranging::Range;
use prem_syntax::Global;
use std::alloc::{AllocError, Global as Allocator};

/// The least range around a range and another one, if there is any.
fn widened(r: Range, other: Option<Range>) -> Range
    ensures { span_of result ≡ join_with (span_of r) (option_map span_of other) }
{
    match other {
        Some(s) => least_around(r, s),
        None => r,
    }
}

/// One more access.
fn add_touch(all: &mut [Option<Range>], t: GlobalAccess)
    ensures { elements_of all.new ≡ with_touch (touch_of t) (elements_of all.old) }
{
    if t.global < all.len() {
        all[t.global] = Some(widened(t.elements, all[t.global]));
    }
}

/// More accesses, from the last to the first.
fn add_touches(all: &mut [Option<Range>], touches: &[GlobalAccess])
    ensures { elements_of all.new ≡ with_touches (map touch_of touches.now) (elements_of all.old) }
{
    let mut n = touches.len();
    while n > 0 {
        n -= 1;
        add_touch(all, touches[n]);
    }
}

/// Whether a function is in a set of functions.
fn is_in(set: &[bool], n: usize) -> bool
    ensures { result ≡ is_in set.now n }
{
    set.get(n).copied().unwrap_or(false)
}

/// The accesses of a function, if it is a member.
fn add_if(is_member: bool, all: &mut [Option<Range>], touches: &[GlobalAccess])
    ensures { elements_of all.new ≡ with_touches_if is_member (map touch_of touches.now) (elements_of all.old) }
{
    if is_member {
        add_touches(all, touches);
    }
}

/// The accesses of the functions of a set, from the last function to the first.
fn add_members(all: &mut [Option<Range>], set: &[bool], outlooks: &[Outlook])
    ensures { elements_of all.new ≡ with_members set.now 0 (map outlook_of outlooks.now) (elements_of all.old) }
{
    let mut n = outlooks.len();
    while n > 0 {
        n -= 1;
        add_if(is_in(set, n), all, &outlooks[n].sight.touches);
    }
}

/// One more global without elements.
fn add_nothing(all: &mut Vec<Option<Range>>, _global: &Global) -> Result<(), AllocError>
    ensures { OnOk result (elements_of all.new.items ≡ elements_of all.old.items ++ nothing (global_of _global.now) ∷ []) }
{
    all.push(None)?;
    Ok(())
}

/// Globals without elements.
fn no_elements(alloc: Allocator, globals: &[&Global]) -> Result<Vec<Option<Range>>, AllocError>
    ensures { IfOk result (λ all. elements_of all.items ≡ no_elements (map (λ g. global_of g.now) globals.now)) }
{
    let mut all = Vec::new(alloc);
    for global in globals {
        add_nothing(&mut all, global)?;
    }
    Ok(all)
}

/// The accesses of the functions of a set, in a vector.
fn add_all_members(all: &mut Vec<Option<Range>>, set: &[bool], outlooks: &[Outlook])
    ensures { elements_of all.new.items ≡ with_members set.now 0 (map outlook_of outlooks.now) (elements_of all.old.items) }
{
    add_members(all, set, outlooks);
}

/// For each global the least range around its elements that the functions of a set access.
pub fn elements(
    alloc: Allocator,
    globals: &[&Global],
    set: &[bool],
    outlooks: &[Outlook],
) -> Result<Vec<Option<Range>>, AllocError>
    ensures { IfOk result (λ all. elements_of all.items ≡ with_members set.now 0 (map outlook_of outlooks.now) (no_elements (map (λ g. global_of g.now) globals.now))) }
{
    let mut all = no_elements(alloc, globals)?;
    add_all_members(&mut all, set, outlooks);
    Ok(all)
}
