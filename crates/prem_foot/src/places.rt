// Where the parts of a task are, and the ranges of bytes of its marked functions.
ghost use Rattle.std.specs.Prelude.{◌≡◌, ◌+◌, ◌++◌, ◌<◌, ◌≤◌, ◌^◌, [], length, map, take, drop, option_map, option_to_list, IfOk, OnOk};
ghost use Rattle.prem_syntax.specs.SyntaxOf.{mark_of};
ghost use Rattle.prem_layout.specs.Parts.{element_size};
ghost use Rattle.prem_layout.specs.Footprint.{index_of};
ghost use Rattle.prem_split.specs.PlansWith.{marks_of};
ghost use Rattle.prem_foot.specs.PlacesFrom.{marked_if, marked_from};

use prem_analysis::Analysed;
use prem_plant::{FnId, Layout};
use prem_syntax::{Global as GlobalTree, Mark, Ty};
use prem_tree::resolve::{Resolved, Routine, resolve};
use std::alloc::{AllocError, Global};
use std::marker::Model;

/// The places of a task's parts, in the order of the parts, and the sizes of its globals' elements.
#[derive(Drop)]
pub struct TaskPlaces {
    all: Vec<(u32, u32)>,
    /// How many functions it has.
    code: u32,
    /// The marked functions.
    stubs: Vec<FnId>,
    sizes: Vec<u32>,
}

impl Model for TaskPlaces {
    ghost use Rattle.prem_layout.specs.Footprint.{TaskPlaces};
    ghost use Rattle.prem_foot.specs.PlacesOf.{HasCounts};

    ghost Value = { TaskPlaces };

    ghost view = { λ t. record { places = t.all.items; functions = t.code; marked = t.stubs.items; elements = t.sizes.items } };

    ghost invariant = { λ t. HasCounts t.stubs.items t.sizes.items };
}

impl TaskPlaces {
    ghost use Rattle.std.specs.Prelude.{◌≡◌, ◌+◌, ◌≤◌, length, drop, slice_index, IfOk};
    ghost use Rattle.prem_list.specs.Sequence.{items_of};
    ghost use Rattle.prem_analysis.specs.Analysed.{analysed_text};
    ghost use Rattle.prem_layout.specs.Footprint.{place_at, code_range, stub_range, global_range, stack_place, stack_range_of, region_range};
    ghost use Rattle.prem_foot.specs.PlacesFrom.{places_in};
    ghost use Rattle.prem_foot.specs.Texts.{places_of};
    ghost use Rattle.prem_foot.specs.PlacesOf.{IsRegionAt};

    /// The places of a task, whose start is the part number `first` of the layout.
    #[tactic(auto, using(crate::proofs::ByText::few, crate::proofs::ByText::places_are_by_text))]
    pub fn of(
        alloc: Global,
        a: &Analysed,
        l: &Layout,
        first: usize,
    ) -> Result<TaskPlaces, AllocError>
        requires { first ≤ 100000 }
        ensures { IfOk result (λ t. t ≡ places_of (analysed_text a.now) (drop first l.now)) }
    {
        let r = resolve(alloc, a.checked().program())?;
        TaskPlaces::of_resolved(alloc, &r, l, first)
    }

    /// The places of a task whose names are resolved; its start is the part number `first` of the layout.
    pub fn of_resolved(
        alloc: Global,
        r: &Resolved,
        l: &Layout,
        first: usize,
    ) -> Result<TaskPlaces, AllocError>
        requires functions { length (items_of r.now.routines) ≤ 256 }
        requires globals { length r.now.globals.items ≤ 256 }
        requires first { first ≤ 100000 }
        ensures { IfOk result (λ t. t ≡ places_in r.now (drop first l.now)) }
    {
        let fs = r.routines.items();
        let stubs = marked_functions(alloc, fs)?;
        let sizes = element_sizes(alloc, &r.globals)?;
        let count = 2 + fs.len() + stubs.len() + sizes.len();
        let all = places(alloc, l, first, count)?;
        Ok(TaskPlaces {
            all,
            code: fs.len() as u32,
            stubs,
            sizes,
        })
    }

    /// The place of a part by its number among those of the task, or (0, 0) where there is no such part.
    pub fn place(&self, part: usize) -> (u32, u32)
        ensures { result ≡ place_at self.now part }
    {
        self.all.get(part).copied().unwrap_or((0, 0))
    }

    pub(crate) fn code_range(&self, f: FnId) -> (u32, u32)
        ensures { result ≡ code_range self.now f }
    {
        self.place(1 + usize::from(f))
    }

    pub(crate) fn stub_range(&self, f: FnId) -> (u32, u32)
        ensures { result ≡ stub_range self.now f }
    {
        self.place(1 + self.code as usize + index_of(f, &self.stubs))
    }

    /// The place of a global, or (0, 0) where there is no such global.
    pub fn global_range(&self, g: u16) -> (u32, u32)
        ensures { result ≡ global_range self.now g }
    {
        self.place(1 + self.code as usize + self.stubs.len() + usize::from(g))
    }

    /// The place of the stack.
    pub fn stack_place(&self) -> (u32, u32)
        ensures { result ≡ stack_place self.now }
    {
        self.place(1 + self.code as usize + self.stubs.len() + self.sizes.len())
    }

    /// The bytes of a function and of those that it calls, below the frame of `job`.
    pub(crate) fn stack_range(&self, base: u32, depth: u32) -> (u32, u32)
        requires { base + depth ≤ (stack_place self.now).1 }
        ensures { result ≡ stack_range_of self.now base depth }
    {
        let top = self.stack_place().1 - base;
        (top - depth, top)
    }

    /// The bytes of an element of a global, or 0 where there is no such global.
    fn element(&self, g: u16) -> u32
        ensures { result ≡ slice_index self.now.elements g }
    {
        self.sizes.get(usize::from(g)).copied().unwrap_or(0)
    }

    pub(crate) fn region_range(&self, region: (u16, u32, u32)) -> (u32, u32)
        requires { IsRegionAt self.now region }
        ensures { result ≡ region_range self.now region }
    {
        let start = self.global_range(region.0).0;
        let size = self.element(region.0);
        (start + region.1 * size, start + (region.2 + 1) * size)
    }
}

/// Where a number stands in a list, or the list's length.
pub fn index_of(n: FnId, all: &[FnId]) -> usize
    ensures place { result ≡ index_of n all.now }
    ensures within { result ≤ length all.now }
{
    let mut at = 0;
    while at < all.len() {
        if all[at] == n {
            return at;
        }
        at += 1;
    }
    at
}

/// The bytes of an element of a type.
fn element_size(ty: Ty) -> u32
    ensures { result ≡ element_size ty }
{
    match ty {
        Ty::Short | Ty::Ushort => 2,
        Ty::Schar | Ty::Uchar => 1,
        Ty::Void | Ty::Int | Ty::Unsigned => 4,
    }
}

/// The bytes of an element of each global. It fails only for want of memory.
pub fn element_sizes(alloc: Global, globals: &[&GlobalTree]) -> Result<Vec<u32>, AllocError>
    ensures sizes { IfOk result (λ sizes. sizes.items ≡ map (λ g. element_size g.now.ty) globals.now) }
    ensures long { IfOk result (λ sizes. length sizes.items ≡ length globals.now) }
{
    let mut sizes = Vec::new(alloc);
    for g in globals {
        sizes.push(element_size(g.ty))?;
    }
    Ok(sizes)
}

/// Puts the number of a function behind others, if it is marked.
fn push_marked(marked: &mut Vec<FnId>, n: FnId, mark: &Option<Mark>) -> Result<(), AllocError>
    ensures marked { OnOk result (marked.new.items ≡ marked.old.items ++ marked_if n (option_map mark_of mark.now) []) }
    ensures more { OnOk result (length marked.new.items ≤ length marked.old.items + 1) }
{
    match mark {
        Some(_) => {
            marked.push(n)?;
            Ok(())
        }
        None => Ok(()),
    }
}

/// The marked functions, in the order of the text. It fails only for want of memory.
pub fn marked_functions(alloc: Global, fs: &[Routine]) -> Result<Vec<FnId>, AllocError>
    requires { length fs.now ≤ 256 }
    ensures marked { IfOk result (λ ns. ns.items ≡ marked_from 0 (marks_of fs.now)) }
    ensures few { IfOk result (λ ns. length ns.items ≤ length fs.now) }
{
    let mut marked = Vec::new(alloc);
    for n in 0..fs.len() {
        let text = fs[n].text;
        push_marked(&mut marked, n as u16, &text.mark)?;
    }
    Ok(marked)
}

/// Puts a place behind others, if there is one.
fn push_place(places: &mut Vec<(u32, u32)>, place: Option<(u32, u32)>) -> Result<(), AllocError>
    ensures { OnOk result (places.new.items ≡ places.old.items ++ option_to_list place) }
{
    if let Some(place) = place {
        places.push(place)?;
    }
    Ok(())
}

/// So many places of a layout, from a part on.
fn places(
    alloc: Global,
    l: &Layout,
    first: usize,
    count: usize,
) -> Result<Vec<(u32, u32)>, AllocError>
    requires { first + count < 2 ^ 32 }
    ensures { IfOk result (λ places. places.items ≡ take count (drop first l.now)) }
{
    let mut places = Vec::new(alloc);
    for n in 0..count {
        push_place(&mut places, l.part(first + n))?;
    }
    Ok(places)
}
