// Places of parts that are moved by whole lines.
ghost use Rattle.std.specs.Prelude.{◌≡◌, ◌+◌, ◌*◌, ◌≤◌, ◌<◌, ◌^◌, List, All, IfOk, IfErr, IfSome, MatchResult, OnOk, Ok, length, map, replicate, slice_index_or};
ghost use Rattle.std.specs.List.{AllByRecursion};
ghost use Rattle.std.specs.Int.{next_multiple_of};
ghost use Rattle.prem_plant.specs.Places.{AreApart};
ghost use Rattle.prem_plant.specs.Ranges.{IsPlant};
ghost use Rattle.prem_plant.specs.declared.plant.Plant.{Plant};
ghost use Rattle.prem_plant.specs.declared.layout.PartSize.{PartSize};
ghost use Rattle.prem_color.specs.Offsets.{least_from, moved_places, range_in};
ghost use Rattle.prem_color.specs.Placing.{AnyStuck, IsPlacing, IsStuck};
ghost use Rattle.prem_color.specs.RoomOf.{room_of};
ghost use Rattle.prem_color.specs.Rooms.{LiesIn, no_lines, fits_one, no_part, ranges_at, room_after};
ghost use Rattle.prem_color.specs.Claims.{claims_from, claims_in, share_of};
ghost use Rattle.prem_color.specs.Shares.{IsOf, shares_fit, with_shares};
ghost use Rattle.prem_color.specs.Told.{ArePlaced, TellsColor};
ghost use Rattle.prem_color.specs.WantOf.{ranges_in};

use crate::claims::{Claim, PartRange, Share, claims_by_part, shares_of};
use crate::fail::ColorFail;
use crate::room::{CacheShape, Room};
use prem_foot::Want;
use prem_plant::{Layout, PartSize, Plant};
use std::alloc::{AllocError, Global};

/// A range of a part that starts at this address.
fn range_at(range: PartRange, address: u64) -> (u64, u64)
    requires { address ≤ 2 ^ 60 }
    ensures { result ≡ range_in (address, address) range }
{
    (address + u64::from(range.1), address + u64::from(range.2))
}

/// Ranges of a part that starts at this address.
fn ranges_at(alloc: Global, own: &[PartRange], address: u64) -> Result<Vec<(u64, u64)>, AllocError>
    requires { address ≤ 2 ^ 60 }
    ensures { IfOk result (λ ranges. ranges.items ≡ ranges_at address own.now) }
{
    let mut ranges = Vec::new(alloc);
    for range in own {
        ranges.push(range_at(*range, address))?;
    }
    Ok(ranges)
}

/// Whether the lines of a part's own ranges have room.
fn fits_one(
    alloc: Global,
    room: &Room,
    own: &[PartRange],
    address: u64,
    cache: CacheShape,
) -> Result<bool, AllocError>
    requires address { address ≤ 2 ^ 60 }
    requires line { 1 ≤ cache.line }
    requires some { 1 ≤ cache.sets }
    requires most { cache.sets ≤ 1024 }
    ensures { IfOk result (λ b. b ≡ fits_one cache.line cache.sets cache.«ways» address (room_of room.now) own.now) }
{
    let ranges = ranges_at(alloc, own, address)?;
    Ok(room.with_ranges(&ranges, cache).is_some())
}

/// Whether they have, of each share.
fn shares_fit(
    alloc: Global,
    rooms: &[Room],
    shares: &[Share],
    address: u64,
    cache: CacheShape,
) -> Result<bool, AllocError>
    requires address { address ≤ 2 ^ 60 }
    requires line { 1 ≤ cache.line }
    requires some { 1 ≤ cache.sets }
    requires most { cache.sets ≤ 1024 }
    requires there { AllByRecursion (IsOf (length rooms.now)) (map share_of shares.now) }
    ensures { IfOk result (λ b. b ≡ shares_fit cache.line cache.sets cache.«ways» address (map room_of rooms.now) (map share_of shares.now)) }
{
    for share in shares {
        if !fits_one(alloc, &rooms[share.want], &share.own, address, cache)? {
            return Ok(false);
        }
    }
    Ok(true)
}

/// The least number of lines, of fewer than the cache has sets, by which a part may be moved behind an address.
fn offset(
    alloc: Global,
    rooms: &[Room],
    shares: &[Share],
    base: u64,
    cache: CacheShape,
) -> Result<Option<u64>, AllocError>
    requires base { base ≤ 2 ^ 59 }
    requires line { 1 ≤ cache.line }
    requires thin { cache.line ≤ 256 }
    requires some { 1 ≤ cache.sets }
    requires most { cache.sets ≤ 1024 }
    requires there { AllByRecursion (IsOf (length rooms.now)) (map share_of shares.now) }
    ensures within { IfOk result (λ o. IfSome o (λ o. o < cache.sets)) }
    ensures least { IfOk result (λ o. o ≡ least_from (λ o. shares_fit cache.line cache.sets cache.«ways» (base + o * cache.line) (map room_of rooms.now) (map share_of shares.now)) 0 cache.sets) }
{
    for o in 0..cache.sets {
        if shares_fit(alloc, rooms, shares, base + o * cache.line, cache)? {
            return Ok(Some(o));
        }
    }
    Ok(None)
}

/// Takes the lines of a part's own ranges into a room, where they have it.
fn take_one(
    alloc: Global,
    room: &mut Room,
    own: &[PartRange],
    address: u64,
    cache: CacheShape,
) -> Result<(), AllocError>
    requires address { address ≤ 2 ^ 60 }
    requires line { 1 ≤ cache.line }
    requires some { 1 ≤ cache.sets }
    requires most { cache.sets ≤ 1024 }
    ensures { OnOk result (room_of room.new ≡ room_after cache.line cache.sets cache.«ways» address (room_of room.old) own.now) }
{
    let ranges = ranges_at(alloc, own, address)?;
    if let Some(next) = room.with_ranges(&ranges, cache) {
        *room = next;
    }
    Ok(())
}

/// Takes those of each share.
fn take_all(
    alloc: Global,
    rooms: &mut Vec<Room>,
    shares: &[Share],
    address: u64,
    cache: CacheShape,
) -> Result<(), AllocError>
    requires address { address ≤ 2 ^ 60 }
    requires line { 1 ≤ cache.line }
    requires some { 1 ≤ cache.sets }
    requires most { cache.sets ≤ 1024 }
    requires there { AllByRecursion (IsOf (length rooms.old.items)) (map share_of shares.now) }
    ensures count { OnOk result (length rooms.new.items ≡ length rooms.old.items) }
    ensures taken { OnOk result (map room_of rooms.new.items ≡ with_shares cache.line cache.sets cache.«ways» address (map room_of rooms.old.items) (map share_of shares.now)) }
{
    for share in shares {
        take_one(alloc, &mut rooms[share.want], &share.own, address, cache)?;
    }
    Ok(())
}

/// The places so far, the address where they end, and the room of each want.
#[derive(Drop)]
struct Placing {
    places: Vec<(u64, u64)>,
    at: u64,
    rooms: Vec<Room>,
}

/// A room for each want, without lines.
fn empty_rooms(alloc: Global, wants: &[Want]) -> Result<Vec<Room>, AllocError>
    ensures empty { IfOk result (λ rooms. map room_of rooms.items ≡ replicate (length wants.now) no_lines) }
    ensures count { IfOk result (λ rooms. length rooms.items ≡ length wants.now) }
{
    let mut rooms = Vec::new(alloc);
    for _ in 0..wants.len() {
        rooms.push(Room::new())?;
    }
    Ok(rooms)
}

/// No part has a place.
fn no_places(alloc: Global, wants: &[Want]) -> Result<Placing, AllocError>
    ensures rooms { IfOk result (λ s. length s.rooms.items ≡ length wants.now) }
    ensures at { IfOk result (λ s. s.at ≡ 0) }
    ensures placing { (p : Plant) (sizes : List PartSize) → IsPlant p → IfOk result (IsPlacing p (ranges_in wants.now) sizes 0) }
{
    let rooms = empty_rooms(alloc, wants)?;
    Ok(Placing {
        places: Vec::new(alloc),
        at: 0,
        rooms,
    })
}

/// What the cache of a plant is.
fn cache_of(p: &Plant) -> CacheShape
    ensures line { result.line ≡ p.now.line }
    ensures sets { result.sets ≡ p.now.sets }
    ensures ways { result.«ways» ≡ p.now.«ways» }
{
    CacheShape {
        line: u64::from(p.line),
        sets: u64::from(p.sets),
        ways: p.ways,
    }
}

/// Gives the next part, which has number n, its place behind the others, moved by the fewest lines with which all wants have room.
fn place_next(
    alloc: Global,
    s: Placing,
    part: PartSize,
    n: u32,
    claims: &[Claim],
    wants: &[Want],
    p: &Plant,
) -> Result<Placing, ColorFail>
    requires few { n < 100000 }
    requires claims { claims.now ≡ claims_in n (claims_from 0 (ranges_in wants.now)) }
    requires aligned { 1 ≤ part.align }
    requires plant { IsPlant p.now }
    requires rooms { length s.rooms.items ≡ length wants.now }
    requires low { s.at ≤ n * 2 ^ 34 }
    ensures rooms { IfOk result (λ s. length s.rooms.items ≡ length wants.now) }
    ensures low { IfOk result (λ s. s.at ≤ (n + 1) * 2 ^ 34) }
    ensures placing { (sizes : List PartSize) → n < length sizes → part ≡ slice_index_or sizes n no_part → AllByRecursion (AllByRecursion (LiesIn sizes)) (ranges_in wants.now)
        → IsPlacing p.now (ranges_in wants.now) sizes n s
        → MatchResult result (IsPlacing p.now (ranges_in wants.now) sizes (n + 1)) (IsStuck n (moved_places p.now (ranges_in wants.now) sizes)) }
{
    let Placing {
        mut places,
        at,
        mut rooms,
    } = s;
    let cache = cache_of(p);
    let _wants = wants;
    let shares = shares_of(alloc, claims)?;
    let base = at.next_multiple_of(u64::from(part.align));
    let Some(o) = offset(alloc, &rooms, &shares, base, cache)? else {
        return Err(ColorFail::NoOffset { part: n });
    };
    let start = base + o * cache.line;
    take_all(alloc, &mut rooms, &shares, start, cache)?;
    let end = start + u64::from(part.size);
    places.push((start, end))?;
    Ok(Placing {
        places,
        at: end,
        rooms,
    })
}

/// Gives all parts their places, one behind another.
fn place_all(
    alloc: Global,
    sizes: &[PartSize],
    wants: &[Want],
    p: &Plant,
) -> Result<Placing, ColorFail>
    requires aligned { All (λ part. 1 ≤ part.align) sizes.now }
    requires count { length sizes.now ≤ 100000 }
    requires plant { IsPlant p.now }
    requires lie { AllByRecursion (AllByRecursion (LiesIn sizes.now)) (ranges_in wants.now) }
    ensures placed { IfOk result (IsPlacing p.now (ranges_in wants.now) sizes.now (length sizes.now)) }
    ensures stuck { IfErr result (AnyStuck (moved_places p.now (ranges_in wants.now) sizes.now)) }
{
    let index = claims_by_part(alloc, sizes.len(), wants)?;
    let mut s = no_places(alloc, wants)?;
    for n in 0..sizes.len() {
        s = place_next(alloc, s, sizes[n], n as u32, &index[n], wants, p)?;
    }
    Ok(s)
}

/// A place within memory.
fn narrow(place: (u64, u64)) -> (u32, u32)
    requires start { place.0 < 2 ^ 32 }
    requires end { place.1 < 2 ^ 32 }
    ensures { result ≡ place }
{
    (place.0 as u32, place.1 as u32)
}

/// The places as those of a layout.
fn narrow_all(alloc: Global, places: &[(u64, u64)]) -> Result<Vec<(u32, u32)>, AllocError>
    requires { AllByRecursion (λ place. (place.0 < 2 ^ 32) × (place.1 < 2 ^ 32)) places.now }
    ensures { IfOk result (λ all. all.items ≡ places.now) }
{
    let mut all = Vec::new(alloc);
    for place in places {
        all.push(narrow(*place))?;
    }
    Ok(all)
}

/// The layout of places that are apart.
fn layout_of(places: Vec<(u32, u32)>) -> Layout
    requires { AreApart places.items }
    ensures { result ≡ places.items }
{
    match Layout::from_places(places) {
        Some(layout) => layout,
        None => unreachable!(),
    }
}

/// Places parts one behind another, each at the next aligned address and moved from there by as few whole lines as give all wants room in the
/// cache: no set of it is asked for more lines of a want than it has ways, by the want's ranges in the parts so far.
///
/// `NoOffset` comes exactly where for a part no offset of fewer lines than the cache has sets does so, and tells the first such part;
/// `MemoryFull` exactly where all have one and the last part would end past memory; `OutOfMemory` only for want of memory.
pub fn color(
    alloc: Global,
    sizes: &[PartSize],
    wants: &[Want],
    p: &Plant,
) -> Result<Layout, ColorFail>
    requires aligned { All (λ part. 1 ≤ part.align) sizes.now }
    requires count { length sizes.now ≤ 100000 }
    requires plant { IsPlant p.now }
    requires lie { AllByRecursion (AllByRecursion (LiesIn sizes.now)) (ranges_in wants.now) }
    ensures places { IfOk result (λ layout. ArePlaced p.now.memory layout (moved_places p.now (ranges_in wants.now) sizes.now)) }
    ensures fails { IfErr result (TellsColor p.now.memory (moved_places p.now (ranges_in wants.now) sizes.now)) }
{
    let Placing { places, at, .. } = place_all(alloc, sizes, wants, p)?;
    if at > u64::from(p.memory) {
        return Err(ColorFail::MemoryFull {
            need: at,
            have: p.memory,
        });
    }
    let places = narrow_all(alloc, &places)?;
    Ok(layout_of(places))
}
