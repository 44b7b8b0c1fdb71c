#![tactic(auto)]
//! The search over the subsets of up to 12 members, as masks: for each the least cost of a tree over it, and the first split that has it.
ghost use Rattle.std.specs.Prelude.{◌≡◌, ◌+◌, ◌*◌, ◌^◌, ◌<◌, ◌≤◌, IfSome, ltb, length};
ghost use Rattle.std.specs.Option.{unwrap_or};
ghost use Rattle.spec.specs.Improve.{over_limit};
ghost use Rattle.slots.specs.Weigh.{Light};
ghost use Rattle.masks.specs.Tables.{work_at, Sized};
ghost use Rattle.subset.specs.Rooms.{HasRoom};
ghost use Rattle.subset.specs.Search.{found_at, searched_in, tried_in};
ghost use Rattle.subset.specs.Walk.{infinite, finite, step_cost, considered, cheapest_of, entry_of, Filled, best_at, split_at};

// Stays: `l: usize, r: usize`: two masks that are joined, each a place by itself; no list goes with them.
// Stays: `1 ≤ m`, `m ≤ 12`: bounds of a number, so that there is a mask, and all fit 4,096 places; a type of its own would be unwrapped at each use.
// Stays: `128 ≤ length weights.now`, `Light weights.now`: asked where `Planes` are made, which hold from there on what the weights are.
// Stays: `length cost.now ≡ length tables.now.bits.now`: the costs are written while the tables are read, so they are no field of these.

use masks::{Masks, Planes, Tables};

// From 2^53 on a cost counts as infinite.
// Stays: the costs stand in words that the C interface lends, one a mask, so that a number has to say that there is none.
const INFINITE: u64 = 9007199254740992;

/// A cost, and the part of the split that has it; 2^53 and 0 where there is none.
// Stays: a turn of the walk over splits compares one number with its cost, where 2^53 stands for none; with `Option` a search takes a twentieth more instructions.
#[derive(Clone, Copy)]
pub struct Choice {
    pub cost: u64,
    pub part: usize,
}

// Is 2 to the power `bits` below `room`.
fn below(bits: u64, room: u64) -> bool
    requires { room ≤ infinite }
    ensures { result ≡ ltb (2 ^ bits) room }
{
    if bits < 53 { 1 << bits < room } else { false }
}

// 2 to the work bits of the step that joins the tables of the masks `l` and `r`, if that is below `room`. It is not weighed where one of the two
// tables is too large already.
fn step_cost(tables: &Tables, l: usize, r: usize, room: u64) -> Option<u64>
    requires { (1 ≤ l) × (l < length tables.now.bits.now) × (1 ≤ r) × (r < length tables.now.bits.now) × (room ≤ infinite) }
    ensures { result ≡ step_cost (work_at tables.now.kept.now tables.now.planes.weights.now l r) room }
{
    if !below(tables.bits(l), room) {
        return None;
    }
    if !below(tables.bits(r), room) {
        return None;
    }
    let work = tables.work(l, r);
    if below(work, room) {
        Some(1 << work)
    } else {
        None
    }
}

// The split of `low` + `rest` whose part is `low` + `sub`, if it is strictly cheaper than the choice so far. It is not weighed where the costs of
// both sides are too much already.
fn consider(
    tables: &Tables,
    cost: &[u64],
    low: usize,
    rest: usize,
    sub: usize,
    was: Choice,
) -> Option<Choice>
    requires { (length cost.now ≡ length tables.now.bits.now) × (1 ≤ low) × (low + rest < length tables.now.bits.now) × (sub < rest) × (was.cost ≤ infinite) }
    ensures { unwrap_or result was ≡ considered (best_at cost.now) (work_at tables.now.kept.now tables.now.planes.weights.now) low rest sub was }
{
    let l = sub + low;
    let r = rest - sub;
    let a = cost[l];
    if was.cost <= a {
        return None;
    }
    let b = cost[r];
    if was.cost - a <= b {
        return None;
    }
    let step = step_cost(tables, l, r, was.cost - a - b)?;
    Some(Choice {
        cost: a + b + step,
        part: l,
    })
}

// The first cheapest split of `low` + `rest` whose part holds `low`.
// Stays: the form that a rule of the project names: a loop whose break has the value.
// Stays: `found` has a cost of 2^53 at first, which bounds each cost anyway. As an `Option<Choice>` it proves, but is turned into that bound for
// each split: a search over 10 members then takes 5 % more instructions.
fn cheapest_split(tables: &Tables, cost: &[u64], low: usize, rest: usize) -> Choice
    requires { (length cost.now ≡ length tables.now.bits.now) × (1 ≤ low) × (low + rest < length tables.now.bits.now) }
    ensures { result ≡ cheapest_of (best_at cost.now) (work_at tables.now.kept.now tables.now.planes.weights.now) (length tables.now.bits.now) low rest }
{
    let mut found = Choice {
        cost: INFINITE,
        part: 0,
    };
    let mut sub = rest;
    let cheapest = loop {
        if sub == 0 {
            break found;
        }
        sub = (sub - 1) & rest;
        found = consider(tables, cost, low, rest, sub, found).unwrap_or(found);
    };
    cheapest
}

// Is a table of so many bits above the limit.
fn is_over(bits: u64, limit: Option<u16>) -> bool
    ensures { result ≡ over_limit bits limit }
{
    limit.is_some_and(|most| u64::from(most) < bits)
}

/// What is found for a mask: the least cost, the part of the first split that has it, and how many splits are tried.
// Stays: its cost and its part are what the lists of costs and parts take, one number each a mask, where 2^53 stands for no cost; an `Option` would be made and taken apart for each mask.
#[derive(Clone, Copy)]
pub struct Entry {
    pub cost: u64,
    pub part: usize,
    pub tried: u64,
}

// The mask `s`, from what is found for the masks below it. A mask that is not the full one is passed over if its table is above the limit.
// Stays: a mask is a place here and a word of digits there; std has no `From` of a `usize` for a `u64`.
fn search_mask(tables: &Tables, cost: &[u64], limit: Option<u16>, s: usize) -> Entry
    requires { (length cost.now ≡ length tables.now.bits.now) × (1 ≤ s) × (s < length tables.now.bits.now) }
    ensures { result ≡ entry_of (best_at cost.now) (work_at tables.now.kept.now tables.now.planes.weights.now) (length tables.now.bits.now) limit s }
{
    let rest = s & (s - 1);
    if rest == 0 {
        return Entry {
            cost: 0,
            part: 0,
            tried: 0,
        };
    }
    if s + 1 < tables.len() {
        if is_over(tables.bits(s), limit) {
            return Entry {
                cost: INFINITE,
                part: 0,
                tried: 0,
            };
        }
    }
    let found = cheapest_split(tables, cost, s - rest, rest);
    Entry {
        cost: found.cost,
        part: found.part,
        tried: (1 << bits::count_ones(rest as u64)) - 1,
    }
}

// Fills the lists of costs and parts, from the lowest mask up, and returns how many splits are tried.
// Stays: s is a mask, and costs before it are read: no iterator lends these beside the one that is written. Std has no `From` of a `usize` for a `u64`.
fn fill(tables: &Tables, limit: Option<u16>, cost: &mut [u64], part: &mut [u64]) -> u64
    requires { (length cost.old ≡ length tables.now.bits.now) × (length part.old ≡ length tables.now.bits.now) × (1 ≤ length tables.now.bits.now) }
    ensures { Filled (best_at cost.new) (split_at part.new) (work_at tables.now.kept.now tables.now.planes.weights.now) (length tables.now.bits.now) limit (length tables.now.bits.now) result }
{
    let mut tried: u64 = 0;
    for s in 1..tables.len() {
        let e = search_mask(tables, cost, limit, s);
        cost[s] = e.cost;
        part[s] = e.part as u64;
        tried += e.tried;
    }
    tried
}

// The same, where the lists of the tables are apart.
fn fill_from<'a>(
    kept: &'a [[u64; 2]],
    bits: &'a [u64],
    planes: Planes<'a>,
    limit: Option<u16>,
    cost: &mut [u64],
    part: &mut [u64],
) -> u64
    requires tables { Sized kept.now bits.now planes.weights.now }
    requires room { (length cost.old ≡ length bits.now) × (length part.old ≡ length bits.now) × (1 ≤ length bits.now) }
    ensures { Filled (best_at cost.new) (split_at part.new) (work_at kept.now planes.entry.weights.now) (length bits.now) limit (length bits.now) result }
{
    fill(&Tables::of_planes(kept, bits, planes), limit, cost, part)
}

/// The least cost of a tree over all members, if one is below 2^53, how many splits were tried, and the part of each mask.
#[derive(Clone, Copy)]
pub struct Searched<'a> {
    pub cost: Option<u64>,
    pub tried: u64,
    pub part: &'a [u64],
}

/// How many masks `m` members have.
pub fn mask_count(m: usize) -> usize
    requires { m ≤ 12 }
    ensures { (result ≡ 2 ^ m) × (1 ≤ result) × (result ≤ 4096) }
{
    1 << m
}

// A cost of the table, if it is one.
// Stays: no heap: a lent word of costs, where 2^53 stands for no cost, becomes an `Option` here.
fn finite(cost: u64) -> Option<u64>
    ensures cost { result ≡ finite cost }
    ensures small { IfSome result (λ c. c < infinite) }
{
    if cost < INFINITE { Some(cost) } else { None }
}

/// The search over `m` members, whose local indices stand in the rows of the masks of one member, and the region's root's in row 0. The splits
/// of the tree of that cost are in the list of parts. `limit` is the most bits of a table that is not the root's. A list may have more places
/// than there are masks: only the first of them, one a mask, are read and written.
// Stays: a list by mask is filled from the lowest mask up; it is what the crate is about, and no method of a list.
pub fn search<'a>(masks: Masks<'a>, weights: &[u8], limit: Option<u16>, m: usize) -> Searched<'a>
    requires room { HasRoom masks (2 ^ m) }
    requires members { (1 ≤ m) × (m ≤ 12) }
    requires weights { (128 ≤ length weights.now) × Light weights.now }
    ensures found { found_at result.part.now (2 ^ m) result.cost ≡ searched_in masks.entry.united.now weights.now limit m }
    ensures small { IfSome result.cost (λ c. c < infinite) }
    ensures tried { result.tried ≡ tried_in masks.entry.united.now weights.now limit m }
{
    let n = mask_count(m);
    let Masks {
        united,
        kept,
        bits,
        cost,
        part,
    } = masks;
    let united = &mut united[..n];
    let kept = &mut kept[..n];
    let bits = &mut bits[..n];
    let cost = &mut cost[..n];
    let part = &mut part[..n];
    masks::unions(united);
    let planes = Planes::of(weights);
    masks::keep_sets_by(united, &planes, kept, bits);
    let tried = fill_from(kept, bits, planes, limit, cost, part);
    let least = finite(cost[n - 1]);
    Searched {
        cost: least,
        tried,
        part,
    }
}
