#![tactic(auto)]
// Refinement of a partition by moves of single vertices (Fiduccia and Mattheyses): pass after pass, while they bring something.
ghost use Rattle.std.specs.Prelude.{true, ◌≡◌, ◌≤◌, length};
ghost use Rattle.spec.specs.Memory.{filled};
ghost use Rattle.spec.specs.Fm.{passes};
ghost use Rattle.partition.specs.Layout.{place_of, Placed};
ghost use Rattle.queue.specs.Enters.{AllEntered};
ghost use Rattle.queue.specs.Queues.{no_entry, queue_in};
ghost use Rattle.moves.specs.Kept.{Site};
ghost use Rattle.moves.specs.Split.{Split};
ghost use Rattle.moves.specs.Laying.{Bits};
ghost use Rattle.moves.specs.Loans.{IsSameLoan, sides_at};
ghost use Rattle.refine.specs.Starts.{Starts};
ghost use Rattle.refine.specs.Passes.{refined_as, one_pass, Leads, Refines};

use draws::Draws;
use moves::{Bipartition, Pass};
use partition::{Hypergraph, Layout};
use queue::Entry;

// Stays: `entries: &mut [Entry], draws: &mut Draws`: the entries are emptied for each pass and the draws go on behind it; a struct of the two would be made for each pass and taken apart at each call below.
// Stays: `layout: &Layout, split: &mut Bipartition`: the one is read and the other written, by `roll_back` and by the functions here; a struct of both would be taken apart at each of these calls.
// Stays: `IsSameLoan split.old split.new`: what each step that is lent the partition promises; no value could hold it, as it is of two times.
// Stays: `Site split.old.words.now (place_of layout.now)`, `Site words.old (place_of layout.now)`: one fact of the words and of a layout that is lent beside them; `Layout` holds no words, so it cannot say it.
// Stays: `Split split.old.words.now layout.now.sides (length layout.now.vertex_weights.now) split.old.part.now`: likewise of the partition's lists and of the layout's numbers, and a pass breaks and restores it.
// Stays: `length part.old ≡ length layout.now.vertex_weights.now`: likewise of a list and of a layout that is lent beside it.

/// A list for the passes of a refinement: room for an entry of each vertex. A pass empties as much of it as it uses.
#[derive(Drop)]
pub struct Scratch {
    entries: [Entry; 128],
}

impl Scratch {
    /// No entry yet.
    pub const NEW: Scratch = Scratch {
        entries: [Entry::NONE; 128],
    };
}

/// Enters every vertex.
fn enter_all(layout: &Layout, split: &Bipartition, entries: &mut [Entry], draws: &mut Draws)
    requires { Placed split.now.words.now (place_of layout.now) }
    ensures { AllEntered split.now.words.now (place_of layout.now) layout.now.net_weights.now (length layout.now.vertex_weights.now) (queue_in entries.old draws.old) (queue_in entries.new draws.new) }
{
    let graph = Hypergraph {
        words: split.words,
        weights: layout.net_weights,
        place: layout.place(),
    };
    queue::enter_all(&graph, entries, draws);
}

/// The start of a pass, in a list of no entries: empties the slot of the vertices that have moved, and enters every vertex.
fn start_pass(layout: &Layout, split: &mut Bipartition, entries: &mut [Entry], draws: &mut Draws)
    requires { (entries.old ≡ filled (length layout.now.vertex_weights.now) no_entry) × Site split.old.words.now (place_of layout.now) × Split split.old.words.now layout.now.sides (length layout.now.vertex_weights.now) split.old.part.now }
    ensures lent { IsSameLoan split.old split.new }
    ensures sides { sides_at split.new ≡ sides_at split.old }
    ensures starts { Starts split.old.words.now split.new.words.now layout.now.net_weights.now layout.now.vertex_weights.now (place_of layout.now) split.new.part.now draws.old draws.new entries.new }
{
    let words = &mut *split.words;
    slots::empty(words, 2, layout.sides + 2);
    enter_all(layout, split, entries, draws);
}

/// One pass, and the moves after its largest sum taken back. Did it bring more than 1e-9.
/// The lists `entries` and `moves` are for the pass; what they hold before plays no part.
fn one_pass(
    layout: &Layout,
    split: &mut Bipartition,
    most_weight: f64,
    draws: &mut Draws,
    entries: &mut [Entry],
    moves: &mut [u16],
) -> bool
    requires { Site split.old.words.now (place_of layout.now) × Split split.old.words.now layout.now.sides (length layout.now.vertex_weights.now) split.old.part.now × (length entries.old ≡ length layout.now.vertex_weights.now) × (length layout.now.vertex_weights.now ≤ length moves.old) }
    ensures lent { IsSameLoan split.old split.new }
    ensures leads { Leads layout.now.net_weights.now layout.now.vertex_weights.now (place_of layout.now) (one_pass most_weight) split.old.words.now split.new.words.now (refined_as split.old.part.now split.old.loads true draws.old) (refined_as split.new.part.now split.new.loads result draws.new) }
{
    cells::fill(entries, Entry::NONE);
    start_pass(layout, split, entries, draws);
    let mut pass = Pass {
        count: 0,
        sum: 0.0,
        best: 0.0,
        peak: 0,
        over: false,
    };
    fmpass::run_on(layout, split, most_weight, entries, draws, moves, &mut pass);
    split.roll_back(layout, moves, &pass);
    !(pass.best <= 1e-9)
}

/// As many passes as `most`, while they bring something. Did each of them.
// Stays: the passes lend lists, which a closure of `all` would hold.
fn all_passes(
    layout: &Layout,
    split: &mut Bipartition,
    most_weight: f64,
    most: usize,
    draws: &mut Draws,
    entries: &mut [Entry],
    moves: &mut [u16],
) -> bool
    requires { Site split.old.words.now (place_of layout.now) × Split split.old.words.now layout.now.sides (length layout.now.vertex_weights.now) split.old.part.now × (length entries.old ≡ length layout.now.vertex_weights.now) × (length layout.now.vertex_weights.now ≤ length moves.old) }
    ensures lent { IsSameLoan split.old split.new }
    ensures leads { Leads layout.now.net_weights.now layout.now.vertex_weights.now (place_of layout.now) (λ H z. passes H most_weight most z) split.old.words.now split.new.words.now (refined_as split.old.part.now split.old.loads true draws.old) (refined_as split.new.part.now split.new.loads result draws.new) }
{
    // Stays: a number of passes, over no list.
    for _ in 0..most {
        if !one_pass(layout, split, most_weight, draws, entries, moves) {
            return false;
        }
    }
    true
}

/// Refines a partition in as many passes as `most`, while they bring something; no side gets heavier than `most_weight` by a move. The hypergraph's slots stand
/// before the slot `sides` of the layout; that one and the next two are for the sides and for the vertices that have moved.
pub fn fm(
    layout: &Layout,
    words: &mut [u64],
    part: &mut [u8],
    most_weight: f64,
    most: usize,
    draws: &mut Draws,
)
    requires { Site words.old (place_of layout.now) × (length part.old ≡ length layout.now.vertex_weights.now) × Bits part.old }
    ensures { Refines layout.now most_weight most words.old words.new part.old part.new draws.old draws.new }
{
    let mut scratch = Scratch::NEW;
    fm_in(layout, words, part, most_weight, most, draws, &mut scratch);
}

/// The same with a list that is lent, so that one list serves many refinements.
// Stays: the parameters of `fm` and the list; a struct that lends it beside others would be made for each refinement.
#[inline(always)]
pub fn fm_in(
    layout: &Layout,
    words: &mut [u64],
    part: &mut [u8],
    most_weight: f64,
    most: usize,
    draws: &mut Draws,
    scratch: &mut Scratch,
)
    requires { Site words.old (place_of layout.now) × (length part.old ≡ length layout.now.vertex_weights.now) × Bits part.old }
    ensures { Refines layout.now most_weight most words.old words.new part.old part.new draws.old draws.new }
{
    moves::lay_sides(words, layout.sides, part);
    let left = moves::weight_on(part, layout.vertex_weights, 0);
    let right = moves::weight_on(part, layout.vertex_weights, 1);
    let mut split = Bipartition {
        words,
        part,
        loads: [left, right],
    };
    let n = layout.vertex_weights.len();
    let mut moves = [0u16; 128];
    all_passes(
        layout,
        &mut split,
        most_weight,
        most,
        draws,
        &mut scratch.entries[..n],
        &mut moves,
    );
}
