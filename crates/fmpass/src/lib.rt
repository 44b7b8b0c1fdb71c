#![tactic(auto)]
// A pass of refinement: turn after turn, the vertex of the first entry moves, if the other side can take it.
ghost use Rattle.std.specs.Prelude.{false, ◌≡◌, ℕ, ◌+◌, ◌<◌, ◌≤◌, length, Float, IfSome};
ghost use Rattle.spec.specs.Lists.{memb};
ghost use Rattle.spec.specs.Fm.{waits, largest, pass_turn};
ghost use Rattle.moves.specs.Split.{Moved, sides_as};
ghost use Rattle.moves.specs.Sums.{Fits};
ghost use Rattle.partition.specs.Layout.{place_of, Placed};
ghost use Rattle.queue.specs.Open.{open_in};
ghost use Rattle.queue.specs.Queues.{stamps_of, queue_in, no_words, first_of};
ghost use Rattle.fm.specs.Again.{Stamped};
ghost use Rattle.fm.specs.Neighbours.{NeighboursAgain};
ghost use Rattle.moves.specs.Loans.{IsSameLoan as IsSameSplit};
ghost use Rattle.fmpass.specs.State.{lists_of, lists_in, IsSameLoan, run_in, moves_in, Stands, Brings, Ran};
ghost use Rattle.fmpass.specs.Makes.{made_move};

use draws::Draws;
use moves::{Bipartition, Pass};
use partition::{Hypergraph, Layout};
use queue::Entry;

pub mod lists; // lists.rt: the same over keys, stamps and flags in three lists

// Stays: `entries: &mut [Entry], draws: &mut Draws`: the entries are emptied for each pass and the draws go on behind it; a struct of the two would be made for each pass and taken apart at each call below.
// Stays: `layout: &Layout, work: &Work`, `layout: &Layout, work: &mut Work`, `draws: &mut Draws, pass: &mut Pass`: the layout is read by all, while the work, the draws and the
// counts are lent for one pass, each by a caller that reads them by themselves after it.
// Stays: `IsSameLoan work.old work.new`: what each step that is lent the lists promises; no value could hold it, as it is of two times.
// Stays: `Stands (place_of layout.now) (lists_of work.old entries.old) (run_in pass.old draws.old)`: one fact of five values that are lent apart, broken and restored within a turn.
// Stays: `Stamped 1073741824 (stamps_of entries.old)`, `layout.now.sides < 32766`, `v < length layout.now.vertex_weights.now`: bounds of numbers, so that a slot and a stamp fit a word; types of their own would be unwrapped at each use.

/// What a pass works on: the words that hold the hypergraph, the sides and the vertices that have moved; the side of each vertex; what the sides weigh; and the
/// vertices that were moved, one after another.
#[derive(Drop)]
// Stays: one list is of words, one by vertex, one by side and one by move, so they are no rows.
pub struct Work<'a> {
    pub words: &'a mut [u64],
    pub part: &'a mut [u8],
    pub loads: &'a mut [f64],
    pub moves: &'a mut [u16],
}

/// The vertex whose entry comes first of all.
// Stays: a call of the queue's, with the words and the slot that the work and the layout have.
fn first(layout: &Layout, work: &Work, entries: &[Entry]) -> Option<usize>
    requires { (layout.now.sides < 32768) × (length entries.now ≤ 128) × ((v : ℕ) → v < length entries.now → open_in work.now.words.now layout.now.sides v ≡ false → waits (queue_in entries.now no_words) v ≡ false) }
    ensures first { first_of (queue_in entries.now no_words) result ≡ largest (length entries.now) (queue_in entries.now no_words) }
    ensures below { IfSome result (λ v. v < length entries.now) }
{
    queue::largest(work.words, layout.sides, entries)
}

/// Can the other side take vertex `v`, if no side may weigh more than `most_weight`.
fn fits(layout: &Layout, work: &Work, most_weight: f64, v: usize) -> bool
    ensures { Fits layout.now.vertex_weights.now most_weight v (sides_as work.now.part.now work.now.loads.now) result }
{
    moves::fits(work.part, work.loads, layout.vertex_weights, most_weight, v)
}

/// Enters the pins of the nets of vertex `v` again, each unless it has moved.
fn enter_neighbours(
    layout: &Layout,
    work: &Work,
    entries: &mut [Entry],
    draws: &mut Draws,
    v: usize,
)
    requires { (layout.now.sides < 32766) × (v < length layout.now.vertex_weights.now) × Placed work.now.words.now (place_of layout.now) × Stamped 1073741824 (stamps_of entries.old) }
    ensures { NeighboursAgain work.now.words.now (place_of layout.now) layout.now.net_weights.now (layout.now.sides + 2) v (queue_in entries.old draws.old) (queue_in entries.new draws.new) }
{
    let graph = Hypergraph {
        words: work.words,
        weights: layout.net_weights,
        place: layout.place(),
    };
    fm::enter_neighbours(&graph, entries, draws, layout.sides + 2, v);
}

/// Moves vertex `v`, whose entry was taken off, and counts the move; the pins of its nets are entered again, unless the pass is over by its limit.
fn make_move(
    layout: &Layout,
    work: &mut Work,
    entries: &mut [Entry],
    draws: &mut Draws,
    pass: &mut Pass,
    v: usize,
)
    requires { (v < length layout.now.vertex_weights.now) × (memb v (moves_in (lists_of work.old entries.old) (run_in pass.old draws.old)) ≡ false) × (waits (queue_in entries.old draws.old) v ≡ false) × Stands (place_of layout.now) (lists_of work.old entries.old) (run_in pass.old draws.old) }
    ensures lent { IsSameLoan work.old work.new }
    ensures made { (most : Float) → Brings layout.now.net_weights.now layout.now.vertex_weights.now (place_of layout.now) (made_move most v) (lists_of work.old entries.old) (lists_of work.new entries.new) (run_in pass.old draws.old) (run_in pass.new draws.new) }
{
    let key = cells::get_or(entries, v, Entry::NONE).key;
    moves::move_vertex(
        work.words,
        layout.sides,
        layout.vertex_weights,
        work.part,
        work.loads,
        v,
    );
    slots::insert(work.words, 2, layout.sides + 2, v);
    // Stays: the number fits by what is known here; `try_from` would add a failure that never comes.
    cells::put(work.moves, pass.count, v as u16);
    pass.counted(key);
    if pass.is_past_limit(layout.vertex_count()) {
        pass.over = true;
        return;
    }
    enter_neighbours(layout, work, entries, draws, v);
    pass.over = false;
}

/// Takes the first entry off; its vertex moves, unless the other side would then weigh more than `most_weight`. Without an entry the pass is over.
fn turn(
    layout: &Layout,
    work: &mut Work,
    most_weight: f64,
    entries: &mut [Entry],
    draws: &mut Draws,
    pass: &mut Pass,
)
    requires { Stands (place_of layout.now) (lists_of work.old entries.old) (run_in pass.old draws.old) }
    ensures lent { IsSameLoan work.old work.new }
    ensures turned { Brings layout.now.net_weights.now layout.now.vertex_weights.now (place_of layout.now) (λ H p. pass_turn H most_weight p) (lists_of work.old entries.old) (lists_of work.new entries.new) (run_in pass.old draws.old) (run_in pass.new draws.new) }
{
    let Some(v) = first(layout, work, entries) else {
        pass.over = true;
        return;
    };
    entries[v].waits = false;
    if fits(layout, work, most_weight, v) {
        make_move(layout, work, entries, draws, pass, v);
        return;
    }
    pass.over = false;
}

/// Turn after turn until the pass is over, as often as (n + 1)² at most. The vertices that are moved go to the list of `work`.
// Stays: the loop ends early where the pass does; the turns lend lists, which a closure of `any` would hold.
pub fn run_pass(
    layout: &Layout,
    work: &mut Work,
    most_weight: f64,
    entries: &mut [Entry],
    draws: &mut Draws,
    pass: &mut Pass,
)
    requires { Stands (place_of layout.now) (lists_of work.old entries.old) (run_in pass.old draws.old) }
    ensures lent { IsSameLoan work.old work.new }
    ensures ran { Ran layout.now most_weight (lists_of work.old entries.old) (lists_of work.new entries.new) (run_in pass.old draws.old) (run_in pass.new draws.new) }
{
    let n = layout.vertex_count();
    // Stays: a number of turns, over no list.
    for _ in 0..(n + 1) * (n + 1) {
        if pass.over {
            return;
        }
        turn(layout, work, most_weight, entries, draws, pass);
    }
}

/// The same on a partition; the vertices that are moved go to the list `moves`.
// Stays: what a pass writes is lent one by one, since its caller reads the moves and the sums by themselves after it.
pub fn run_on(
    layout: &Layout,
    split: &mut Bipartition,
    most_weight: f64,
    entries: &mut [Entry],
    draws: &mut Draws,
    moves: &mut [u16],
    pass: &mut Pass,
)
    requires { Stands (place_of layout.now) (lists_in split.old entries.old moves.old) (run_in pass.old draws.old) }
    ensures lent { IsSameSplit split.old split.new }
    ensures ran { Ran layout.now most_weight (lists_in split.old entries.old moves.old) (lists_in split.new entries.new moves.new) (run_in pass.old draws.old) (run_in pass.new draws.new) }
{
    let mut loads = split.loads;
    let words = &mut *split.words;
    let part = &mut *split.part;
    let mut work = Work {
        words,
        part,
        loads: &mut loads,
        moves,
    };
    run_pass(layout, &mut work, most_weight, entries, draws, pass);
    split.loads = loads;
}
