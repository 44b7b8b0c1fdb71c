// A pass of refinement over the queue in three lent lists: keys, stamps and flags, each by vertex. A flag of 1 waits, and any other does not.
ghost use Rattle.std.specs.Prelude.{false, ◌≡◌, ℕ, ◌+◌, ◌<◌, ◌≤◌, length, Float, IfSome};
ghost use Rattle.spec.specs.Lists.{memb};
ghost use Rattle.spec.specs.Fm.{waits, largest, pass_turn};
ghost use Rattle.partition.specs.Layout.{place_of, Placed};
ghost use Rattle.queue.specs.Open.{open_in};
ghost use Rattle.queue.specs.Queues.{queue_of, no_words, first_of};
ghost use Rattle.fm.specs.Again.{Stamped};
ghost use Rattle.fm.specs.Neighbours.{NeighboursAgain};
ghost use Rattle.fmpass.specs.State.{lists_apart, IsSameLoan, run_in, moves_in, Stands, Brings, Ran};
ghost use Rattle.fmpass.specs.Makes.{made_move};

// Stays: `keys, stamps, waiting`, `keys: &mut [f64], stamps: &mut [u64]`, `stamps: &mut [u64], waiting: &mut [u8]`, `waiting: &mut [u8], draws: &mut Draws`: a flag is any byte, so
// the three lists are no list of entries; in a struct that lends them with the draws each function would say besides that the same lists come back.
// Stays: `layout: &Layout, work: &Work`, `layout: &Layout, work: &mut Work`, `draws: &mut Draws, pass: &mut Pass`: the layout is read by all, while the work, the draws and the
// counts are lent for one pass, each by a caller that reads them by themselves after it.
// Stays: `IsSameLoan work.old work.new`: what each step that is lent the lists promises; no value could hold it, as it is of two times.
// Stays: `Stands (place_of layout.now) (lists_apart work.old keys.old stamps.old waiting.old) (run_in pass.old draws.old)`: one fact of seven values that are lent apart, broken and
// restored within a turn.
// Stays: `Stamped 1073741824 stamps.old`, `layout.now.sides < 32766`, `v < length layout.now.vertex_weights.now`: bounds of numbers, so that a slot and a stamp fit a
// word; types of their own would be unwrapped at each use.

use crate::Work;
use draws::Draws;
use moves::Pass;
use partition::{Hypergraph, Layout};

/// The vertex whose entry comes first of all.
// Stays: a call of the queue's, with the words, the slot and the number of vertices that the work and the layout have.
fn first(
    layout: &Layout,
    work: &Work,
    keys: &[f64],
    stamps: &[u64],
    waiting: &[u8],
) -> Option<usize>
    requires { (layout.now.sides < 32768) × (length layout.now.vertex_weights.now ≤ 128) × ((v : ℕ) → v < length layout.now.vertex_weights.now → open_in work.now.words.now layout.now.sides v ≡ false → waits (queue_of keys.now stamps.now waiting.now no_words) v ≡ false) }
    ensures first { first_of (queue_of keys.now stamps.now waiting.now no_words) result ≡ largest (length layout.now.vertex_weights.now) (queue_of keys.now stamps.now waiting.now no_words) }
    ensures below { IfSome result (λ v. v < length layout.now.vertex_weights.now) }
{
    let n = layout.vertex_count();
    queue::lists::largest(work.words, layout.sides, keys, stamps, waiting, n)
}

/// Enters the pins of the nets of vertex `v` again, each unless it has moved.
// Stays: the three lists and the draws are lent apart, as they are to the caller.
fn enter_neighbours(
    layout: &Layout,
    work: &Work,
    keys: &mut [f64],
    stamps: &mut [u64],
    waiting: &mut [u8],
    draws: &mut Draws,
    v: usize,
)
    requires { (layout.now.sides < 32766) × (v < length layout.now.vertex_weights.now) × Placed work.now.words.now (place_of layout.now) × Stamped 1073741824 stamps.old }
    ensures { NeighboursAgain work.now.words.now (place_of layout.now) layout.now.net_weights.now (layout.now.sides + 2) v (queue_of keys.old stamps.old waiting.old draws.old) (queue_of keys.new stamps.new waiting.new draws.new) }
{
    let graph = Hypergraph {
        words: work.words,
        weights: layout.net_weights,
        place: layout.place(),
    };
    fm::lists::enter_neighbours(&graph, keys, stamps, waiting, draws, layout.sides + 2, v);
}

/// Moves vertex `v`, whose entry was taken off, and counts the move; the pins of its nets are entered again, unless the pass is over by its limit.
// Stays: the three lists and the draws are lent apart, as they are to the caller.
fn make_move(
    layout: &Layout,
    work: &mut Work,
    keys: &mut [f64],
    stamps: &mut [u64],
    waiting: &mut [u8],
    draws: &mut Draws,
    pass: &mut Pass,
    v: usize,
)
    requires { (v < length layout.now.vertex_weights.now) × (memb v (moves_in (lists_apart work.old keys.old stamps.old waiting.old) (run_in pass.old draws.old)) ≡ false) × (waits (queue_of keys.old stamps.old waiting.old draws.old) v ≡ false) × Stands (place_of layout.now) (lists_apart work.old keys.old stamps.old waiting.old) (run_in pass.old draws.old) }
    ensures lent { IsSameLoan work.old work.new }
    ensures made { (most : Float) → Brings layout.now.net_weights.now layout.now.vertex_weights.now (place_of layout.now) (made_move most v) (lists_apart work.old keys.old stamps.old waiting.old) (lists_apart work.new keys.new stamps.new waiting.new) (run_in pass.old draws.old) (run_in pass.new draws.new) }
{
    let key = cells::get_or(keys, v, 0.0);
    moves::move_vertex(
        work.words,
        layout.sides,
        layout.vertex_weights,
        work.part,
        work.loads,
        v,
    );
    slots::insert(work.words, 2, layout.sides + 2, v);
    // Stays: the number fits by what is known here; `try_from` would add a failure that never comes.
    cells::put(work.moves, pass.count, v as u16);
    pass.counted(key);
    if pass.is_past_limit(layout.vertex_count()) {
        pass.over = true;
        return;
    }
    enter_neighbours(layout, work, keys, stamps, waiting, draws, v);
    pass.over = false;
}

/// Takes the first entry off, by the flag 0; its vertex moves, unless the other side would then weigh more than `most_weight`. Without an entry the pass is over.
// Stays: the three lists and the draws are lent apart, as they are to the caller.
fn turn(
    layout: &Layout,
    work: &mut Work,
    most_weight: f64,
    keys: &mut [f64],
    stamps: &mut [u64],
    waiting: &mut [u8],
    draws: &mut Draws,
    pass: &mut Pass,
)
    requires { Stands (place_of layout.now) (lists_apart work.old keys.old stamps.old waiting.old) (run_in pass.old draws.old) }
    ensures lent { IsSameLoan work.old work.new }
    ensures turned { Brings layout.now.net_weights.now layout.now.vertex_weights.now (place_of layout.now) (λ H p. pass_turn H most_weight p) (lists_apart work.old keys.old stamps.old waiting.old) (lists_apart work.new keys.new stamps.new waiting.new) (run_in pass.old draws.old) (run_in pass.new draws.new) }
{
    let Some(v) = first(layout, work, keys, stamps, waiting) else {
        pass.over = true;
        return;
    };
    cells::put(waiting, v, 0);
    if crate::fits(layout, work, most_weight, v) {
        make_move(layout, work, keys, stamps, waiting, draws, pass, v);
        return;
    }
    pass.over = false;
}

/// Turn after turn until the pass is over, as often as (n + 1)² at most. The vertices that are moved go to the list of `work`. A flag of 1 waits, and any other does not; the
/// flag of an entry that is taken off becomes 0, and that of one that is entered 1.
// Stays: the loop ends early where the pass does; the turns lend lists, which a closure of `any` would hold.
pub fn run_pass(
    layout: &Layout,
    work: &mut Work,
    most_weight: f64,
    keys: &mut [f64],
    stamps: &mut [u64],
    waiting: &mut [u8],
    draws: &mut Draws,
    pass: &mut Pass,
)
    requires { Stands (place_of layout.now) (lists_apart work.old keys.old stamps.old waiting.old) (run_in pass.old draws.old) }
    ensures lent { IsSameLoan work.old work.new }
    ensures ran { Ran layout.now most_weight (lists_apart work.old keys.old stamps.old waiting.old) (lists_apart work.new keys.new stamps.new waiting.new) (run_in pass.old draws.old) (run_in pass.new draws.new) }
{
    let n = layout.vertex_count();
    // Stays: a number of turns, over no list.
    for _ in 0..(n + 1) * (n + 1) {
        if pass.over {
            return;
        }
        turn(
            layout,
            work,
            most_weight,
            keys,
            stamps,
            waiting,
            draws,
            pass,
        );
    }
}
