#![tactic(auto)]
// A first partition: the best of eight growths, each refined.
ghost use Rattle.std.specs.Prelude.{◌≡◌, ◌<◌, length, Some};
ghost use Rattle.spec.specs.Bisection.{half, better};
ghost use Rattle.partition.specs.Layout.{graph_in, place_of};
ghost use Rattle.moves.specs.Kept.{Site};
ghost use Rattle.initial.specs.Tried.{Tried};
ghost use Rattle.initial.specs.Least.{candidate_as, best_of, Initial};

use draws::Draws;
use matching::Graph;
use partition::Layout;
use refine::Scratch;

// Stays: `words: &mut [u64], layout: &Layout`: the one is written and the other read; a struct of both would be taken apart at each call below.
// Stays: `goal: f64, draws: &mut Draws`: a number that stays and draws that go on; nothing else is made of the two.
// Stays: `0 < length layout.now.vertex_weights.now`, `Site words.old (place_of layout.now)`: facts of a layout and of the words lent beside it; `Layout` holds no words, and one of no vertices is taken elsewhere.

// One try, in the list `trial`: a growth, refined in at most eight passes, which work in `scratch`. Returns the weight of its cut nets.
// Stays: what `initial` is lent and a list of its own; a struct of these would be made for each try.
fn try_once(
    words: &mut [u64],
    layout: &Layout,
    most_weight: f64,
    goal: f64,
    draws: &mut Draws,
    trial: &mut [u8],
    scratch: &mut Scratch,
) -> f64
    requires { (length trial.old ≡ length layout.now.vertex_weights.now) × (0 < length layout.now.vertex_weights.now) × Site words.old (place_of layout.now) × (goal ≡ half (graph_in words.old layout.now.nets layout.now.net_weights.now layout.now.net_count layout.now.vertex_weights.now)) }
    ensures { Tried layout.now.net_weights.now layout.now.vertex_weights.now (place_of layout.now) most_weight draws.old draws.new words.old words.new trial.new result }
{
    let graph = Graph {
        words,
        layout: *layout,
    };
    growth::grown(&graph, goal, draws, trial);
    refine::fm_in(layout, words, trial, most_weight, 8, draws, scratch);
    layout.place().cut(words, layout.net_weights)
}

// Of the best try so far, whose cut weighs `best`, and a new one, the one of the lesser cut, and the first of two that are equal. Returns the weight of its cut.
fn keep_better(part: &mut [u8], trial: &[u8], best: Option<f64>, cut: f64) -> f64
    requires { length part.old ≡ length trial.now }
    ensures { Some (candidate_as result part.new) ≡ Some (better (best_of best part.old) (candidate_as cut trial.now)) }
{
    if let Some(least) = best {
        if !(cut < least) {
            return least;
        }
    }
    part.copy_from_slice(trial);
    cut
}

/// The best of eight tries, in `part`. The list `trial` is for each of them. `goal` is half of the weight; no side gets heavier than `most_weight` by a move.
// Stays: what is lent here is lent for this call alone, read or written, by callers that hold it apart; a struct of it would be made at the one call.
pub fn initial(
    words: &mut [u64],
    layout: &Layout,
    most_weight: f64,
    goal: f64,
    draws: &mut Draws,
    part: &mut [u8],
    trial: &mut [u8],
)
    requires { (length trial.old ≡ length layout.now.vertex_weights.now) × (0 < length layout.now.vertex_weights.now) × Site words.old (place_of layout.now) × (goal ≡ half (graph_in words.old layout.now.nets layout.now.net_weights.now layout.now.net_count layout.now.vertex_weights.now)) × (length part.old ≡ length layout.now.vertex_weights.now) }
    ensures { Initial layout.now.net_weights.now layout.now.vertex_weights.now layout.now.nets layout.now.vertices layout.now.sides layout.now.net_count most_weight words.old draws.old words.new part.new draws.new }
{
    let mut scratch = Scratch::NEW;
    let mut best = None;
    // Stays: eight tries, over no list.
    for _ in 0usize..8 {
        let cut = try_once(words, layout, most_weight, goal, draws, trial, &mut scratch);
        best = Some(keep_better(part, trial, best, cut));
    }
}
