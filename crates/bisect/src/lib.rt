#![tactic(auto)]
// What the bisection of some leaves is made of. Here: a hypergraph halved, through coarser and coarser levels to a first partition, and back level by level, refined at each.
ghost use Rattle.std.specs.Prelude.{◌≡◌, ◌≤◌, length, take};
ghost use Rattle.spec.specs.Draws.{drawn};
ghost use Rattle.spec.specs.Bisection.{bisect};
ghost use Rattle.partition.specs.Layout.{graph_in};
ghost use Rattle.moves.specs.Laying.{Bits};
ghost use Rattle.levels.specs.Lists.{IsSameLoan};
ghost use Rattle.levels.specs.Stage.{Stage};
ghost use Rattle.bisect.specs.Through.{Through};

pub mod ends; // ends.rt: the imbalance, small ends, the node over two halves
pub mod halves; // halves.rt: the two halves of a list of leaves, by a partition
pub mod hypergraph; // hypergraph.rt: the hypergraph of some leaves

use coarsen::Size;
use draws::Draws;
use levels::{Level, Levels};

// Stays: `draws: &mut Draws, part: &mut [u8]`: draws that go on and a list to be filled; the one is passed on where the other is not.
// Stays: `level.size.vertices ≤ length part.old`: a bound of a number, so that the list has room; a type of its own would be unwrapped at each use.

// A partition of a level, at the front of the list, through coarser levels and back. It falls with the number of vertices.
fn multilevel(
    words: &mut [u64],
    lists: &mut Levels,
    level: Level,
    most_weight: f64,
    draws: &mut Draws,
    part: &mut [u8],
)
    requires { Stage words.old (length lists.old.net_weights.now) (length lists.old.vertex_weights.now) (length lists.old.places.now) level.number level.size.nets level.size.vertices × (level.size.vertices ≤ length part.old) }
    ensures lent { IsSameLoan lists.old lists.new }
    ensures through { Through level.number level.size.nets level.size.vertices most_weight draws.old draws.new words.old lists.old.net_weights.now lists.old.vertex_weights.now lists.old.places.now words.new lists.new.net_weights.now lists.new.vertex_weights.now lists.new.places.now part.new }
{
    match levels::coarsen_at(words, lists, level, most_weight / 3.0, draws) {
        Err(_) => {
            let weights = lists.weights();
            levels::initial_at(words, &weights, level, most_weight, draws, part);
        }
        Ok(size) => {
            let number = level.number + 1;
            let next = Level { number, size };
            multilevel(words, lists, next, most_weight, draws, part);
            let n = level.size.vertices;
            levels::project_at(part, lists.to_next(), level.number, n, size.vertices);
            let weights = lists.weights();
            levels::refine_at(words, &weights, level, most_weight, draws, part);
        }
    }
}

/// Halves the hypergraph of level 0.
pub fn bisect(
    words: &mut [u64],
    lists: &mut Levels,
    size: Size,
    eps: f64,
    draws: &mut Draws,
    part: &mut [u8],
)
    requires { Stage words.old (length lists.old.net_weights.now) (length lists.old.vertex_weights.now) (length lists.old.places.now) 0 size.nets size.vertices × (length part.old ≡ size.vertices) }
    ensures lent { IsSameLoan lists.old lists.new }
    ensures halved { drawn part.new draws.new ≡ bisect (graph_in words.old 0 lists.old.net_weights.now size.nets (take size.vertices lists.old.vertex_weights.now)) eps draws.old }
    ensures sides { Bits part.new }
{
    let total = levels::front_weight(lists, size.vertices);
    let most_weight = levels::side_limit(total, eps);
    let level = Level { number: 0, size };
    multilevel(words, lists, level, most_weight, draws, part);
}
