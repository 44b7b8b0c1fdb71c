#![tactic(auto)]
// One level of bisection, in lists that hold all of them: made coarser, a coarser partition projected to it, refined. The most that a side may weigh.
ghost use Rattle.std.specs.Prelude.{◌≡◌, map, ◌+◌, ◌*◌, ◌≤◌, length, take};
ghost use Rattle.spec.specs.Floats.{zero_float, greater, lesser};
ghost use Rattle.spec.specs.Hypergraph.{fold_over, side_of};
ghost use Rattle.spec.specs.Bisection.{side_limit, initial};
ghost use Rattle.spec.specs.Fm.{fm};
ghost use Rattle.coarsen.specs.Sizes.{BySize};
ghost use Rattle.moves.specs.Laying.{Bits};
ghost use Rattle.levels.specs.Spans.{summed, span};
ghost use Rattle.levels.specs.Stage.{Stage, graph_at, Gives};
ghost use Rattle.levels.specs.Layouts.{IsLevel};
ghost use Rattle.levels.specs.Deeper.{Tried};
ghost use Rattle.levels.specs.Lists.{IsSameLoan};

use coarsen::{Size, Slots};
use draws::Draws;
use partition::Layout;

// Stays: `draws: &mut Draws, part: &mut [u8]`: draws that go on and a list to be filled; the one is passed on where the other is not.
// Stays: `limit: f64, draws: &mut Draws`: a number that stays and draws that go on; nothing else is made of the two.
// Stays: `level.size.vertices ≤ length part.old`, `n ≤ 128`: bounds of numbers, so that a list has room; a type of its own would be unwrapped at each use.

/// Lists that hold what all levels weigh, and how they hang together: the weights of level l's nets stand from place 256 l on, those of its vertices and the map to
/// the next level from place 128 l on. The slots of level l stand in words beside them: its nets from slot 512 l on, its vertices from slot 256 l + 128 on.
#[derive(Drop)]
// Stays: one list is by net and two are by vertex, and they are lent one by one to each level.
pub struct Levels<'a> {
    pub net_weights: &'a mut [u8],
    pub vertex_weights: &'a mut [f64],
    pub places: &'a mut [u16],
}

/// What the nets and the vertices of all levels weigh, where they are only read.
#[derive(Clone, Copy)]
// Stays: one list is by net and the other by vertex, so the two are no rows.
pub struct Weights<'a> {
    pub nets: &'a [u8],
    pub vertices: &'a [f64],
}

/// A level: its number, and how many nets and vertices its hypergraph has.
#[derive(Clone, Copy)]
// Stays: where a level's lists begin and how far they go; a type for this and for another number with a size would name neither.
pub struct Level {
    pub number: usize,
    pub size: Size,
}

impl<'a> Levels<'a> {
    /// What the nets and the vertices weigh, to be read.
    pub fn weights(&self) -> Weights<'_>
        ensures { (result.nets.now ≡ self.now.net_weights.now) × (result.vertices.now ≡ self.now.vertex_weights.now) }
    {
        Weights {
            nets: self.net_weights,
            vertices: self.vertex_weights,
        }
    }

    /// The vertex of the next level that each vertex is part of, to be read.
    // Stays: it lends one of three lists to be read; a `From` of all three would not say which.
    pub fn to_next(&self) -> &[u16]
        ensures { result.now ≡ self.now.places.now }
    {
        self.places
    }
}

impl<'a> Weights<'a> {
    /// The hypergraph of a level; the slots of the sides stand behind those of all levels.
    fn layout(&self, level: &Level) -> Layout<'a>
        requires { (level.now.number ≤ 27) × (level.now.size.vertices ≤ 128) × (7168 ≤ length self.now.nets.now) × (3584 ≤ length self.now.vertices.now) }
        ensures { IsLevel self.now.nets.now self.now.vertices.now level.now.number level.now.size.nets level.now.size.vertices result }
    {
        // Stays: the lists hold all levels, 256 nets and 128 vertices for each, as the lent words do; no list of lists without a heap.
        let net = level.number * 256;
        let nets = net + 256;
        // Stays: 128 places for each level, as above.
        let first = level.number * 128;
        let end = first + level.size.vertices;
        Layout {
            nets: level.number * 512,
            vertices: level.number * 256 + 128,
            sides: 14336,
            net_count: level.size.nets,
            net_weights: &self.nets[net..nets],
            vertex_weights: &self.vertices[first..end],
        }
    }
}

/// The sum of the vertices' weights.
pub fn total_weight(vw: &[f64]) -> f64
    ensures { result ≡ fold_over summed vw.now zero_float }
{
    let mut sum = 0.0;
    for &w in vw {
        sum = sum + w;
    }
    sum
}

/// The sum of the weights of the first `n` vertices of level 0.
pub fn front_weight(levels: &Levels, n: usize) -> f64
    requires { n ≤ length levels.now.vertex_weights.now }
    ensures { result ≡ fold_over summed (take n levels.now.vertex_weights.now) zero_float }
{
    total_weight(&levels.vertex_weights[..n])
}

// The greater of two numbers.
// Stays: a comparison of f64 that the definition names: std's `max` answers otherwise for a number that is not one.
fn greater(x: f64, y: f64) -> f64
    ensures { result ≡ greater x y }
{
    if x < y {
        return y;
    }
    x
}

// The lesser of two numbers.
// Stays: a comparison of f64 that the definition names: std's `min` answers otherwise for a number that is not one.
fn lesser(x: f64, y: f64) -> f64
    ensures { result ≡ lesser x y }
{
    if y < x {
        return y;
    }
    x
}

/// The most that a side may weigh.
pub fn side_limit(total: f64, eps: f64) -> f64
    ensures { result ≡ side_limit total eps }
{
    let least = total / 2.0 + 1.0;
    let wanted = greater(total * (1.0 + eps) / 2.0, least);
    let most = greater(0.95 * total, least);
    lesser(wanted, most)
}

// Each vertex comes to the side of the coarse vertex that it is part of.
// Stays: by place, as of a list that is written through a zip only the length is known afterwards.
fn project(part: &mut [u8], coarse: &[u8], places: &[u16])
    requires { length part.old ≡ length places.now }
    ensures { part.new ≡ map (side_of coarse.now) places.now }
{
    for (v, side) in part.iter_mut().enumerate() {
        let c = usize::from(cells::get_or(places, v, 0));
        *side = cells::get_or(coarse, c, 0);
    }
}

/// The same at one level: the partition of `coarse` vertices at the front of the list becomes one of `n`.
pub fn project_at(part: &mut [u8], places: &[u16], level: usize, n: usize, coarse: usize)
    requires { (level ≤ 27) × (n ≤ 128) × (n ≤ length part.old) × (coarse ≤ n) × (3584 ≤ length places.now) }
    ensures { take n part.new ≡ map (side_of (take coarse part.old)) (span (level * 128) (level * 128 + n) places.now) }
{
    let mut former = [0u8; 128];
    // Stays: the list holds all levels, 128 vertices for each; no list of lists without a heap.
    let first = level * 128;
    let end = first + n;
    cells::copy(&mut former, part, coarse);
    project(&mut part[..n], &former[..coarse], &places[first..end]);
}

/// Refines the partition of a level at the front of the list, in at most four passes.
pub fn refine_at(
    words: &mut [u64],
    weights: &Weights,
    level: Level,
    most_weight: f64,
    draws: &mut Draws,
    part: &mut [u8],
)
    requires { Stage words.old (length weights.now.nets.now) (length weights.now.vertices.now) 3584 level.number level.size.nets level.size.vertices × (level.size.vertices ≤ length part.old) × Bits (take level.size.vertices part.old) }
    ensures { Gives level.size.vertices (fm (graph_at words.old weights.now.nets.now weights.now.vertices.now level.number level.size.nets level.size.vertices) most_weight 4 (take level.size.vertices part.old) draws.old) words.old words.new part.new draws.new }
{
    let n = level.size.vertices;
    let layout = weights.layout(&level);
    refine::fm(&layout, words, &mut part[..n], most_weight, 4, draws);
}

/// A first partition of a level, at the front of the list.
pub fn initial_at(
    words: &mut [u64],
    weights: &Weights,
    level: Level,
    most_weight: f64,
    draws: &mut Draws,
    part: &mut [u8],
)
    requires { Stage words.old (length weights.now.nets.now) (length weights.now.vertices.now) 3584 level.number level.size.nets level.size.vertices × (level.size.vertices ≤ length part.old) }
    ensures { Gives level.size.vertices (initial (graph_at words.old weights.now.nets.now weights.now.vertices.now level.number level.size.nets level.size.vertices) most_weight draws.old) words.old words.new part.new draws.new }
{
    let mut trial = [0u8; 128];
    let n = level.size.vertices;
    let layout = weights.layout(&level);
    let goal = total_weight(layout.vertex_weights) / 2.0;
    initial::initial(
        words,
        &layout,
        most_weight,
        goal,
        draws,
        &mut part[..n],
        &mut trial[..n],
    );
}

// The coarser hypergraph of a level, at the next level, by lists of its own that are put into those of all levels.
// Stays: the three lists one by one, so that the promise speaks of lists and not of loans in `Levels`; an error has the size too, as of `coarsen_at`.
fn coarsen_lists(
    words: &mut [u64],
    net_weights: &mut [u8],
    vertex_weights: &mut [f64],
    places: &mut [u16],
    level: Level,
    limit: f64,
    draws: &mut Draws,
) -> Result<Size, Size>
    requires { Stage words.old (length net_weights.old) (length vertex_weights.old) (length places.old) level.number level.size.nets level.size.vertices }
    ensures { BySize (λ found m n. Tried level.number level.size.nets level.size.vertices limit draws.old draws.new words.old net_weights.old vertex_weights.old places.old words.new net_weights.new vertex_weights.new places.new found m n) result }
{
    let n = level.size.vertices;
    if n <= 48 {
        return Err(Size {
            nets: 0,
            vertices: 0,
        });
    }
    let mut weights2 = [0u8; 256];
    let mut vw2 = [0.0f64; 128];
    let mut mates = [0u16; 128];
    // Stays: 128 places for each level; no list of lists without a heap.
    let first = level.number * 128;
    let next = level.number + 1;
    let weights = Weights {
        nets: net_weights,
        vertices: vertex_weights,
    };
    let layout = weights.layout(&level);
    let slots = Slots {
        nets: next * 512,
        vertices: next * 256 + 128,
    };
    let coarse = coarsen::coarsen(
        words,
        &layout,
        limit,
        draws,
        slots,
        &mut weights2,
        &mut vw2,
        &mut places[first..first + n],
        &mut mates[..n],
    );
    cells::place(net_weights, next * 256, &weights2);
    cells::place(vertex_weights, next * 128, &vw2);
    coarse
}

/// The coarser hypergraph of a level, at the next level, with its weights and the map to it. Returns its size, as an error where the level is left as it is: one
/// of at most 48 vertices, whose size is given as 0 of both, or one that loses too few of them.
// Stays: an error has the size too: what is promised of a level that stays gives its size as of one that is found.
pub fn coarsen_at(
    words: &mut [u64],
    levels: &mut Levels,
    level: Level,
    limit: f64,
    draws: &mut Draws,
) -> Result<Size, Size>
    requires { Stage words.old (length levels.old.net_weights.now) (length levels.old.vertex_weights.now) (length levels.old.places.now) level.number level.size.nets level.size.vertices }
    ensures lent { IsSameLoan levels.old levels.new }
    ensures tried { BySize (λ found m n. Tried level.number level.size.nets level.size.vertices limit draws.old draws.new words.old levels.old.net_weights.now levels.old.vertex_weights.now levels.old.places.now words.new levels.new.net_weights.now levels.new.vertex_weights.now levels.new.places.now found m n) result }
{
    coarsen_lists(
        words,
        levels.net_weights,
        levels.vertex_weights,
        levels.places,
        level,
        limit,
        draws,
    )
}
