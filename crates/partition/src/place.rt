/// Where a hypergraph and a partition of its vertices lie in lent words. The pins of net `e` are the members of slot `nets + e`, of two words; the nets of vertex
/// `v` are the members of slot `vertices + v`, of four words; the sides are the sets of slots `sides` and `sides + 1`, of two words.
#[derive(Clone, Copy)]
// Stays: it says where the slots of a hypergraph begin, and how many they are; no other five numbers have this meaning.
pub struct Place {
    pub nets: usize,
    pub vertices: usize,
    pub sides: usize,
    /// How many nets there are.
    pub net_count: usize,
    /// How many vertices there are.
    pub vertex_count: usize,
}

impl Place {
    ghost use Rattle.std.specs.Prelude.{◌≡◌, ◌<◌};
    ghost use Rattle.partition.specs.Layout.{Laid};
    ghost use Rattle.partition.specs.Cuts.{cut_step, IsCutWeight};

    // Stays: `e < 256`: a bound of a number, so that a place fits a machine word; a type of its own would be unwrapped at each use.

    /// The weight of the nets that are cut, with net `e`.
    fn cut_step(&self, words: &[u64], weights: &[u8], e: usize, c: f64) -> f64
        requires { (self.now.nets < 32768) × (self.now.sides < 32768) × (e < 256) }
        ensures { result ≡ cut_step words.now self.now.nets self.now.sides weights.now e c }
    {
        if crate::common(words, 2, self.nets + e, self.sides) == 0 {
            return c;
        }
        if crate::common(words, 2, self.nets + e, self.sides + 1) == 0 {
            return c;
        }
        c + f64::from(cells::get_or(weights, e, 0))
    }

    /// The weight of the nets that are cut; `weights` has the weight of each.
    pub fn cut(&self, words: &[u64], weights: &[u8]) -> f64
        requires { (self.now.nets < 32768) × (self.now.sides < 32768) × Laid words.now self.now.nets self.now.vertices self.now.sides self.now.net_count self.now.vertex_count }
        ensures { IsCutWeight words.now self.now.nets self.now.sides weights.now self.now.net_count self.now.vertex_count result }
    {
        let mut c = 0.0;
        // Stays: the nets are slots of the words, and no list.
        for e in 0..self.net_count {
            c = self.cut_step(words, weights, e, c);
        }
        c
    }
}
