use crate::place::Place;

/// A hypergraph whose slots lie in words that are lent beside it: where they begin, the weight of each net, and of each vertex. A partition of the vertices lies in
/// the slots `sides` and `sides + 1`.
#[derive(Clone, Copy)]
// Stays: one list is by net and the other by vertex, so the two are no rows.
pub struct Layout<'a> {
    pub nets: usize,
    pub vertices: usize,
    pub sides: usize,
    /// How many nets there are.
    pub net_count: usize,
    pub net_weights: &'a [u8],
    pub vertex_weights: &'a [f64],
}

impl<'a> Layout<'a> {
    ghost use Rattle.std.specs.Prelude.{◌≡◌, length};
    ghost use Rattle.partition.specs.Layout.{place_of};

    /// How many vertices there are.
    #[inline]
    pub fn vertex_count(&self) -> usize
        ensures { result ≡ length self.now.vertex_weights.now }
    {
        self.vertex_weights.len()
    }

    /// Where the hypergraph and the partition lie.
    #[inline]
    // Stays: a `Place` is what is left of a layout without its lists; a `From` would be called by the name of the type in place of what it gives.
    pub fn place(&self) -> Place
        ensures { result ≡ place_of self.now }
    {
        Place {
            nets: self.nets,
            vertices: self.vertices,
            sides: self.sides,
            net_count: self.net_count,
            vertex_count: self.vertex_count(),
        }
    }
}
