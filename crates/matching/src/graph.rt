ghost use Rattle.std.specs.Prelude.{◌<◌, length};
ghost use Rattle.matching.specs.Meshed.{Meshed};

use partition::Layout;

/// A hypergraph in slots of lent words, with no partition: the pins of net `e` are the members of slot `nets + e` of the layout, of two words, and the nets of
/// vertex `v` are those of slot `vertices + v`, of four words.
#[derive(Clone, Copy)]
pub struct Graph<'a> {
    pub words: &'a [u64],
    pub layout: Layout<'a>,
    ghost low: { (layout.nets < 32768) × (layout.vertices < 32768) },
    ghost meshed: { Meshed words.now layout.nets layout.vertices layout.net_count (length layout.vertex_weights.now) },
}
