// What a search over a node's region is asked for.
ghost use Rattle.std.specs.Prelude.{◌≤◌};

use network::Accepted;

/// What a search over a node's region is asked for.
#[derive(Clone, Copy)]
pub struct Search<'a> {
    /// the indices that are left out, by a byte that is not 0
    pub flags: &'a [u8],
    /// the most members of a region
    pub k: usize,
    /// the most size bits of a table that the search makes, but for the region's own
    pub limit: Option<u16>,
    ghost clamped: { (3 ≤ k) × (k ≤ 12) },
}

/// The network whose tree is improved, and what each search is asked for.
#[derive(Clone, Copy)]
pub struct Task<'a, 'b> {
    pub network: Accepted<'a>,
    pub search: Search<'b>,
}
