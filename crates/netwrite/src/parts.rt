// What a network file is written from.
use fields::Asked;
use network::Accepted;

/// What a network file is written from: an accepted network, the children of a tree, if there is one, and what is asked.
#[derive(Clone, Copy)]
pub struct Parts<'a> {
    pub network: Accepted<'a>,
    pub tree: Option<&'a [u16]>,
    pub ask: Asked<'a>,
}
