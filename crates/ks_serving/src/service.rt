//! What the workers of one run share.
use ks_dictionary::Dictionary;
use ks_jobs::{About, Job};
use ks_node::Node;
use ks_shape::Ruled;
use ks_tickets::Tickets;

/// What the workers of one run share: by what they wait, the dictionary, the gate of its calls, what serves scans and moves, and
/// the tickets of the callers.
#[derive(Drop)]
pub(crate) struct Service<'a, N: Node, T: Ruled, S, R, G, W: About> {
    pub(crate) rt: &'a R,
    pub(crate) dictionary: &'a Dictionary<N, T>,
    pub(crate) gate: &'a G,
    pub(crate) reach: &'a S,
    pub(crate) tickets: &'a Tickets<Job<N, T::Rule, W>>,
}
