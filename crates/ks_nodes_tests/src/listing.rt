//! What nodes list of the pairs of spans, beside all their pairs, tested one by one.

use ks_keysets::Few;
use ks_node::Listed;
use std::process::Abort;

/// Where spans begin and end.
const ENDS: [u64; 9] = [0, 3, 4, 5, 31, 32, 60, 61, u64::MAX];

/// The node lists of each span its pairs there, in order, and no other. Spans that run backwards are among them.
pub fn lists<N: Listed>(rt: &impl Abort, node: &N) {
    lists_between(rt, node, &ENDS);
}

fn lists_between<N: Listed>(rt: &impl Abort, node: &N, ends: &[u64]) {
    for low in ends {
        for last in ends {
            lists_span(rt, node, *low, *last);
        }
    }
}

fn lists_span<N: Listed>(rt: &impl Abort, node: &N, low: u64, last: u64) {
    let mut few = Few::new();
    node.list(low, last, &mut few);
    let mut listed = 0usize;
    for n in 0..node.pairs_held() {
        let pair = node.pair_at(n);
        if low <= pair.place && pair.place <= last {
            assert!(rt; listed < few.len());
            assert!(rt; few.pair(listed) == pair, "from {low} to {last}");
            listed += 1;
        }
    }
    assert!(rt; listed == few.len(), "from {low} to {last}");
}
