//! An edge in another range.

ghost use Rattle.std.specs.Prelude.{◌≡◌};
ghost use Rattle.ks_node.specs.Spans.{cut_one};

use ks_keysets::{Edge, Span};

/// An edge with another range: it begins in it, and the last edge runs to its end.
pub fn cut_edge(edge: Edge, range: &Span, is_last: bool) -> Edge
    ensures { result ≡ cut_one range.now is_last edge }
{
    let last = if is_last { range.last } else { edge.span.last };
    Edge {
        span: Span {
            low: range.low.max(edge.span.low),
            last,
        },
        node: edge.node,
    }
}
