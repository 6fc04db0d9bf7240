//! A bucket's own edge, and the middle of a span of whole smallest slices.

ghost use Rattle.std.specs.Prelude.{◌≡◌, cond, nat_lt, Some, None};
ghost use Rattle.std.specs.List.{list_all};
ghost use Rattle.ks_node.specs.Body.{begins, go_to, led_to};
ghost use Rattle.ks_hash.specs.Hash.{own_starts, is_whole, middle_of, cut_above};

use crate::slices::SMALLEST;
use ks_keysets::Span;
use ks_node::{Next, Start};

/// Where the search for a place goes on from a bucket.
pub(crate) fn next_by(own: Option<Start>, place: u64) -> Next
    ensures { result ≡ go_to (led_to (own_starts own) place) }
{
    match own {
        Some(start) => {
            if start.low <= place {
                Next::Go(start.node)
            } else {
                Next::Here
            }
        }
        None => Next::Here,
    }
}

/// Whether a bucket's own edge starts at a place.
pub(crate) fn begins_own(own: Option<Start>, place: u64) -> bool
    ensures { result ≡ begins place (own_starts own) }
{
    match own {
        Some(start) => start.low == place,
        None => false,
    }
}

/// Whether a bucket's own edge, if it has one, starts above a place.
pub(crate) fn own_above(own: Option<Start>, place: u64) -> bool
    ensures { result ≡ list_all (λ s. nat_lt place s.low) (own_starts own) }
{
    match own {
        Some(start) => place < start.low,
        None => true,
    }
}

/// Where the middle slice of a span of two or more whole smallest slices begins.
pub(crate) fn middle_in(span: &Span) -> Option<u64>
    ensures { result ≡ cond (is_whole span.now) (Some (middle_of span.now)) None }
{
    if span.last < span.low {
        return None;
    }
    if span.low % SMALLEST != 0 {
        return None;
    }
    if span.last % SMALLEST != SMALLEST - 1 {
        return None;
    }
    let slices = (span.last - span.low) / SMALLEST + 1;
    if slices < 2 {
        return None;
    }
    Some((span.low / SMALLEST + slices / 2) * SMALLEST)
}

/// The middle of a span of whole smallest slices if a bucket's own edge does not start there or below, else the other
/// place.
pub(crate) fn cut_by(span: &Span, own: Option<Start>, other: u64) -> u64
    ensures { result ≡ cut_above span.now own other }
{
    match middle_in(span) {
        Some(middle) => {
            if own_above(own, middle) {
                middle
            } else {
                other
            }
        }
        None => other,
    }
}
