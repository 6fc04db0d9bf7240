//! Searches of the list of hints, in ascending order of their lows.
ghost use Rattle.std.specs.Prelude.{◌≡◌, MatchResult};
ghost use Rattle.ks_hints.specs.Hints.{HasLowAt, LacksLowAt, LowsAscend, after_post, hint_in};

use crate::hint::Hint;
use arrayvec::ArrayVec;

/// The position of the hint with this low; as an error, the one that it would have.
fn seek(list: &[Hint], low: u64) -> Result<usize, usize>
    requires { LowsAscend list.now }
    ensures { MatchResult result (HasLowAt low list.now) (LacksLowAt low list.now) }
{
    for (i, hint) in list.iter().enumerate() {
        if hint.low == low {
            return Ok(i);
        }
        if low < hint.low {
            return Err(i);
        }
    }
    Err(list.len())
}

/// The node of the greatest low that is not above the place.
pub(crate) fn nearest(list: &[Hint], place: u64) -> Option<u32>
    requires { LowsAscend list.now }
    ensures { result ≡ hint_in list.now place }
{
    match seek(list, place) {
        Ok(at) => Some(list[at].node),
        Err(at) => {
            if at == 0 {
                return None;
            }
            Some(list[at - 1].node)
        }
    }
}

/// Takes in one hint more.
pub(crate) fn take_in(list: &mut ArrayVec<Hint, 64>, hint: Hint)
    requires { LowsAscend list.old.items }
    ensures { list.new.items ≡ after_post list.old.items hint }
{
    match seek(list.as_slice(), hint.low) {
        Ok(at) => list.as_mut_slice()[at] = hint,
        Err(at) => {
            if list.is_full() {
                list.clear();
                list.push(hint);
            } else {
                list.insert(at, hint);
            }
        }
    }
}
