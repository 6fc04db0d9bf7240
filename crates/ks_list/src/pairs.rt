//! A block of pairs in ascending order of place.
//!
//! A search looks at one pair after the other: a node has eight at most. The clauses read the block's pairs as those of
//! a record, and say of each change what it makes of them.

ghost use Rattle.std.specs.Prelude.{◌≡◌, ◌+◌, ◌<◌, ◌≤◌, ◌++◌, [], None, length, take, drop, MatchResult};
ghost use Rattle.ks_node.specs.Keyed.{Ascends, IsRank, IsFound, IsMissing};
ghost use Rattle.ks_node.specs.Body.{value_at, pairs_below, pairs_from};
ghost use Rattle.ks_node.specs.Effect.{pairs_put, pairs_del};
ghost use Rattle.ks_list.specs.Listed.{pairs_of};

use ks_block::Block;

/// How many pairs lie below the place.
fn rank(pairs: &Block, place: u64) -> usize
    requires { Ascends (λ x. x.place) (pairs_of pairs.now.pairs) }
    ensures { IsRank (λ x. x.place) place (pairs_of pairs.now.pairs) result }
{
    for i in 0..pairs.len() {
        let (at, _) = pairs.get(i);
        if place <= at {
            return i;
        }
    }
    pairs.len()
}

/// Returns where the pair of a place is, or `Err` with where it would be.
fn seek(pairs: &Block, place: u64) -> Result<usize, usize>
    requires { Ascends (λ x. x.place) (pairs_of pairs.now.pairs) }
    ensures { MatchResult result (IsFound (λ x. x.place) place (pairs_of pairs.now.pairs))
        (IsMissing (λ x. x.place) place (pairs_of pairs.now.pairs)) }
{
    let i = rank(pairs, place);
    if i >= pairs.len() {
        return Err(i);
    }
    let (at, _) = pairs.get(i);
    if at == place { Ok(i) } else { Err(i) }
}

/// The value at a place.
pub fn value_of(pairs: &Block, place: u64) -> Option<u128>
    requires { Ascends (λ x. x.place) (pairs_of pairs.now.pairs) }
    ensures { result ≡ value_at (pairs_of pairs.now.pairs) place }
{
    match seek(pairs, place) {
        Ok(i) => {
            let (_, value) = pairs.get(i);
            Some(value)
        }
        Err(_) => None,
    }
}

/// Sets the value at a place, and returns the one that was there.
pub fn put_pair(pairs: &mut Block, place: u64, value: u128) -> Option<u128>
    requires ascend { Ascends (λ x. x.place) (pairs_of pairs.old.pairs) }
    requires room { value_at (pairs_of pairs.old.pairs) place ≡ None → length pairs.old.pairs < pairs.old.room }
    ensures pairs { pairs_of pairs.new.pairs ≡ pairs_put place value (pairs_of pairs.old.pairs) }
    ensures answer { result ≡ value_at (pairs_of pairs.old.pairs) place }
    ensures room { pairs.new.room ≡ pairs.old.room }
    ensures within { length pairs.old.pairs ≤ pairs.old.room → length pairs.new.pairs ≤ pairs.new.room }
{
    match seek(pairs, place) {
        Ok(i) => {
            let (_, old) = pairs.get(i);
            pairs.set_value(i, value);
            Some(old)
        }
        Err(i) => {
            pairs.insert_at(i, (place, value));
            None
        }
    }
}

/// Removes the pair of a place, and returns its value.
pub fn delete_pair(pairs: &mut Block, place: u64) -> Option<u128>
    requires { Ascends (λ x. x.place) (pairs_of pairs.old.pairs) }
    ensures pairs { pairs_of pairs.new.pairs ≡ pairs_del place (pairs_of pairs.old.pairs) }
    ensures answer { result ≡ value_at (pairs_of pairs.old.pairs) place }
    ensures room { pairs.new.room ≡ pairs.old.room }
    ensures fewer { length pairs.new.pairs ≤ length pairs.old.pairs }
{
    match seek(pairs, place) {
        Ok(i) => {
            let (_, value) = pairs.remove_at(i);
            Some(value)
        }
        Err(_) => None,
    }
}

/// Moves the pairs from a cut on into an empty block with as much room.
pub fn move_pairs(pairs: &mut Block, into: &mut Block, cut: u64)
    requires ascend { Ascends (λ x. x.place) (pairs_of pairs.old.pairs) }
    requires blank { into.old.pairs ≡ [] }
    requires room { length pairs.old.pairs ≤ into.old.room }
    ensures left { pairs_of pairs.new.pairs ≡ pairs_below cut (pairs_of pairs.old.pairs) }
    ensures right { pairs_of into.new.pairs ≡ pairs_from cut (pairs_of pairs.old.pairs) }
    ensures room { pairs.new.room ≡ pairs.old.room }
    ensures room_right { into.new.room ≡ into.old.room }
{
    let i = rank(pairs, cut);
    pairs.move_tail(i, into);
}

/// Moves all pairs of a block behind those of another one.
pub fn append_pairs(pairs: &mut Block, right: &mut Block)
    requires { length pairs.old.pairs + length right.old.pairs ≤ pairs.old.room }
    ensures left { pairs.new.pairs ≡ pairs.old.pairs ++ right.old.pairs }
    ensures right { right.new.pairs ≡ [] }
    ensures room { pairs.new.room ≡ pairs.old.room }
    ensures room_right { right.new.room ≡ right.old.room }
{
    for _ in 0..right.len() {
        let pair = right.remove_at(0);
        pairs.insert_at(pairs.len(), pair);
    }
}
