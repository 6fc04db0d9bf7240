//! Reading a source to its end.

ghost use Rattle.std.specs.Prelude.{ℕ, ◌≡◌, ◌+◌, ◌<◌, ◌≤◌, List, [], Some, length, vec_len, IfOk, IfSome, OnOk, IsErrOf};
ghost use Rattle.ks_script.specs.Outside.{Rose};
ghost use Rattle.ks_script.specs.Gone.{Gone};

use crate::{ReadFault, Source};
use std::alloc::Global;

// How many bytes are asked for at a time.
const ASKED: usize = 65_536;

/// Reads to the end, and returns all the bytes. It asks for at most 65,536 bytes at a time, and stops once more
/// than `limit` bytes came. After an error some first bytes are gone, at most one more than the limit.
pub fn read_all<S: Source>(alloc: Global, source: &mut S, limit: u64) -> Result<Vec<u8>, ReadFault>
    ensures bytes { IfOk result (λ v. IfSome (S.left source.old) (λ bytes. v.items ≡ bytes)) }
    ensures end { OnOk result (IfSome (S.left source.old) (λ _. S.left source.new ≡ Some [])) }
    ensures within { IfOk result (λ v. vec_len v ≤ limit) }
    ensures long { IsErrOf result ReadFault.TooLong → IfSome (S.left source.old) (λ bytes. limit < length bytes) }
    ensures failed { IsErrOf result ReadFault.Failed → Rose (S.faults source.old) (S.faults source.new) }
    ensures count { S.faults source.old ≤ S.faults source.new }
    ensures stops { (front : List ℕ) × Gone (S.left source.old) (S.left source.new) front
        × (length front ≤ limit + 1) }
{
    let mut bytes = Vec::new(alloc);
    let mut buffer = [0; ASKED];
    loop {
        let room = limit - bytes.len() as u64;
        let most = room.min(ASKED as u64 - 1) as usize + 1;
        let Ok(count) = source.read(&mut buffer[..most]) else {
            return Err(ReadFault::Failed);
        };
        if count == 0 {
            return Ok(bytes);
        }
        if count as u64 > room {
            return Err(ReadFault::TooLong);
        }
        if bytes.extend_from_slice(&buffer[..count]).is_err() {
            return Err(ReadFault::Memory);
        }
    }
}
