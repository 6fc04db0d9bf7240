//! What packed calls and packed replies share: numbers below 2^24 in two parts, so that they leave room for a tag and for
//! 32 bits more in 8 bytes, and lists whose items are named by their places.

ghost use Rattle.std.specs.Prelude.{◌≡◌, ◌≤◌, ◌++◌, [], ◌∷◌, None, length, IfSome, IfOk, OnOk, OnErr};
ghost use Rattle.ks_script.specs.Parts.{joined};

use std::alloc::AllocError;

/// The upper 8 and the lower 16 bits of a number below 2^24; none of a greater one.
#[inline(always)]
pub(crate) fn parts(number: u64) -> Option<(u8, u16)>
    ensures some { IfSome result (λ p. joined p.0 p.1 ≡ number) }
    ensures none { result ≡ None → 16777216 ≤ number }
{
    if number >= 16_777_216 {
        return None;
    }
    Some(((number / 65_536) as u8, (number % 65_536) as u16))
}

/// The number of these upper 8 and lower 16 bits.
#[inline(always)]
pub(crate) fn joined(high: u8, low: u16) -> u64
    ensures { result ≡ joined high low }
{
    u64::from(high) * 65_536 + u64::from(low)
}

/// Puts an item behind the others, and returns its place. Places from 2^32 on count as lack of memory.
#[inline(always)]
pub(crate) fn kept_at<T: Drop>(items: &mut Vec<T>, item: T) -> Result<u32, AllocError>
    ensures place { IfOk result (λ at. at ≡ length items.old.items) }
    ensures ok { OnOk result (items.new.items ≡ items.old.items ++ item ∷ []) }
    ensures err { OnErr result (items.new.items ≡ items.old.items) }
{
    let Ok(at) = u32::try_from(items.len()) else {
        return Err(AllocError);
    };
    items.push(item)?;
    Ok(at)
}
