//! What calls return to C.
ghost use Rattle.std.specs.Prelude.{◌≡◌};
ghost use Rattle.ks_c.specs.Tells.{Tells, TellsFound, TellsLater, TellsPut, whole};

use ks_shape::{Later, Numbered, PutLater};

/// Done: the key had no value, or the part ended at the last key of the scan. Of an open and a close: done.
pub const NOTHING: u32 = 0;
/// Done: the key had a value.
pub const VALUE: u32 = 1;
/// No room for the key, and too few nodes were found free.
pub const FULL: u32 = 2;
/// Another caller held a node that the search came to.
pub const BUSY: u32 = 3;
/// No search for the key can reach a node any more that was on its path, and another caller changed it during the call.
pub const MOVED: u32 = 4;
/// As many nodes were taken as there are, while another caller changed some.
pub const FAR: u32 = 5;
/// The handle is not open.
pub const CLOSED: u32 = 16;
/// Not 4 to 1048576 nodes, or not 1 to 1024 callers.
pub const BAD_SIZE: u32 = 17;
/// Memory ran out.
pub const NO_MEMORY: u32 = 18;
/// A handle that is to be opened is open.
pub const IN_USE: u32 = 19;
/// No structure has this word.
pub const NO_STRUCTURE: u32 = 21;

/// What a call returns beside its code. The code says which fields have a meaning.
#[repr(C)]
#[derive(Drop)]
pub struct Answer {
    /// The number of the call in the one history of all calls, modulo 2^64; with `NOTHING`, `VALUE`, `FULL` and `MORE`.
    pub number: u64,
    /// The two halves of the value that the key had; with `VALUE`.
    pub low: u64,
    pub high: u64,
    /// With `BUSY` the node that another caller held, and that caller. With `MOVED` the node that another caller changed.
    pub node: u32,
    pub holder: u32,
}

/// A value of 128 bits from its halves.
pub fn value_of(low: u64, high: u64) -> u128
    ensures { result ≡ whole low high }
{
    high as u128 * 18446744073709551616 + low as u128
}

fn tell_found(found: Option<u128>, out: &mut Answer) -> u32
    ensures found { TellsFound found result out.new }
    ensures number { out.new.number ≡ out.old.number }
{
    match found {
        None => NOTHING,
        Some(value) => {
            out.low = (value % 18446744073709551616) as u64;
            out.high = (value / 18446744073709551616) as u64;
            VALUE
        }
    }
}

/// Writes why a call was put off to `out`, and returns its code.
pub fn tell_later(later: Later, out: &mut Answer) -> u32
    ensures { TellsLater later result out.new }
{
    match later {
        Later::Busy { node, holder } => {
            out.node = node;
            out.holder = holder;
            BUSY
        }
        Later::Moved { node } => {
            out.node = node;
            MOVED
        }
        Later::Far => FAR,
    }
}

/// Writes the result of a get, a swap or a del to `out`, and returns its code.
pub fn tell(answer: Result<Numbered, Later>, out: &mut Answer) -> u32
    ensures { Tells answer result out.new }
{
    match answer {
        Ok(done) => {
            out.number = done.number;
            tell_found(done.found, out)
        }
        Err(later) => tell_later(later, out),
    }
}

/// Writes the result of a put or an add to `out`, and returns its code.
pub fn tell_put(answer: Result<Numbered, PutLater>, out: &mut Answer) -> u32
    ensures { TellsPut answer result out.new }
{
    match answer {
        Ok(done) => {
            out.number = done.number;
            tell_found(done.found, out)
        }
        Err(PutLater::Full { number }) => {
            out.number = number;
            FULL
        }
        Err(PutLater::Later(later)) => tell_later(later, out),
    }
}
