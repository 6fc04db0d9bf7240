//! A dictionary for C: non-blocking calls, on numbers and handles.
//!
//! C has a handle for each caller of a dictionary (`Handle`): null, or a caller in a block of its own, of one of the
//! structures that C may choose (`Caller`). A call borrows the caller behind its handle and makes its call by the technique
//! of its structure. Only an open and a close write a handle, and only they are passed an allocator. `outside/guttertide.h`
//! declares the functions and says what a caller must keep.
#![tactic(auto)]

ghost use Rattle.std.specs.Prelude.{◌≡◌, ◌<◌, ◌≤◌, length};
ghost use Rattle.ks_c.specs.Calls.{HasCalled, IsHandle};
ghost use Rattle.ks_c.specs.Scans.{HasScanned, HasStayed};
ghost use Rattle.ks_c.specs.Tells.{whole};
ghost use Rattle.ks_c.specs.declared.tries.Call.TheVariants.{Add, Del, Get, Put, Swap};

mod answers;
mod caller;
mod fit;
mod handle;
mod kin;
mod life;
mod listing;
mod loose;
mod scans;
mod tries;

pub use answers::Answer;
use answers::{CLOSED, value_of};
pub use caller::Caller;
pub use fit::fits_threads;
pub use handle::{Handle, Opaque};
pub use kin::meet;
use listing::{BAD_SPAN, NO_ROOM};
pub use listing::{Entry, Listing};
use tries::Call;
pub use tries::CallerOf;

/// Makes a call through a handle, writes its result to `out`, and returns its code: `CLOSED` if the handle is not open.
fn call(caller: &mut Handle, key: u64, call: Call, out: &mut Answer) -> u32
    requires { IsHandle caller.old.inside }
    ensures { HasCalled call key caller.old.inside caller.new.inside result out.new }
{
    match caller.lend() {
        None => CLOSED,
        Some(inside) => inside.call(key, call, out),
    }
}

/// The version of this library: 65536 times the first number, 256 times the second one, and the third.
#[unsafe(no_mangle)]
pub extern "C" fn guttertide_c_version() -> u32
    ensures { result ≡ 512 }
{
    512
}

/// Finds the value of a key. Like the next four it returns a code:
///
/// - `NOTHING` or `VALUE`: the call is in the history. `out` has its number and, with `VALUE`, the value that the key had.
/// - `BUSY`, `MOVED` or `FAR`: the call was put off, and is not in the history.
/// - `CLOSED`: the handle is not open, and stays so.
#[unsafe(no_mangle)]
pub extern "C" fn guttertide_c_get(caller: &mut Handle, key: u64, out: &mut Answer) -> u32
    requires { IsHandle caller.old.inside }
    ensures { HasCalled Get key caller.old.inside caller.new.inside result out.new }
{
    call(caller, key, Call::Get, out)
}

/// Sets the value of a key. `out` has the one before. Also returns `FULL`: then `out` has the number of the call, and the map
/// is as before.
#[unsafe(no_mangle)]
pub extern "C" fn guttertide_c_put(
    caller: &mut Handle,
    key: u64,
    low: u64,
    high: u64,
    out: &mut Answer,
) -> u32
    requires { IsHandle caller.old.inside }
    ensures { HasCalled (Put (whole low high)) key caller.old.inside caller.new.inside result out.new }
{
    let value = value_of(low, high);
    call(caller, key, Call::Put { value }, out)
}

/// Sets the value of a key that has none. If the key has one, that stays, and is in `out`. Also returns `FULL`, as a put.
#[unsafe(no_mangle)]
pub extern "C" fn guttertide_c_add(
    caller: &mut Handle,
    key: u64,
    low: u64,
    high: u64,
    out: &mut Answer,
) -> u32
    requires { IsHandle caller.old.inside }
    ensures { HasCalled (Add (whole low high)) key caller.old.inside caller.new.inside result out.new }
{
    let value = value_of(low, high);
    call(caller, key, Call::Add { value }, out)
}

/// Sets the value of a key to the new one if and only if it is the old one. `out` has the value that the key had.
#[unsafe(no_mangle)]
pub extern "C" fn guttertide_c_swap(
    caller: &mut Handle,
    key: u64,
    old_low: u64,
    old_high: u64,
    new_low: u64,
    new_high: u64,
    out: &mut Answer,
) -> u32
    requires { IsHandle caller.old.inside }
    ensures { HasCalled (Swap (whole old_low old_high) (whole new_low new_high)) key
        caller.old.inside caller.new.inside result out.new }
{
    let old = value_of(old_low, old_high);
    let new = value_of(new_low, new_high);
    call(caller, key, Call::Swap { old, new }, out)
}

/// Deletes a key. `out` has the value that it had.
#[unsafe(no_mangle)]
pub extern "C" fn guttertide_c_del(caller: &mut Handle, key: u64, out: &mut Answer) -> u32
    requires { IsHandle caller.old.inside }
    ensures { HasCalled Del key caller.old.inside caller.new.inside result out.new }
{
    call(caller, key, Call::Del, out)
}

/// Lists a part of a scan through a handle, writes its result to `entries` and `out`, and returns its code: `CLOSED` if the
/// handle is not open.
fn scan(caller: &mut Handle, low: u64, last: u64, entries: &mut [Entry], out: &mut Listing) -> u32
    requires handle { IsHandle caller.old.inside }
    requires span { low ≤ last }
    requires room { 16 ≤ length entries.old }
    ensures { HasScanned low last caller.old.inside caller.new.inside entries.old entries.new result out.new }
{
    match caller.lend() {
        None => CLOSED,
        Some(inside) => inside.scan(low, last, entries, out),
    }
}

/// Makes one part of a scan of the keys from `low` to `last`, both included. The part begins at `low`, and lists in the first
/// entries just the pairs that the map has at its number, ascending. Entries that it does not need stay. Returns a code:
///
/// - `NOTHING`: the part ends at `last`.
/// - `MORE`: the part ends below `last`. `out` has the key at which the next part begins.
/// - `BUSY`, `MOVED` or `FAR`: the part was put off, and is not in the history.
/// - `BAD_SPAN`: `low` is above `last`.
/// - `NO_ROOM`: there are fewer than 16 entries, into which each part fits.
/// - `CLOSED`: the handle is not open.
/// - `UNFIT`: the structure has no scans.
///
/// With all codes but the first two all entries stay.
#[unsafe(no_mangle)]
pub extern "C" fn guttertide_c_scan(
    caller: &mut Handle,
    low: u64,
    last: u64,
    entries: &mut [Entry],
    out: &mut Listing,
) -> u32
    requires { IsHandle caller.old.inside }
    ensures span { last < low → (result ≡ BAD_SPAN) ×
        HasStayed caller.old.inside caller.new.inside entries.old entries.new }
    ensures room { low ≤ last → length entries.old < 16 → (result ≡ NO_ROOM) ×
        HasStayed caller.old.inside caller.new.inside entries.old entries.new }
    ensures scanned { low ≤ last → 16 ≤ length entries.old →
        HasScanned low last caller.old.inside caller.new.inside entries.old entries.new result out.new }
{
    if last < low {
        return BAD_SPAN;
    }
    if entries.len() < 16 {
        return NO_ROOM;
    }
    scan(caller, low, last, entries, out)
}
