//! One caller over any nodes, and its calls by each technique.
ghost use Rattle.std.specs.Prelude.{◌≡◌};
ghost use Rattle.std_alloc.specs.Arc.{arc_value};
ghost use Rattle.ks_history.specs.Done.{coupling, give_up, link_move};
ghost use Rattle.ks_arena.specs.Of.{IsEmptyPassOf};
ghost use Rattle.ks_c.specs.Made.{Makes};

use crate::answers::{Answer, tell, tell_put};
use ks_arena::laws::reuse_law;
use ks_arena::{Arena, Pass};
use ks_flow::{Discipline, Link, Tree};
use ks_gate::NoGate;
use ks_node::{Linked, Node, Ranged, Unlinked};
use ks_places::Placing;
use ks_shape::tries_law;
use std::alloc::Global;
use std::sync::Arc;

/// What a call does at its key.
#[derive(Clone, Copy)]
pub enum Call {
    /// Finds the value.
    Get,
    /// Sets the value.
    Put { value: u128 },
    /// Sets the value if there is none.
    Add { value: u128 },
    /// Sets the value to `new` if it is `old`.
    Swap { old: u128, new: u128 },
    /// Deletes the value.
    Del,
}

/// Words that nobody uses, as many as a cache line has.
#[derive(Clone, Copy)]
struct Apart {
    words: [u64; 8],
}

/// One caller of a dictionary over nodes `N`: the dictionary, which it shares with the other callers, and its pass. Those of
/// two callers share no cache line of 128 bytes.
#[derive(Drop)]
pub struct CallerOf<N: Node, D: Discipline> {
    before: Apart,
    pub arena: Arc<Arena<N, D>, Global>,
    pub pass: Pass<N, D>,
    after: Apart,
}

impl<N: Node, D: Discipline> CallerOf<N, D> {
    /// The caller of a dictionary that has this pass.
    pub fn new(arena: Arc<Arena<N, D>, Global>, pass: Pass<N, D>) -> CallerOf<N, D>
        ensures arena { arc_value result.arena ≡ arc_value arena }
        ensures pass { result.pass ≡ pass }
    {
        let apart = Apart { words: [0; 8] };
        CallerOf {
            before: apart,
            arena,
            pass,
            after: apart,
        }
    }
}

/// Makes a call along links, writes its result to `out`, and returns its code.
pub fn along_links<N: Linked>(
    caller: &mut CallerOf<N, Link>,
    key: u64,
    call: Call,
    out: &mut Answer,
) -> u32
    requires { IsEmptyPassOf (arc_value caller.old.arena) caller.old.pass }
    ensures { Makes link_move call (N.Places.place_of key) caller.old caller.new result out.new }
{
    reuse_law::<Link>();
    tries_law();
    let place = N::Places::place(key);
    match call {
        Call::Get => tell(
            ks_link::try_get(&caller.arena, &mut caller.pass, &NoGate, place),
            out,
        ),
        Call::Put { value } => tell_put(
            ks_link::try_put(&caller.arena, &mut caller.pass, &NoGate, place, value),
            out,
        ),
        Call::Add { value } => tell_put(
            ks_link::try_add(&caller.arena, &mut caller.pass, &NoGate, place, value),
            out,
        ),
        Call::Swap { old, new } => tell(
            ks_link::try_swap(&caller.arena, &mut caller.pass, &NoGate, place, old, new),
            out,
        ),
        Call::Del => tell(
            ks_link::try_del(&caller.arena, &mut caller.pass, &NoGate, place),
            out,
        ),
    }
}

/// Makes a call by giving up, writes its result to `out`, and returns its code.
pub fn by_giving_up<N: Ranged + Unlinked>(
    caller: &mut CallerOf<N, Tree>,
    key: u64,
    call: Call,
    out: &mut Answer,
) -> u32
    requires { IsEmptyPassOf (arc_value caller.old.arena) caller.old.pass }
    ensures { Makes give_up call (N.Places.place_of key) caller.old caller.new result out.new }
{
    reuse_law::<Tree>();
    tries_law();
    let place = N::Places::place(key);
    match call {
        Call::Get => tell(
            ks_giveup::try_get(&caller.arena, &mut caller.pass, &NoGate, place),
            out,
        ),
        Call::Put { value } => tell_put(
            ks_giveup::try_put(&caller.arena, &mut caller.pass, &NoGate, place, value),
            out,
        ),
        Call::Add { value } => tell_put(
            ks_giveup::try_add(&caller.arena, &mut caller.pass, &NoGate, place, value),
            out,
        ),
        Call::Swap { old, new } => tell(
            ks_giveup::try_swap(&caller.arena, &mut caller.pass, &NoGate, place, old, new),
            out,
        ),
        Call::Del => tell(
            ks_giveup::try_del(&caller.arena, &mut caller.pass, &NoGate, place),
            out,
        ),
    }
}

/// Makes a call by lock coupling, writes its result to `out`, and returns its code.
pub fn by_coupling<N: Unlinked>(
    caller: &mut CallerOf<N, Tree>,
    key: u64,
    call: Call,
    out: &mut Answer,
) -> u32
    requires { IsEmptyPassOf (arc_value caller.old.arena) caller.old.pass }
    ensures { Makes coupling call (N.Places.place_of key) caller.old caller.new result out.new }
{
    reuse_law::<Tree>();
    tries_law();
    let place = N::Places::place(key);
    match call {
        Call::Get => tell(
            ks_coupling::try_get(&caller.arena, &mut caller.pass, &NoGate, place),
            out,
        ),
        Call::Put { value } => tell_put(
            ks_coupling::try_put(&caller.arena, &mut caller.pass, &NoGate, place, value),
            out,
        ),
        Call::Add { value } => tell_put(
            ks_coupling::try_add(&caller.arena, &mut caller.pass, &NoGate, place, value),
            out,
        ),
        Call::Swap { old, new } => tell(
            ks_coupling::try_swap(&caller.arena, &mut caller.pass, &NoGate, place, old, new),
            out,
        ),
        Call::Del => tell(
            ks_coupling::try_del(&caller.arena, &mut caller.pass, &NoGate, place),
            out,
        ),
    }
}
