//! The least layer above an arena: callers take, claim and release nodes, by only the clauses of the arena.
#![tactic(auto)]

ghost use Rattle.std.specs.Prelude.{◌≡◌, ◌∷◌, ◌++◌};
ghost use Rattle.ks_history.specs.declared.Event.TheVariants.{Take, Give};
ghost use Rattle.ks_arena.specs.Clauses.{hand_of, mine_of, seen_of};
ghost use Rattle.ks_arena_tests.specs.Turns.{met_events, IsMetDue, claim_events, IsClaimDue};
ghost use Rattle.ks_arena.specs.Of.{Holds, IsPassOf, IsEmptyPassOf, IsNodeOf, nodes_of, SameCaller, caller_of};

mod gets;
mod many;
mod puts;

pub use gets::{GetOutcome, both_get, get_at_root, look_up};
use ks_arena::laws::root_stays_law;
use ks_arena::{Arena, Pass, Taken};
use ks_flow::{Discipline, Tree};
use ks_list::ListNode;
use ks_node::Node;
pub use many::claim_of_many;
pub use puts::{PutOutcome, both_put, put_at_root, put_four, work};
use std::sync::Wait;
use std::thread::{Threads, join};

/// The result of a try to claim two nodes.
#[derive(Clone, Copy, Debug, PartialEq, Eq)]
pub enum Claimed {
    Two(u32, u32),
    One(u32),
    Nil,
}

/// Claims two nodes and releases them in the order in which they were claimed.
pub fn claim_two<N: Node, D: Discipline>(arena: &Arena<N, D>, pass: &mut Pass<N, D>) -> Claimed
    requires { IsEmptyPassOf arena.now pass.old }
    ensures pass { IsEmptyPassOf arena.now pass.new }
    ensures caller { SameCaller pass.old pass.new }
    ensures mine { mine_of pass.new ≡ claim_events (caller_of pass.old) result ++ mine_of pass.old }
    ensures due { IsClaimDue (nodes_of arena.now) (seen_of pass.old) (seen_of pass.new) result }
{
    let Some(first) = arena.claim(pass) else {
        return Claimed::Nil;
    };
    let one = first.node;
    let Some(second) = arena.claim(pass) else {
        arena.give(pass, first);
        return Claimed::One(one);
    };
    let two = second.node;
    arena.give(pass, first);
    arena.give(pass, second);
    Claimed::Two(one, two)
}

/// The result of a try to take a node.
#[derive(Clone, Copy, Debug, PartialEq, Eq)]
pub enum Met {
    Ready,
    Busy(u32),
    Gone,
}

/// Tries to take the node, and releases it at once.
pub fn meet<N: Node, D: Discipline>(arena: &Arena<N, D>, pass: &mut Pass<N, D>, node: u32) -> Met
    requires pass { IsPassOf arena.now pass.old }
    requires node { IsNodeOf arena.now node }
    requires fresh { ¬ Holds pass.old node }
    ensures pass { IsPassOf arena.now pass.new }
    ensures caller { SameCaller pass.old pass.new }
    ensures hand { hand_of pass.new ≡ hand_of pass.old }
    ensures mine { mine_of pass.new ≡ met_events (caller_of pass.old) node result ++ mine_of pass.old }
    ensures due { IsMetDue node (seen_of pass.new) result }
{
    match arena.try_take(pass, node) {
        Taken::Held(held) => {
            arena.give(pass, held);
            Met::Ready
        }
        Taken::Busy { holder } => Met::Busy(holder),
        Taken::Gone => Met::Gone,
    }
}

/// Takes node 0 once nobody else holds it, and releases it.
pub fn pass_through<N: Node, D: Discipline, R: Wait>(
    rt: &R,
    arena: &Arena<N, D>,
    pass: &mut Pass<N, D>,
)
    requires { IsEmptyPassOf arena.now pass.old }
    ensures pass { IsEmptyPassOf arena.now pass.new }
    ensures caller { SameCaller pass.old pass.new }
    ensures mine { mine_of pass.new ≡ Give (caller_of pass.old) 0 ∷ Take (caller_of pass.old) 0 ∷ mine_of pass.old }
{
    root_stays_law::<D>();
    match arena.take(rt, pass, 0) {
        Some(held) => arena.give(pass, held),
        None => unreachable!(),
    }
}

/// Passes through node 0 once, and returns the pass.
pub fn visit<N: Node, D: Discipline, R: Wait>(
    rt: &R,
    arena: &Arena<N, D>,
    mut pass: Pass<N, D>,
) -> Pass<N, D>
    requires { IsEmptyPassOf arena.now pass }
    ensures pass { IsEmptyPassOf arena.now result × SameCaller pass result }
    ensures mine { mine_of result ≡ Give (caller_of pass) 0 ∷ Take (caller_of pass) 0 ∷ mine_of pass }
{
    pass_through(rt, arena, &mut pass);
    pass
}

/// Both callers pass through node 0 at once.
pub fn both<R: Threads + Wait + Sync>(
    rt: &R,
    arena: &Arena<ListNode, Tree>,
    one: Pass<ListNode, Tree>,
    two: Pass<ListNode, Tree>,
) -> (Pass<ListNode, Tree>, Pass<ListNode, Tree>)
    requires one { IsEmptyPassOf arena.now one }
    requires two { IsEmptyPassOf arena.now two }
    ensures one { IsEmptyPassOf arena.now result.0 × SameCaller one result.0 }
    ensures two { IsEmptyPassOf arena.now result.1 × SameCaller two result.1 }
    ensures events_of_one { mine_of result.0 ≡ Give (caller_of one) 0 ∷ Take (caller_of one) 0 ∷ mine_of one }
    ensures events_of_two { mine_of result.1 ≡ Give (caller_of two) 0 ∷ Take (caller_of two) 0 ∷ mine_of two }
{
    join(
        rt,
        move || -> Pass<ListNode, Tree>
            requires { IsEmptyPassOf arena.now one }
            ensures pass { IsEmptyPassOf arena.entry.now result × SameCaller one result }
            ensures mine { mine_of result ≡ Give (caller_of one) 0 ∷ Take (caller_of one) 0 ∷ mine_of one }
        { visit(rt, arena, one) },
        move || -> Pass<ListNode, Tree>
            requires { IsEmptyPassOf arena.now two }
            ensures pass { IsEmptyPassOf arena.entry.now result × SameCaller two result }
            ensures mine { mine_of result ≡ Give (caller_of two) 0 ∷ Take (caller_of two) 0 ∷ mine_of two }
        { visit(rt, arena, two) },
    )
}

#[cfg(test)]
mod claims;
#[cfg(test)]
mod ended;
#[cfg(test)]
mod meeting;
#[cfg(test)]
mod tests;
#[cfg(test)]
mod wrong;
