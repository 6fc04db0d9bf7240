//! The non-blocking search for room for a place. It is put off if it finds a node busy, or if it took as many nodes as
//! there are; the halves that it splits off do not count as taken.
ghost use Rattle.std.specs.Prelude.{◌≡◌, ◌<◌, false};
ghost use Rattle.ks_node.specs.declared.start.Next.TheVariants.{Go};
ghost use Rattle.ks_node.specs.Body.{next_at};
ghost use Rattle.ks_arena.specs.Of.{IsPassOf, IsEmptyPassOf, SameCaller, caller_of};
ghost use Rattle.ks_shape.specs.Of.{IsStretch, NoneWasFree};
ghost use Rattle.ks_shape.specs.Paths.{IsOnPathOf};
ghost use Rattle.ks_put.specs.Of.{AllGrow};
ghost use Rattle.ks_put.specs.Parts.{IsEased};
ghost use Rattle.ks_put.specs.Tries.{IsEasedStep, IsNear, IsNearer, OnOrCause, StepsOrNone, TriesRoom, TriesRoomSince, WasRefused, WentDown};
ghost use Rattle.ks_shape.specs.Does.{OnlyFills, OnlySearches};

use crate::halves::Part;
use crate::room::come_to_end;
use crate::splits::split;
use ks_arena::{Arena, Held, Pass};
use ks_flow::Tree;
use ks_gate::Gate;
use ks_node::{Next, Unlinked, node_law, unlinked_law};
use ks_shape::{
    Later, Path, child_law, give_last, has_room, let_go, search_law, try_enter, try_step_down,
};

/// Where a search is after a step: its path, how many nodes below the root, and whether a claim was refused in the step.
pub(crate) struct Step<N> {
    path: Path<N>,
    depth: u32,
    refused: bool,
}

/// Releases the parent, and takes the child, unless another caller holds it, or as many nodes were taken as there are:
/// then nothing remains held.
fn try_down<N: Unlinked, G: Gate>(
    arena: &Arena<N, Tree>,
    pass: &mut Pass<N, Tree>,
    gate: &G,
    place: u64,
    path: Path<N>,
    child: u32,
    depth: u32,
    refused: bool,
) -> Result<Step<N>, Later>
    requires pass { IsPassOf arena.now pass.old }
    requires path { IsOnPathOf arena.now (caller_of pass.old) place pass.old path }
    requires goes { next_at (N.body path.node.body) place ≡ Go child }
    requires near { depth < arena.now.nodes }
    ensures pass { IsPassOf arena.now pass.new }
    ensures caller { SameCaller pass.old pass.new }
    ensures leaves { OnlySearches pass.old pass.new }
    ensures path { StepsOrNone arena.now (caller_of pass.old) place pass.new result }
    ensures went { WentDown path.node depth refused result }
    ensures near { IsNear arena.now.nodes result }
    ensures down { OnOrCause arena.now place pass.old pass.new depth path result }
    ensures stretch { IsStretch pass.old pass.new }
{
    search_law();
    let held = let_go(arena, pass, gate, place, path);
    child_law(arena, pass, place, &held, child);
    let nodes = arena.nodes();
    if depth + 1 == nodes {
        give_last(arena, pass, gate, held);
        return Err(Later::Far);
    }
    match try_step_down(arena, pass, gate, place, held, child) {
        Ok(path) => Ok(Step {
            path,
            depth: depth + 1,
            refused,
        }),
        Err(later) => Err(later),
    }
}

/// Goes on to the child. A full branch is split before, if there is a way and a claim is not refused: then the search looks
/// again.
fn try_go_on<N: Unlinked, G: Gate>(
    arena: &Arena<N, Tree>,
    pass: &mut Pass<N, Tree>,
    gate: &G,
    place: u64,
    path: Path<N>,
    child: u32,
    depth: u32,
) -> Result<Step<N>, Later>
    requires pass { IsPassOf arena.now pass.old }
    requires path { IsOnPathOf arena.now (caller_of pass.old) place pass.old path }
    requires goes { next_at (N.body path.node.body) place ≡ Go child }
    requires near { depth < arena.now.nodes }
    ensures pass { IsPassOf arena.now pass.new }
    ensures caller { SameCaller pass.old pass.new }
    ensures fills { OnlyFills N.layout N.ranged place pass.old pass.new }
    ensures path { StepsOrNone arena.now (caller_of pass.old) place pass.new result }
    ensures refused { WasRefused (NoneWasFree arena.now place pass.old pass.new) result }
    ensures eased { (AllGrow arena.now → IsEased N.layout N.body path) →
        IsEasedStep N.layout N.body (AllGrow arena.now) result }
    ensures nearer { IsNearer N.layout N.body place depth path result }
    ensures near { IsNear arena.now.nodes result }
    ensures down { OnOrCause arena.now place pass.old pass.new depth path result }
    ensures stretch { IsStretch pass.old pass.new }
{
    unlinked_law::<N>();
    node_law(&path.node.body);
    if !path.node.body.is_branch() {
        return try_down(arena, pass, gate, place, path, child, depth, false);
    }
    if !path.node.body.is_full() {
        return try_down(arena, pass, gate, place, path, child, depth, false);
    }
    match split(arena, pass, gate, place, path) {
        Part::Split(half) => Ok(Step {
            path: half,
            depth,
            refused: false,
        }),
        Part::Refused(whole) => try_down(arena, pass, gate, place, whole, child, depth, true),
        Part::Shut(whole) => try_down(arena, pass, gate, place, whole, child, depth, false),
    }
}

/// Takes the node at which the search for a place ends, and holds no other, as `make_room` does, but without waiting;
/// if put off it holds nothing. It ends without a count of turns: each goes a node down, of as many as there are, or
/// splits one, and so lessens how often it can be split.
pub(crate) fn try_make_room<N: Unlinked, G: Gate>(
    arena: &Arena<N, Tree>,
    pass: &mut Pass<N, Tree>,
    gate: &G,
    place: u64,
) -> Result<Result<Held<N>, Held<N>>, Later>
    requires pass { IsEmptyPassOf arena.now pass.old }
    ensures pass { IsPassOf arena.now pass.new }
    ensures caller { SameCaller pass.old pass.new }
    ensures fills { OnlyFills N.layout N.ranged place pass.old pass.new }
    ensures room { TriesRoom arena.now place pass.old pass.new result }
    ensures cause { TriesRoomSince arena.now place pass.old pass.new result }
    ensures stretch { IsStretch pass.old pass.new }
{
    search_law();
    let mut path = match try_enter(arena, pass, gate, place) {
        Ok(root) => root,
        Err(later) => return Err(later),
    };
    let mut depth = 0;
    let mut refused = false;
    loop {
        match path.node.body.next(place) {
            Next::Go(child) => {
                match try_go_on(arena, pass, gate, place, path, child, depth) {
                    Ok(
                        Step {
                            path: next,
                            depth: deeper,
                            refused: was,
                        },
                    ) => {
                        path = next;
                        depth = deeper;
                        refused = refused || was;
                    }
                    Err(later) => return Err(later),
                }
            }
            Next::Here => {
                node_law(&path.node.body);
                if has_room(&path.node, place) {
                    return Ok(Ok(come_to_end(arena, pass, gate, place, path)));
                }
                match split(arena, pass, gate, place, path) {
                    Part::Split(half) => path = half,
                    Part::Refused(whole) => {
                        return Ok(Err(come_to_end(arena, pass, gate, place, whole)));
                    }
                    Part::Shut(whole) => {
                        if !refused {
                            unreachable!()
                        }
                        let end = come_to_end(arena, pass, gate, place, whole);
                        return Ok(Err(end));
                    }
                }
            }
        }
    }
}
