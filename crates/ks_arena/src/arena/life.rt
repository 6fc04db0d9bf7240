//! How an arena is made, and how it ends.
ghost use Rattle.std.specs.Prelude.{ℕ, ◌≡◌, ◌≤◌, ◌+◌, ◌<◌, ◌^◌, [], cond, eqb, length, slice_index, IfOk};
ghost use Rattle.ks_history.specs.Callers.{CallersBelow};
ghost use Rattle.ks_arena.specs.Sound.{sort_of, blank_of, Sound};
ghost use Rattle.ks_arena.specs.Rule.{AllBlank, first_view, FirstBits};
ghost use Rattle.ks_arena.specs.Spots.{calls_at, shapes_at, turn_at, words_for};
ghost use Rattle.ks_arena.specs.Clauses.{IsNewCrew, EndsAll, IsRun, trace_of};
ghost use Rattle.ks_arena.specs.Reuse.{ReusesSafely};
ghost use Rattle.ks_arena.specs.Of.{AreAllPassesOf, IsStart, callers_of, nodes_of};

use crate::arena::{Arena, Steps};
use crate::bell::Bell;
use crate::held::Pass;
use crate::kin::Kin;
use crate::laws::{reuse_law, sound_law};
use crate::plays::{Gathers, Next, TakeIn, Tell};
use crate::remains::Remains;
use crate::rule::Rule;
use crate::run::{Run, RunTrace};
use crate::send_closed::SendClosed;
use crate::spots::{CALLS, free_at, turn_at};
use crate::view::View;
use atomic_table::{Seat, Shared, Table};
use ks_flow::Discipline;
use ks_node::Node;
use std::alloc::{AllocError, Global};
use std::marker::PhantomData;

/// The words of an arena of which node 0 is live and idle, and the other nodes are free.
fn first_words(alloc: Global, nodes: usize) -> Result<Vec<u64>, AllocError>
    requires { (0 < nodes) × (nodes < 2 ^ 32) }
    ensures long { IfOk result (λ v. length v.items ≡ words_for nodes) }
    ensures counts { IfOk result (λ v. (slice_index v.items calls_at ≡ 0) × (slice_index v.items shapes_at ≡ 0)) }
    ensures turns { IfOk result (λ v. (i : ℕ) → i < nodes → slice_index v.items (turn_at i) ≡ cond (eqb i 0) 1 0) }
    ensures bits { IfOk result (λ v. FirstBits nodes nodes v.items) }
{
    let mut words = Vec::from_elem(alloc, 0u64, free_at(nodes, nodes.div_ceil(64)))?;
    let row = words.as_mut_slice();
    row[turn_at(0)] = 1;
    for node in 1..nodes {
        row[free_at(nodes, node / 64)] |= 1u64 << (node % 64);
    }
    Ok(words)
}

fn blanks<N: Node>(alloc: Global, nodes: usize) -> Result<Vec<Option<N>>, AllocError>
    ensures { IfOk result (λ v. (length v.items ≡ nodes) × AllBlank (sort_of N.layout N.ranged) N.body v.items) }
{
    let mut slots = Vec::with_capacity(alloc, nodes)?;
    for _i in 0..nodes {
        slots.push(Some(N::blank(alloc)?))?;
    }
    Ok(slots)
}

fn crew<N: Node, D: Discipline>(
    alloc: Global,
    shared: &Shared<Option<N>, View, (), Rule<N, D>>,
    mut first: Seat<Option<N>, View>,
    callers: u32,
) -> Result<Vec<Pass<N, D>>, AllocError>
    requires seat { (first.table_id ≡ shared.now.table_id) × (first.me ≡ (first_view, [])) × (0 < callers)
        × (0 < shared.now.table_id.words) }
    requires fits { D.begins (blank_of (sort_of N.layout N.ranged)) }
    ensures { IfOk result
        (λ v. IsNewCrew (sort_of N.layout N.ranged) D.begins D.step shared.now.table_id callers v.items) }
{
    let mut passes = Vec::with_capacity(alloc, callers as usize)?;
    for caller in 1..callers {
        let seat = shared.split_seat::<Next>(&mut first);
        passes.push(Pass {
            seat,
            caller,
            steps: Steps::start(),
            marker: PhantomData,
        })?;
    }
    passes.insert(
        0,
        Pass {
            seat: first,
            caller: 0,
            steps: Steps::start(),
            marker: PhantomData,
        },
    )?;
    Ok(passes)
}

impl<N: Node, D: Discipline> Arena<N, D> {
    /// An arena of this many nodes, of which node 0 is live and the others are free, and a pass for each caller.
    pub fn start(
        alloc: Global,
        nodes: u32,
        callers: u32,
    ) -> Result<(Arena<N, D>, Vec<Pass<N, D>>), AllocError>
        requires nodes { (4 ≤ nodes) × (nodes ≤ 1048576) }
        requires callers { (1 ≤ callers) × (callers ≤ 1024) }
        requires fits { D.begins (blank_of (sort_of N.layout N.ranged)) }
        ensures { IfOk result (λ r. IsStart r.0 nodes callers r.1.items) }
    {
        let words = first_words(alloc, nodes as usize)?;
        let slots = blanks::<N>(alloc, nodes as usize)?;
        let Ok((table, first)) = Table::new(alloc, words.as_slice(), slots, &()) else {
            return Err(AllocError);
        };
        let passes = crew::<N, D>(alloc, &table.shared, first, callers)?;
        let arena = Arena {
            table,
            nodes,
            callers,
            bell: Bell::new(),
            kin: Kin::new(),
        };
        Ok((arena, passes))
    }

    /// Ends the arena. The passes are all that `start` returned, and hold no node.
    pub fn close(self, mut passes: Vec<Pass<N, D>>) -> Run<N>
        requires { AreAllPassesOf self passes.items }
        ensures run { IsRun (sort_of N.layout N.ranged) N.body (nodes_of self) result }
        ensures sound { Sound (sort_of N.layout N.ranged) D.begins D.step (nodes_of self) (trace_of result) }
        ensures seen { EndsAll (trace_of result) passes.items }
        ensures callers { CallersBelow (callers_of self) (trace_of result) }
        ensures reuse { ReusesSafely D.lasts [] (trace_of result) }
    {
        sound_law::<D>();
        reuse_law::<D>();
        let mut base = match passes.pop() {
            Some(pass) => pass.seat,
            None => unreachable!(),
        };
        let Arena { table, .. } = self;
        while let Some(pass) = passes.pop() {
            table.shared.join_seat::<TakeIn>(&mut base, pass.seat);
        }
        table.shared.load::<Gathers<D>>(&mut base, CALLS);
        let badge = table.shared.split_seat::<Tell>(&mut base).into_badge();
        Run {
            remains: Remains {
                closed: SendClosed::of(table.close_with(base)),
            },
            trace: RunTrace { badge },
        }
    }
}
