//! The arena, and the steps on the words of its table.
ghost use Rattle.std.specs.Prelude.{ℕ, ◌≡◌, ◌+◌, ◌%◌, ◌^◌, ◌<◌, ◌==◌, [], ◌∷◌, Option, bit_and, bit_or};
ghost use Rattle.atomic_table.specs.Table.{rest};
ghost use Rattle.std.specs.Borrow.{ftrue};
ghost use prog.Atomic.{either};
ghost use Rattle.ks_arena.specs.Spots.{words_for};

mod life;
mod visits;

use crate::bell::Bell;
use crate::kin::Kin;
use crate::rule::Rule;
use crate::view::View;
use atomic_table::{Join, Play, Seat, Split, Table};
use ks_flow::Discipline;
use ks_node::Node;
use std::alloc::Global;
use std::marker::Model;

/// Nodes that callers take and give back.
// Nothing outside this module reaches the table: each step on a word goes through a method below, which counts it.
#[derive(Drop)]
pub struct Arena<N: Node, D: Discipline> {
    table: Table<Option<N>, View, (), Rule<N, D>, Global>,
    pub(crate) nodes: u32,
    pub(crate) callers: u32,
    /// Where callers that wait for the root sleep. A caller that comes to take the root rings it (`take`); one that releases
    /// the root does not.
    pub(crate) bell: Bell,
    pub(crate) kin: Kin<N, D>,
    ghost sized: { (table.shared.table_id.words ≡ words_for nodes) × (table.shared.table_id.slots ≡ nodes)
        × (0 < nodes) × (0 < callers) },
}

/// How many steps on words a caller has made, only for proofs: it takes no bytes. Each pass has one.
// Nothing outside this module makes one or changes it.
#[derive(Drop)]
pub struct Steps {
    seal: (),
    pub ghost made: { ℕ },
}

impl Model for Steps {
    ghost also_owns = { λ _. ftrue };
}

// It owns nothing.
unsafe impl Send for Steps {}

impl Steps {
    fn start() -> Steps
        ensures { result.made ≡ 0 }
    {
        Steps { seal: () }
    }

    /// One step more.
    #[inline(always)]
    fn tick(&mut self)
        ensures { self.new.made ≡ self.old.made + 1 }
    {}
}

impl<N: Node, D: Discipline> Arena<N, D> {
    ghost use Rattle.ks_arena.specs.Words.{MayStep, HasStepped, step_on, MaySplit, MayJoin};

    /// Loads a word.
    #[inline(always)]
    pub(crate) fn load<M: Play<Option<N>, View>>(
        &self,
        seat: &mut Seat<Option<N>, View>,
        steps: &mut Steps,
        word: usize,
    ) -> u64
        requires may { MayStep self.now seat.old word (λ n. n) (M.then (step_on self.now word 0 0) seat.old.me) }
        ensures seat { HasStepped seat.old seat.new (M.then (step_on self.now word 0 0) seat.old.me result seat.new.me) }
        ensures steps { steps.new.made ≡ steps.old.made + 1 }
    {
        steps.tick();
        self.table.shared.load::<M>(seat, word)
    }

    /// Stores a word.
    #[inline(always)]
    pub(crate) fn store<M: Play<Option<N>, View>>(
        &self,
        seat: &mut Seat<Option<N>, View>,
        steps: &mut Steps,
        word: usize,
        new: u64,
    )
        requires may { MayStep self.now seat.old word (λ _. new)
            (λ _. M.then (step_on self.now word new 0) seat.old.me new) }
        ensures seat { HasStepped seat.old seat.new (M.then (step_on self.now word new 0) seat.old.me new seat.new.me) }
        ensures steps { steps.new.made ≡ steps.old.made + 1 }
    {
        steps.tick();
        self.table.shared.store::<M>(seat, word, new);
    }

    /// Adds to a word.
    #[inline(always)]
    pub(crate) fn fetch_add<M: Play<Option<N>, View>>(
        &self,
        seat: &mut Seat<Option<N>, View>,
        steps: &mut Steps,
        word: usize,
        k: u64,
    ) -> u64
        requires may { MayStep self.now seat.old word (λ n. (n + k) % 2 ^ 64)
            (M.then (step_on self.now word k 0) seat.old.me) }
        ensures seat { HasStepped seat.old seat.new (M.then (step_on self.now word k 0) seat.old.me result seat.new.me) }
        ensures steps { steps.new.made ≡ steps.old.made + 1 }
    {
        steps.tick();
        self.table.shared.fetch_add::<M>(seat, word, k)
    }

    /// Clears bits of a word.
    #[inline(always)]
    pub(crate) fn fetch_and<M: Play<Option<N>, View>>(
        &self,
        seat: &mut Seat<Option<N>, View>,
        steps: &mut Steps,
        word: usize,
        k: u64,
    ) -> u64
        requires may { MayStep self.now seat.old word (λ n. bit_and n k) (M.then (step_on self.now word k 0) seat.old.me) }
        ensures seat { HasStepped seat.old seat.new (M.then (step_on self.now word k 0) seat.old.me result seat.new.me) }
        ensures steps { steps.new.made ≡ steps.old.made + 1 }
    {
        steps.tick();
        self.table.shared.fetch_and::<M>(seat, word, k)
    }

    /// Sets bits of a word.
    #[inline(always)]
    pub(crate) fn fetch_or<M: Play<Option<N>, View>>(
        &self,
        seat: &mut Seat<Option<N>, View>,
        steps: &mut Steps,
        word: usize,
        k: u64,
    ) -> u64
        requires may { MayStep self.now seat.old word (λ n. bit_or n k) (M.then (step_on self.now word k 0) seat.old.me) }
        ensures seat { HasStepped seat.old seat.new (M.then (step_on self.now word k 0) seat.old.me result seat.new.me) }
        ensures steps { steps.new.made ≡ steps.old.made + 1 }
    {
        steps.tick();
        self.table.shared.fetch_or::<M>(seat, word, k)
    }

    /// Returns the word as it was, which has become `new` if it was `old`.
    #[inline(always)]
    pub(crate) fn compare_exchange<M: Play<Option<N>, View>>(
        &self,
        seat: &mut Seat<Option<N>, View>,
        steps: &mut Steps,
        word: usize,
        old: u64,
        new: u64,
    ) -> u64
        requires may { MayStep self.now seat.old word (λ n. either (n == old) new n)
            (M.then (step_on self.now word old new) seat.old.me) }
        ensures seat { HasStepped seat.old seat.new
            (M.then (step_on self.now word old new) seat.old.me result seat.new.me) }
        ensures steps { steps.new.made ≡ steps.old.made + 1 }
    {
        steps.tick();
        self.table
            .shared
            .compare_exchange::<M>(seat, word, old, new)
    }

    /// Loads a word without a seat. Nothing is ensured of what it returns.
    #[inline(always)]
    pub(crate) fn peek(&self, steps: &mut Steps, word: usize) -> u64
        requires { word < self.now.table.shared.table_id.words }
        ensures { steps.new.made ≡ steps.old.made + 1 }
    {
        steps.tick();
        self.table.shared.peek(word)
    }

    /// What the seat knows is cut in two, and a new seat has the second part. It loads a word.
    pub(crate) fn split_seat<M: Split<View>>(
        &self,
        seat: &mut Seat<Option<N>, View>,
        steps: &mut Steps,
    ) -> Seat<Option<N>, View>
        requires may { MaySplit self.now seat.old (M.left seat.old.me.0) (M.right seat.old.me.0) }
        ensures seat { HasStepped seat.old seat.new (seat.new.me ≡ (M.left seat.old.me.0, seat.old.me.1)) }
        ensures other { (result.table_id ≡ seat.old.table_id) × (result.me ≡ (M.right seat.old.me.0, [])) }
        ensures steps { steps.new.made ≡ steps.old.made + 1 }
    {
        steps.tick();
        self.table.shared.split_seat::<M>(seat)
    }

    /// The seat takes in what another knows. It loads a word.
    pub(crate) fn join_seat<M: Join<View>>(
        &self,
        seat: &mut Seat<Option<N>, View>,
        steps: &mut Steps,
        other: Seat<Option<N>, View>,
    )
        requires may { MayJoin self.now seat.old other (M.both seat.old.me.0 other.me.0) M.spent }
        ensures seat { HasStepped seat.old seat.new
            (seat.new.me ≡ (M.both seat.old.me.0 other.me.0, seat.old.me.1)) }
        ensures steps { steps.new.made ≡ steps.old.made + 1 }
    {
        steps.tick();
        self.table.shared.join_seat::<M>(seat, other);
    }

    /// Puts a body, or none, into the slot that the seat took last, and gets what was there. It is no step on a word.
    #[inline(always)]
    pub(crate) fn exchange(
        &self,
        seat: &mut Seat<Option<N>, View>,
        slot: usize,
        new: Option<N>,
    ) -> Option<N>
        requires may { (seat.old.table_id ≡ self.now.table.shared.table_id)
            × ((old : Option N) × (seat.old.me.1 ≡ (slot, old) ∷ rest seat.old.me.1)) }
        ensures { (seat.new.table_id ≡ seat.old.table_id) × (seat.new.id ≡ seat.old.id)
            × (seat.old.me.1 ≡ (slot, result) ∷ rest seat.old.me.1)
            × (seat.new.me ≡ (seat.old.me.0, (slot, new) ∷ rest seat.old.me.1)) }
    {
        self.table.shared.exchange(seat, slot, new)
    }
}
