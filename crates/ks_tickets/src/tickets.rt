//! The calls of tickets.
ghost use Rattle.std.specs.Prelude.{◌≡◌, ◌+◌, ◌^◌, ◌<◌, ◌≤◌, [], length, map, IfOk, IfSome, IfNone, vec_capacity, Some};
ghost use Rattle.std.specs.Slots.{IsFull, slots_items};
ghost use Rattle.ks_tickets.specs.Rule.{first_view};
ghost use Rattle.ks_tickets.specs.Clauses.{AreFree, AreFreeAt, AreHome, AreNumbered, EachAs, HasEnded, HaveEnded, IsBusy, IsFree, IsSameDesk, draws_known, jobs_of};

use crate::desk::{Desk, Tickets};
use crate::plays::{Draws, Finishes, Next, TakeIn};
use crate::rule::Rule;
use crate::ticketed::Ticketed;
use crate::view::View;
use atomic_table::{Closed, Seat, Shared, Table};
use std::alloc::{AllocError, Global};

/// The slots of the jobs.
fn slots_of<J: Ticketed>(alloc: Global, jobs: Vec<J>) -> Result<Vec<Option<J>>, AllocError>
    ensures { IfOk result (λ slots. slots.items ≡ map Some jobs.items) }
{
    let mut slots = Vec::with_capacity(alloc, jobs.len())?;
    for job in jobs {
        slots.push(Some(job))?;
    }
    Ok(slots)
}

/// The desks of all workers, of which the first has the seat that the others come from.
fn desks_of<J: Ticketed>(
    alloc: Global,
    shared: &Shared<Option<J>, View, (), Rule<J>>,
    first: Seat<Option<J>, View>,
    workers: u32,
) -> Result<Vec<Desk<J>>, AllocError>
    requires table { (first.table_id ≡ shared.now.table_id) × (0 < shared.now.table_id.words) }
    requires seat { first.me ≡ (first_view, []) }
    requires workers { (1 ≤ workers) × (workers ≤ 64) }
    ensures desks { IfOk result (λ desks. AreFreeAt shared.now.table_id desks.items) }
    ensures numbers { IfOk result (λ desks. AreNumbered desks.items) }
    ensures count { IfOk result (λ desks. length desks.items ≡ workers) }
{
    let mut desks = Vec::with_capacity(alloc, workers as usize)?;
    let mut maker = first;
    while desks.len() + 1 < workers as usize {
        let seat = shared.split_seat::<Next>(&mut maker);
        desks.push(Desk { seat })?;
    }
    desks.insert(0, Desk { seat: maker })?;
    Ok(desks)
}

/// The jobs of a table that nobody shares any more.
fn collect<J: Ticketed>(mut closed: Closed<Option<J>, Global>, mut into: Vec<J>) -> Vec<J>
    requires full { IsFull closed.slots }
    requires home { AreHome J.finished (slots_items closed.slots) }
    requires empty { into.items ≡ [] }
    requires room { length (slots_items closed.slots) ≤ vec_capacity into }
    ensures count { length result.items ≡ length (slots_items closed.slots) }
    ensures jobs { EachAs J.finished result.items }
{
    let mut i = 0;
    while i < closed.slot_count() {
        match closed.take(i) {
            Some(job) => into.push_reserved(job),
            None => unreachable!(),
        }
        i += 1;
    }
    closed.free();
    into
}

impl<J: Ticketed> Tickets<J> {
    /// The tickets of the jobs, and a desk for each worker, numbered from 0.
    ///
    /// # Errors
    ///
    /// Only lack of memory. The jobs are dropped.
    pub fn start(
        alloc: Global,
        jobs: Vec<J>,
        workers: u32,
    ) -> Result<(Tickets<J>, Vec<Desk<J>>), AllocError>
        requires workers { (1 ≤ workers) × (workers ≤ 64) }
        requires few { length jobs.items < 2 ^ 32 }
        requires jobs { EachAs J.waits jobs.items }
        ensures jobs { IfOk result (λ r. jobs_of r.0 ≡ length jobs.items) }
        ensures desks { IfOk result (λ r. AreFree r.0 r.1.items) }
        ensures numbers { IfOk result (λ r. AreNumbered r.1.items) }
        ensures count { IfOk result (λ r. length r.1.items ≡ workers) }
    {
        let count = jobs.len();
        let words = Vec::from_elem(alloc, 0u64, count + 1)?;
        let slots = slots_of(alloc, jobs)?;
        let Ok((table, first)) = Table::new(alloc, words.as_slice(), slots, &()) else {
            return Err(AllocError);
        };
        let desks = desks_of::<J>(alloc, &table.shared, first, workers)?;
        let tickets = Tickets {
            table,
            jobs: count as u32,
        };
        Ok((tickets, desks))
    }

    /// Draws the next ticket and its job, or `None` if each ticket was drawn before: then the desk has ended.
    pub fn draw(&self, desk: &mut Desk<J>) -> Option<(u32, J)>
        requires { IsFree self.now desk.old }
        ensures same { IsSameDesk desk.old desk.new }
        ensures busy { IfSome result (λ drawn. IsBusy self.now drawn.0 desk.new) }
        ensures job { IfSome result (λ drawn. J.waits drawn.1 drawn.0) }
        ensures found { IfSome result (λ drawn. draws_known desk.new ≡ drawn.0 + 1) }
        ensures later { IfSome result (λ drawn. draws_known desk.old ≤ drawn.0) }
        ensures some { IfSome result (λ drawn. drawn.0 < jobs_of self.now) }
        ensures ended { IfNone result (HasEnded self.now desk.new) }
        ensures none { IfNone result (jobs_of self.now < draws_known desk.new) }
    {
        let shared = &self.table.shared;
        let found = shared.fetch_add::<Draws>(&mut desk.seat, 0, 1);
        if found < self.jobs as u64 {
            let job = shared
                .exchange(&mut desk.seat, found as usize, None)
                .unwrap();
            Some((found as u32, job))
        } else {
            None
        }
    }

    /// Puts back the job whose ticket is open at the desk, which has run.
    pub fn finish(&self, desk: &mut Desk<J>, ticket: u32, job: J)
        requires busy { IsBusy self.now ticket desk.old }
        requires finished { J.finished job ticket }
        ensures free { IsFree self.now desk.new }
        ensures same { IsSameDesk desk.old desk.new }
        ensures known { draws_known desk.new ≡ draws_known desk.old }
    {
        let at = ticket as usize;
        let shared = &self.table.shared;
        match shared.exchange(&mut desk.seat, at, Some(job)) {
            None => {}
            Some(_) => unreachable!(),
        }
        shared.store::<Finishes>(&mut desk.seat, at + 1, 1);
    }

    /// Ends the tickets, and returns each job once, in the order of their tickets. The desks are all that `start`
    /// returned, in any order, and have ended.
    pub fn close(self, mut desks: Vec<Desk<J>>, into: Vec<J>) -> Vec<J>
        requires desks { HaveEnded self desks.items }
        requires empty { into.items ≡ [] }
        requires room { jobs_of self ≤ vec_capacity into }
        ensures count { length result.items ≡ jobs_of self }
        ensures jobs { EachAs J.finished result.items }
    {
        let mut base = match desks.pop() {
            Some(desk) => desk.seat,
            None => unreachable!(),
        };
        let Tickets { table, .. } = self;
        while let Some(desk) = desks.pop() {
            table.shared.join_seat::<TakeIn>(&mut base, desk.seat);
        }
        collect(table.close_with(base), into)
    }
}
