//! A worker: its desk, what aids its calls, and the caller that it begins with.
ghost use Rattle.std.specs.Prelude.{◌≡◌, ◌≤◌, ◌⊎◌, map, length, All, IfOk};
ghost use Rattle.ks_lines.specs.Lines.{AllBoth};
ghost use Rattle.ks_tickets.specs.Clauses.{IsFree, IsSameDesk};
ghost use Rattle.ks_jobs.specs.Beginning.{IsReady};

use ks_tickets::{Desk, Ticketed, Tickets};
use std::alloc::{AllocError, Global};

/// One worker: the desk at which it draws callers, what aids their calls, and the ticket and the job of the caller that was
/// drawn there before it begins. It keeps the desk and the aid from caller to caller.
#[derive(Drop)]
pub struct Worker<J, H> {
    pub desk: Desk<J>,
    pub aid: H,
    pub first: Option<(u32, J)>,
}

/// How many workers serve this number of callers: the lesser of the two numbers.
pub fn workers_for(callers: usize, workers: u32) -> u32
    ensures least { (result ≤ callers) × (result ≤ workers) }
    ensures one { (result ≡ callers) ⊎ (result ≡ workers) }
{
    if callers < workers as usize {
        callers as u32
    } else {
        workers
    }
}

/// A worker at each desk, with one of the aids. A caller is drawn at each desk, in their order: so the first worker has the
/// first caller.
///
/// # Errors
///
/// Only lack of memory.
pub fn workers_at<J: Ticketed + Drop, H: Drop>(
    alloc: Global,
    tickets: &Tickets<J>,
    desks: Vec<Desk<J>>,
    aids: Vec<H>,
) -> Result<Vec<Worker<J, H>>, AllocError>
    requires free { All (IsFree tickets.now) desks.items }
    requires aids { length aids.items ≡ length desks.items }
    ensures ready { IfOk result (λ workers. All (IsReady J.waits tickets.now) workers.items) }
    ensures same { IfOk result (λ workers. AllBoth IsSameDesk desks.items (map (λ worker. worker.desk) workers.items)) }
{
    let mut workers = Vec::with_capacity(alloc, desks.len())?;
    for (mut desk, aid) in desks.into_iter().zip(aids) {
        let first = tickets.draw(&mut desk);
        workers.push_reserved(Worker { desk, aid, first });
    }
    Ok(workers)
}

/// The desks of the workers.
///
/// # Errors
///
/// Only lack of memory.
pub fn desks_of<J: Drop, H: Drop>(
    alloc: Global,
    workers: Vec<Worker<J, H>>,
) -> Result<Vec<Desk<J>>, AllocError>
    ensures { IfOk result (λ desks. desks.items ≡ map (λ worker. worker.desk) workers.items) }
{
    let mut desks = Vec::with_capacity(alloc, workers.len())?;
    for worker in workers {
        let Worker {
            desk,
            aid: _,
            first: _first,
        } = worker;
        desks.push_reserved(desk);
    }
    Ok(desks)
}
