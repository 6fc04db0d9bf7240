ghost use Rattle.std.specs.Prelude.{◌≡◌, length, IfOk};
ghost use Rattle.ks_tickets.specs.Clauses.{EachAs};

use ks_tickets::{Ticketed, Tickets, fits_threads};
use std::alloc::{AllocError, Global};
use std::test::Fail;
use std::thread::{Threads, join};

/// A job that counts how often it ran.
#[derive(Drop)]
struct Count {
    ticket: u32,
    runs: u32,
}

impl Ticketed for Count {
    ghost waits = { λ job t. (job.ticket ≡ t) × (job.runs ≡ 0) };

    ghost finished = { λ job t. (job.ticket ≡ t) × (job.runs ≡ 1) };
}

/// Runs a job.
fn ran(job: Count) -> Count
    requires { job.runs ≡ 0 }
    ensures ticket { result.ticket ≡ job.ticket }
    ensures runs { result.runs ≡ 1 }
{
    Count {
        ticket: job.ticket,
        runs: job.runs + 1,
    }
}

/// Runs a job on another thread.
fn ran_elsewhere<R: Threads + Sync>(rt: &R, job: Count) -> Count
    requires { job.runs ≡ 0 }
    ensures ticket { result.ticket ≡ job.ticket }
    ensures runs { result.runs ≡ 1 }
{
    let (done, ()) = join(
        rt,
        move || -> Count
            requires { job.runs ≡ 0 }
            ensures ticket { result.ticket ≡ job.ticket }
            ensures runs { result.runs ≡ 1 }
        { ran(job) },
        || (),
    );
    done
}

fn counts(alloc: Global, number: u32) -> Result<Vec<Count>, AllocError>
    ensures long { IfOk result (λ v. length v.items ≡ number) }
    ensures waits { IfOk result (λ v. EachAs (λ (job : Count) t. (job.ticket ≡ t) × (job.runs ≡ 0)) v.items) }
{
    let mut jobs = Vec::with_capacity(alloc, number as usize)?;
    for ticket in 0..number {
        jobs.push(Count { ticket, runs: 0 })?;
    }
    Ok(jobs)
}

/// Whether the job at the place of this ticket has the ticket, and ran once.
fn is_done(done: &[Count], ticket: u32) -> bool {
    match done.get(ticket as usize) {
        Some(job) => job.ticket == ticket && job.runs == 1,
        None => false,
    }
}

#[test]
fn one_desk_draws_two_jobs_in_order(rt: HostRuntime) -> Result<(), Fail> {
    let jobs = counts(rt.alloc(), 2)?;
    let into = Vec::with_capacity(rt.alloc(), 2)?;
    let (tickets, mut desks) = Tickets::start(rt.alloc(), jobs, 1)?;
    let desk = &mut desks[0];
    let Some((first, job)) = tickets.draw(desk) else {
        panic!(rt; "no first job")
    };
    fits_threads(&tickets, desk, &job);
    tickets.finish(desk, first, ran_elsewhere(&rt, job));
    let Some((second, job)) = tickets.draw(desk) else {
        panic!(rt; "no second job")
    };
    tickets.finish(desk, second, ran(job));
    assert!(rt; first == 0 && second == 1);
    let None = tickets.draw(desk) else {
        panic!(rt; "a third job")
    };
    let done = tickets.close(desks, into);
    assert!(rt; done.len() == 2);
    assert!(rt; is_done(&done, 0));
    assert!(rt; is_done(&done, 1));
    Ok(())
}
