//! What workers draw: a caller, with all that its work needs.
ghost use Rattle.std.specs.Prelude.{◌≡◌, map, length, All, IfOk};
ghost use Rattle.ks_script.specs.Plain.{IsPrintable};
ghost use Rattle.ks_arena.specs.Sound.{sort_of};
ghost use Rattle.ks_jobs.specs.About.{site_with};
ghost use Rattle.ks_jobs.specs.Work.{FinishedAs, HasRoom, WaitsAs};

use crate::about::About;
use crate::rooms::rooms_if;
use ks_arena::Pass;
use ks_flow::Discipline;
use ks_lines::{Part, Said};
use ks_node::Node;
use ks_script::{Calls, Replies, Script};
use ks_tickets::Ticketed;
use std::alloc::{AllocError, Global};
use std::marker::PhantomData;

/// A caller: its pass, its script, room for what is said of each of its lines, and for the parts of each of its scans, those
/// of the first one last.
#[derive(Drop)]
pub struct Job<N, D, W> {
    pub pass: Pass<N, D>,
    pub script: Calls,
    pub said: Vec<Said>,
    pub rooms: Vec<Vec<Part>>,
    about: PhantomData<W>,
}

impl<N: Node, D: Discipline, W: About> Ticketed for Job<N, D, W> {
    ghost waits = { WaitsAs (site_with (sort_of N.layout N.ranged) D.begins D.step W.table W.callers W.nodes) W.scripts };

    ghost finished = { FinishedAs (site_with (sort_of N.layout N.ranged) D.begins D.step W.table W.callers W.nodes) W.scripts
        N.Places.place_of };
}

/// Each pass with its lines of the script, room for what is said of each line, and rooms for its scans, if there may be scans.
///
/// # Errors
///
/// Only lack of memory.
pub fn jobs_of<N, D, W>(
    alloc: Global,
    passes: Vec<Pass<N, D>>,
    script: Script,
    scans: bool,
) -> Result<Vec<Job<N, D, W>>, AllocError>
    requires { length passes.items ≡ length script }
    ensures passes { IfOk result (λ jobs. map (λ job. job.pass) jobs.items ≡ passes.items) }
    ensures scripts { IfOk result (λ jobs. map (λ job. job.script) jobs.items ≡ script) }
    ensures room { IfOk result (λ jobs. All (HasRoom scans) jobs.items) }
{
    let Script { callers } = script;
    let mut jobs = Vec::with_capacity(alloc, passes.len())?;
    for (pass, lines) in passes.into_iter().zip(callers) {
        let said = Vec::with_capacity(alloc, lines.len())?;
        let rooms = rooms_if(alloc, scans, &lines)?;
        jobs.push(Job {
            pass,
            script: lines,
            said,
            rooms,
            about: PhantomData,
        })?;
    }
    Ok(jobs)
}

/// The passes of jobs, and what is said of their scripts, packed. The reply to a call must be one that can be printed, so no
/// list of pairs.
///
/// # Errors
///
/// Only lack of memory.
pub fn apart<N, D, W>(
    alloc: Global,
    jobs: Vec<Job<N, D, W>>,
) -> Result<(Vec<Pass<N, D>>, Vec<Replies>), AllocError>
    requires { All (λ job. All IsPrintable job.said.items) jobs.items }
    ensures passes { IfOk result (λ r. r.0.items ≡ map (λ job. job.pass) jobs.items) }
    ensures replies { IfOk result (λ r. r.1.items ≡ map (λ job. job.said.items) jobs.items) }
{
    let mut passes = Vec::with_capacity(alloc, jobs.len())?;
    let mut replies = Vec::with_capacity(alloc, jobs.len())?;
    for job in jobs {
        let Job {
            pass,
            script: _,
            said,
            rooms: _,
            about: _,
        } = job;
        passes.push(pass)?;
        replies.push(Replies::from_said(alloc, said)?)?;
    }
    Ok((passes, replies))
}
