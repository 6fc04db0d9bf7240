//! Workers, who draw whole callers and serve each: as many as there are desks, on threads.
ghost use Rattle.std.specs.Prelude.{◌≡◌, ◌<◌, ◌≤◌, length, IfOk};
ghost use Rattle.ks_lines.specs.Asked.{AreServedLines};
ghost use Rattle.ks_arena.specs.Sound.{sort_of};
ghost use Rattle.ks_dictionary.specs.Of.{site_of};
ghost use Rattle.ks_jobs.specs.About.{AreAbout, site_with};
ghost use Rattle.ks_jobs.specs.Beginning.{IsReady};
ghost use Rattle.ks_jobs.specs.Work.{WaitsAs};
ghost use Rattle.ks_tickets.specs.Clauses.{AreFree, HasEnded, HaveEnded, IsSameDesk};

use crate::aids::{WorkerAid, guides, lent};
use crate::reaching::Reaching;
use crate::service::Service;
use ks_aid::{Admits, Serving};
use ks_arena::Arena;
use ks_gate::Gate;
use ks_hints::{HintReader, HintWriter, Hints};
use ks_jobs::{About, Job, Worker, desks_of, workers_at};
use ks_lines::Aiding;
use ks_node::Node;
use ks_shape::Ruled;
use ks_tickets::Desk;
use std::alloc::{AllocError, Global};
use std::sync::Wait;
use std::thread::{Threads, for_each_mut};

impl<
    N: Node,
    T: Ruled + Serving<N, Arena<N, <T as Ruled>::Rule>>,
    S: Reaching<N, Arena<N, <T as Ruled>::Rule>, T>,
    R: Wait,
    G: Gate,
    W: About,
> Service<'_, N, T, S, R, G, W> {
    /// Serves the caller that was drawn at the worker's desk; then draws callers and serves each, until none is left.
    fn work_from<H: WorkerAid>(&self, worker: &mut Worker<Job<N, T::Rule, W>, H>)
        requires about { AreAbout (site_of self.now.dictionary.now) W.table W.callers W.nodes }
        requires served { AreServedLines S.scans S.moves W.scripts }
        requires ready { IsReady
            (WaitsAs (site_with (sort_of N.layout N.ranged) T.Rule.begins T.Rule.step W.table W.callers W.nodes) W.scripts)
            self.now.tickets.now worker.old }
        ensures ended { HasEnded self.now.tickets.now worker.new.desk }
        ensures same { IsSameDesk worker.old.desk worker.new.desk }
    {
        let Some((ticket, job)) = worker.first.take() else {
            return;
        };
        self.serve_drawn(&mut worker.desk, &mut worker.aid, ticket, job);
        worker.aid.has_led();
        while let Some((ticket, job)) = self.tickets.draw(&mut worker.desk) {
            self.serve_drawn(&mut worker.desk, &mut worker.aid, ticket, job);
        }
    }
}

impl<
    N: Node + Send,
    T: Ruled + Serving<N, Arena<N, <T as Ruled>::Rule>>,
    S: Reaching<N, Arena<N, <T as Ruled>::Rule>, T> + Sync,
    R: Threads + Wait + Sync,
    G: Gate + Admits + Sync,
    W: About + Send + Sync,
> Service<'_, N, T, S, R, G, W>
where
    N::Places: Send + Sync,
{
    /// Serves all callers by a worker at each desk, on a thread of its own and with one of the aids, and returns the desks. A
    /// worker serves a caller whole before it draws the next.
    ///
    /// # Errors
    ///
    /// Only lack of memory.
    fn work<H: WorkerAid + Send + Drop>(
        &self,
        alloc: Global,
        desks: Vec<Desk<Job<N, T::Rule, W>>>,
        aids: Vec<H>,
    ) -> Result<Vec<Desk<Job<N, T::Rule, W>>>, AllocError>
        requires about { AreAbout (site_of self.now.dictionary.now) W.table W.callers W.nodes }
        requires served { AreServedLines S.scans S.moves W.scripts }
        requires free { AreFree self.now.tickets.now desks.items }
        requires some { 0 < length desks.items }
        requires aids { length aids.items ≡ length desks.items }
        ensures { IfOk result (λ ended. HaveEnded self.now.tickets.now ended.items) }
    {
        let mut workers = workers_at(alloc, self.tickets, desks, aids)?;
        let threads = workers.len();
        for_each_mut(
            self.rt,
            workers.as_mut_slice(),
            threads,
            &|_: usize, worker: &mut Worker<Job<N, T::Rule, W>, H>|
                requires about { AreAbout (site_of self.now.dictionary.now) W.table W.callers W.nodes }
                requires served { AreServedLines S.scans S.moves W.scripts }
                requires ready { IsReady
                    (WaitsAs (site_with (sort_of N.layout N.ranged) T.Rule.begins T.Rule.step W.table W.callers W.nodes) W.scripts)
                    self.now.tickets.now worker.old }
                ensures ended { HasEnded self.entry.now.tickets.now worker.new.desk }
                ensures same { IsSameDesk worker.old.desk worker.new.desk }
            { self.work_from(worker) },
        );
        desks_of(alloc, workers)
    }

    /// Serves all callers by workers with these readers, one of which has the writer while it serves the first caller.
    fn work_lent(
        &self,
        alloc: Global,
        desks: Vec<Desk<Job<N, T::Rule, W>>>,
        readers: Vec<HintReader>,
        writer: &mut HintWriter,
    ) -> Result<Vec<Desk<Job<N, T::Rule, W>>>, AllocError>
        requires about { AreAbout (site_of self.now.dictionary.now) W.table W.callers W.nodes }
        requires served { AreServedLines S.scans S.moves W.scripts }
        requires free { AreFree self.now.tickets.now desks.items }
        requires some { 0 < length desks.items }
        requires readers { length readers.items ≡ length desks.items }
        ensures { IfOk result (λ ended. HaveEnded self.now.tickets.now ended.items) }
    {
        let aids = lent(alloc, readers, writer)?;
        self.work(alloc, desks, aids)
    }

    /// Serves all callers by workers that read one list of hints. The writer ends in any case.
    fn work_hinted(
        &self,
        alloc: Global,
        desks: Vec<Desk<Job<N, T::Rule, W>>>,
    ) -> Result<Vec<Desk<Job<N, T::Rule, W>>>, AllocError>
        requires about { AreAbout (site_of self.now.dictionary.now) W.table W.callers W.nodes }
        requires served { AreServedLines S.scans S.moves W.scripts }
        requires free { AreFree self.now.tickets.now desks.items }
        requires count { (0 < length desks.items) × (length desks.items ≤ 64) }
        ensures { IfOk result (λ ended. HaveEnded self.now.tickets.now ended.items) }
    {
        let (mut writer, readers) = Hints::start(alloc, desks.len() as u32)?;
        let ended = self.work_lent(alloc, desks, readers, &mut writer);
        writer.end(self.rt);
        ended
    }

    /// Serves all callers by a worker at each desk, and returns the desks. Calls are aided as asked if their technique asks
    /// for it and the gate admits it.
    ///
    /// # Errors
    ///
    /// Only lack of memory.
    pub(crate) fn work_aided(
        &self,
        alloc: Global,
        desks: Vec<Desk<Job<N, T::Rule, W>>>,
        aiding: Aiding,
    ) -> Result<Vec<Desk<Job<N, T::Rule, W>>>, AllocError>
        requires about { AreAbout (site_of self.now.dictionary.now) W.table W.callers W.nodes }
        requires served { AreServedLines S.scans S.moves W.scripts }
        requires free { AreFree self.now.tickets.now desks.items }
        requires count { (0 < length desks.items) × (length desks.items ≤ 64) }
        ensures { IfOk result (λ ended. HaveEnded self.now.tickets.now ended.items) }
    {
        let aided = T::asks() && self.gate.admits_aid();
        if aided && aiding == Aiding::Hints {
            self.work_hinted(alloc, desks)
        } else {
            let aids = guides(alloc, desks.len(), aided)?;
            self.work(alloc, desks, aids)
        }
    }
}
