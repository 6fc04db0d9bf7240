//! All callers are served at once over one dictionary, and what they did is one legal history.
ghost use Rattle.std.specs.Prelude.{◌≡◌, ◌<◌, ◌≤◌, [], List, length, IfOk};
ghost use Rattle.ks_history.specs.Due.{FullsDue};
ghost use Rattle.ks_history.specs.Lawful.{Lawful, GoodThroughout};
ghost use Rattle.ks_history.specs.Callers.{CallersBelow};
ghost use Rattle.ks_lines.specs.declared.Line.{Line};
ghost use Rattle.ks_lines.specs.Asked.{AreServedLines};
ghost use Rattle.ks_lines.specs.Lines.{AreAnswered, ops_in, replies_in};
ghost use Rattle.ks_lines.specs.ServedLines.{ServedLines};
ghost use Rattle.ks_arena.specs.Named.{AllNamedBelow};
ghost use Rattle.ks_arena.specs.Sound.{sort_of};
ghost use Rattle.ks_dictionary.specs.Ended.{HasEnded, HasEndedWith, history};
ghost use Rattle.ks_dictionary.specs.Of.{AreNewPassesOf, nodes_of, site_of};
ghost use Rattle.ks_jobs.specs.About.{AreAbout};
ghost use Rattle.ks_serving.specs.Called.{HaveCalled};

use crate::reaching::Reaching;
use crate::service::Service;
use ks_aid::{Admits, Serving};
use ks_arena::{Arena, Pass, RunTrace};
use ks_dictionary::{Closed, Dictionary};
use ks_gate::Gate;
use ks_history::keyset_theorem;
use ks_jobs::{About, apart, jobs_of, workers_for};
use ks_lines::Setting;
use ks_node::Node;
use ks_script::{Printed, Replies, Script};
use ks_shape::Ruled;
use ks_tickets::Tickets;
use std::alloc::{AllocError, Global};
use std::marker::Brand;
use std::sync::Wait;
use std::thread::Threads;

/// What serving all callers returns: the run that is to be printed, and its trace. The run has for each caller what is said of
/// each line of its script, and the map at the end.
#[derive(Drop)]
pub struct Told {
    pub printed: Printed,
    pub trace: RunTrace,
}

/// A dictionary that ends at once, if there is no caller.
fn serve_nobody<N: Node, T: Ruled + Serving<N, Arena<N, <T as Ruled>::Rule>>>(
    alloc: Global,
    nodes: u32,
) -> Result<Closed<N>, AllocError>
    requires { (4 ≤ nodes) × (nodes ≤ 1048576) }
    ensures ended { IfOk result (λ closed. HasEndedWith (sort_of N.layout N.ranged) N.body nodes closed) }
    ensures called { IfOk result (λ closed. HaveCalled N.Places.place_of [] [] (history closed)) }
    ensures callers { IfOk result (λ closed. CallersBelow 0 (history closed)) }
{
    let (dictionary, passes) = Dictionary::<N, T>::start_fit(alloc, nodes, 1)?;
    Ok(dictionary.close(passes))
}

/// Serves all callers over the dictionary, which it ends, with at most one worker for each caller.
fn serve_jobs<
    'a,
    N: Node + Send,
    T: Ruled + Serving<N, Arena<N, <T as Ruled>::Rule>>,
    S: Reaching<N, Arena<N, <T as Ruled>::Rule>, T> + Sync,
    R: Threads + Wait + Sync,
    G: Gate + Admits + Sync,
    W: About + Send + Sync,
>(
    rt: &'a R,
    alloc: Global,
    gate: &'a G,
    reach: &'a S,
    setting: Setting,
    script: Script,
    dictionary: Dictionary<N, T>,
    passes: Vec<Pass<N, T::Rule>>,
) -> Result<(Closed<N>, Vec<Replies>), AllocError>
where
    N::Places: Send + Sync,
    requires about { AreAbout (site_of dictionary) W.table W.callers W.nodes }
    requires scripts { W.scripts ≡ script }
    requires served { AreServedLines S.scans S.moves script }
    requires crew { AreNewPassesOf dictionary passes.items }
    requires even { length passes.items ≡ length script }
    requires some { 0 < length script }
    requires few { length script ≤ 1024 }
    ensures ended { IfOk result (λ r. HasEndedWith (sort_of N.layout N.ranged) N.body (nodes_of dictionary) r.0) }
    ensures answered { IfOk result (λ r. AreAnswered script r.1.items) }
    ensures called { IfOk result (λ r. HaveCalled N.Places.place_of
        (ops_in script r.1.items) (replies_in script r.1.items) (history r.0)) }
    ensures callers { IfOk result (λ r. CallersBelow (length script) (history r.0)) }
{
    let jobs = jobs_of::<N, T::Rule, W>(alloc, passes, script, reach.serves_scans())?;
    let into = Vec::with_capacity(alloc, jobs.len())?;
    let desks = workers_for(jobs.len(), setting.workers);
    let (tickets, desks) = Tickets::start(alloc, jobs, desks)?;
    let service = Service {
        rt,
        dictionary: &dictionary,
        gate,
        reach,
        tickets: &tickets,
    };
    let ended = service.work_aided(alloc, desks, setting.aiding)?;
    let (passes, replies) = apart(alloc, tickets.close(ended, into))?;
    Ok((dictionary.close(passes), replies))
}

/// The run of a dictionary that has ended, with these replies to its callers, and its trace.
///
/// # Errors
///
/// Only lack of memory.
fn tell<N: Node>(alloc: Global, ended: Closed<N>, callers: Vec<Replies>) -> Result<Told, AllocError>
    requires { HasEnded (sort_of N.layout N.ranged) N.body ended }
    ensures trace { IfOk result (λ told. told.trace ≡ history ended) }
    ensures served { IfOk result (λ told. (script : List (List Line)) → AreAnswered script callers.items →
        HaveCalled N.Places.place_of (ops_in script callers.items) (replies_in script callers.items) (history ended) →
        ServedLines N.Places.place_of script told.printed.callers told.printed.pairs told.trace) }
{
    keyset_theorem();
    let pairs = ended.pairs(alloc)?;
    Ok(Told {
        printed: Printed { callers, pairs },
        trace: ended.trace(),
    })
}

/// Serves all callers over a dictionary that begins empty, each in its order: workers run beside each other, and each draws a
/// caller and serves it whole until none is left. What the callers did is one legal history of a map, the graph was good at
/// each moment of it, and each Full was due. Each event is of one of these callers, and names none but the nodes that were
/// asked for.
///
/// A line of a script is a call, or a scan, whose parts are calls of its caller, one after another. Scans and moves may be in
/// it if `reach` serves them. Room for the parts is reserved before the first call.
///
/// `setting` says how many nodes and workers there are, and chooses what the calls at one key ask where they may begin. What is
/// promised does not depend on the choice.
///
/// # Errors
///
/// Only lack of memory.
pub fn serve_callers<
    N: Node + Send,
    T: Ruled + Serving<N, Arena<N, <T as Ruled>::Rule>>,
    S: Reaching<N, Arena<N, <T as Ruled>::Rule>, T> + Sync,
    R: Threads + Wait + Sync,
    G: Gate + Admits + Sync,
>(
    rt: &R,
    alloc: Global,
    gate: &G,
    reach: &S,
    setting: Setting,
    script: Script,
) -> Result<Told, AllocError>
where
    N::Places: Send + Sync,
    requires callers { length script ≤ 1024 }
    requires served { AreServedLines S.scans S.moves script }
    ensures served { IfOk result (λ told. ServedLines N.Places.place_of script
        told.printed.callers told.printed.pairs told.trace) }
    ensures lawful { IfOk result (λ told. Lawful told.trace) }
    ensures good { IfOk result (λ told. GoodThroughout told.trace) }
    ensures due { IfOk result (λ told. FullsDue N.layout setting.nodes told.trace) }
    ensures named { IfOk result (λ told. AllNamedBelow setting.nodes told.trace) }
    ensures callers { IfOk result (λ told. CallersBelow (length script) told.trace) }
{
    if script.callers.is_empty() {
        let ended = serve_nobody::<N, T>(alloc, setting.nodes)?;
        return tell(alloc, ended, Vec::new(alloc));
    }
    let callers = script.callers.len() as u32;
    let (dictionary, passes) = Dictionary::<N, T>::start_fit(alloc, setting.nodes, callers)?;
    let (ended, replies) = serve_jobs::<N, T, S, R, G, Brand>(
        rt, alloc, gate, reach, setting, script, dictionary, passes,
    )?;
    tell(alloc, ended, replies)
}
