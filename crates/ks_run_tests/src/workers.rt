//! Fewer workers than callers.

ghost use Rattle.std.specs.Prelude.{◌<◌, ◌≤◌};

use ks_batch::serve_by;
use ks_ends::{Request, end};
use ks_gate::{NoGate, Point};
use ks_lines::{Aiding, Setting};
use ks_script::MemSink;
use ks_whole_runs::Piece::Bytes;
use ks_whole_runs::{Ends, Row, SERVED, Stop, Wrong, run, run_each};
use ks_words::{Draft, Pairing, Structure, Technique};
use std::alloc::{AllocError, Global};
use std::sync::Wait;
use std::test::Fail;
use std::thread::Threads;

const TWO: &[u8] = b"caller\nput 7 70\ncaller\nget 7\n";

const IN_ORDER: &[u8] = b"caller 0\n0 none\ncaller 1\n1 70\nmap\n7 70\nend\n";

static ONE_WORKER: [Row; 1] = [Row {
    words: &["run bplus coupling 4 1"],
    input: &[Bytes(TWO)],
    out: &[Bytes(IN_ORDER)],
    ..SERVED
}];

#[test]
fn one_worker_serves_the_callers_in_their_order(rt: HostRuntime) -> Result<(), Wrong> {
    run_each(&rt, rt.alloc(), &ONE_WORKER)
}

/// Caller 0 waits in vain for caller 1, which its worker draws only later.
static IN_VAIN: [Row; 1] = [Row {
    words: &["run bplus coupling 4 1"],
    stop: Stop::Meet {
        after: 0,
        at: Point::Begin,
        turns: 1000,
    },
    input: &[Bytes(TWO)],
    out: &[Bytes(IN_ORDER)],
    times_out: true,
    ..SERVED
}];

#[test]
fn one_worker_serves_a_caller_whole(rt: HostRuntime) -> Result<(), Wrong> {
    run_each(&rt, rt.alloc(), &IN_VAIN)
}

/// Makes a script, serves it with as many workers, and returns what is printed.
fn made_by<R: Threads + Wait + Sync>(
    rt: &R,
    alloc: Global,
    workers: u32,
) -> Result<Vec<u8>, AllocError>
    requires { (1 ≤ workers) × (workers ≤ 64) }
{
    let pairing = Pairing {
        structure: Structure::Bplus,
        technique: Technique::Coupling,
    };
    let setting = Setting {
        nodes: 4096,
        workers,
        aiding: Aiding::Guides,
    };
    let draft = Draft {
        callers: 64,
        calls: 16,
        first: 7,
    };
    let Request {
        pairing: _,
        setting: _,
        script,
        printing,
    } = Request::made(alloc, pairing, setting, draft)?;
    let told = serve_by(rt, alloc, &NoGate, pairing, setting, script)?;
    let mut out = MemSink::new(alloc, 4096, 4096, Vec::new(alloc))?;
    end(alloc, &mut out, printing, &told.printed)?;
    Vec::from_slice(alloc, out.taken())
}

/// The first of the numbers of workers whose text that sums up a run differs from that of the command `make`.
fn first_other<R: Threads + Wait + Sync>(
    rt: &R,
    alloc: Global,
    workers: &[u32],
) -> Result<Option<u32>, AllocError> {
    let words = "make bplus coupling 4096 64 16 7";
    let ended = run(rt, alloc, words, b"", Ends::Whole)?;
    for workers in workers {
        let workers = *workers;
        if workers < 1 || workers > 64 || ended.status != 0 {
            return Ok(Some(workers));
        }
        let made = made_by(rt, alloc, workers)?;
        if made.as_slice() != ended.out.as_slice() {
            return Ok(Some(workers));
        }
    }
    Ok(None)
}

/// The callers of a made script share no key, so how many workers serve them makes no difference.
#[test]
fn a_made_script_is_summed_up_alike_by_any_number_of_workers(rt: HostRuntime) -> Result<(), Fail> {
    let other = first_other(&rt, rt.alloc(), &[1, 2, 4, 64])?;
    assert_eq!(rt; other, None);
    Ok(())
}
