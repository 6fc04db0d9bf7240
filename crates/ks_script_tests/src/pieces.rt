//! How the bytes of a run are offered.

use ks_history::Reply;
use ks_lines::Said;
use ks_script::{Failed, Printed, Replies, Sink, write_run};
use std::alloc::Global;
use std::test::Fail;

// How many bytes are offered at a time.
const PIECE: usize = 4096;

/// Takes all bytes, and keeps how many pieces of the full size came, and the size of each other one.
#[derive(Drop)]
struct Sizes {
    full: u64,
    others: Vec<usize>,
}

impl Sink for Sizes {
    ghost faults = { λ _. 0 };

    fn write(&mut self, piece: &[u8]) -> Result<usize, Failed> {
        if piece.len() == PIECE {
            self.full = self.full.saturating_add(1);
        } else {
            let _ = self.others.push(piece.len());
        }
        Ok(piece.len())
    }
}

// A run of one caller and `calls` calls, each of which returns the greatest value: 41 bytes a line, and its number.
fn run_of(alloc: Global, calls: u64) -> Result<Printed, Fail> {
    let mut lines = Replies::new(alloc);
    for number in 0..calls {
        lines.push(Said::Call(number, Reply::Value(u128::MAX)))?;
    }
    let mut callers = Vec::new(alloc);
    callers.push(lines)?;
    Ok(Printed {
        callers,
        pairs: Vec::new(alloc),
    })
}

#[test]
fn each_piece_of_a_run_but_the_last_is_full(rt: HostRuntime) -> Result<(), Fail> {
    let run = run_of(rt.alloc(), 1000)?;
    let mut sizes = Sizes {
        full: 0,
        others: Vec::new(rt.alloc()),
    };
    assert!(rt; write_run(&mut sizes, &run).is_ok());
    assert_eq!(rt; sizes.full, 10);
    assert_eq!(rt; sizes.others.as_slice(), [2947].as_slice());
    Ok(())
}
