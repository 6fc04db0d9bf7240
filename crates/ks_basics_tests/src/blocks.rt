//! What no clause says: a worked row, and where the memory goes.
ghost use Rattle.std.specs.Prelude.{◌≡◌};

use ks_block::{Block, Memory, Source};
use std::alloc::{AllocError, Global};
use std::cell::Cell;
use std::test::Fail;

/// `Global`, which counts what it allocates and frees, and allocates no more than `limit` times.
#[derive(Drop)]
struct Counted<'a> {
    source: Global,
    limit: u32,
    given: &'a Cell<u32>,
    back: &'a Cell<u32>,
}

impl Source for Counted<'_> {
    fn take_memory(&self, room: usize) -> Result<Memory, AllocError> {
        if self.given.get() >= self.limit {
            return Err(AllocError);
        }
        self.given.set(self.given.get().saturating_add(1));
        self.source.take_memory(room)
    }

    fn give_back(&self, memory: Memory) {
        self.back.set(self.back.get().saturating_add(1));
        self.source.give_back(memory);
    }
}

fn crosses<T: Send>(value: T) -> T
    ensures { result ≡ value }
{
    value
}

/// Whether the block has these pairs and no other.
fn holds(block: &Block<Global>, pairs: &[(u64, u128)]) -> bool {
    if block.len() != pairs.len() {
        return false;
    }
    for at in 0..block.len() {
        if pairs.get(at).copied() != Some(block.get(at)) {
            return false;
        }
    }
    true
}

static REST: [(u64, u128); 2] = [(2, 20), (3, 30)];

static TAIL: [(u64, u128); 1] = [(3, u128::MAX)];

#[test]
fn pairs_stand_where_they_are_put(rt: HostRuntime) -> Result<(), Fail> {
    let mut block = crosses(Block::make(rt.alloc(), 8)?);
    block.insert_at(0, (1, 10));
    block.insert_at(1, (3, 30));
    block.insert_at(1, (2, 20));
    assert!(rt; block.remove_at(0) == (1, 10));
    assert!(rt; holds(&block, &REST));
    assert!(rt; block.room() == 8);
    block.set_value(1, u128::MAX);
    let mut tail = Block::make(rt.alloc(), 1)?;
    block.move_tail(1, &mut tail);
    assert!(rt; block.len() == 1);
    assert!(rt; holds(&tail, &TAIL));
    Ok(())
}

#[test]
fn refused_memory_loses_nothing(rt: HostRuntime) -> Result<(), Fail> {
    let given = Cell::new(0);
    let back = Cell::new(0);
    let source = || Counted {
        source: rt.alloc(),
        limit: 1,
        given: &given,
        back: &back,
    };
    let mut block = Block::make(source(), 1024)?;
    block.insert_at(0, (7, 70));
    let refused = Block::make(source(), 8);
    assert!(rt; refused.is_err());
    assert!(rt; block.get(0) == (7, 70));
    drop(block);
    assert!(rt; given.get() == 1 && back.get() == 1);
    Ok(())
}
