//! The trials of each row.
use crate::meets;
use crate::trial::Trial;
use crate::trials::{crowds, full, held, thinned, wide};
use ks_gate::Point;
use std::alloc::{AllocError, Global};

/// Its multiples modulo 2^64 are in no order.
const STRIDE: u64 = 0x9E37_79B9_7F4A_7C15;

/// Hash nodes have its multiples at places 0, 1, 2 and so on.
const SIDE_BY_SIDE: u64 = 0xF1DE_83E1_9937_733D;

/// Under trees all nodes except the root are free once all keys are gone and the nodes are compacted.
const ROOT: Option<u64> = Some(1);

/// Four nodes of a list have room for 20 pairs, where keys come in their order: full ones are left with four.
fn lists(alloc: Global) -> Result<Vec<Trial>, AllocError> {
    let mut all = Vec::new(alloc);
    all.push(wide(alloc, 140, 300, STRIDE, ROOT)?)?;
    all.push(full(alloc, 4, 20, 1, ROOT)?)?;
    all.push(thinned(alloc, 4, &[0, 1, 2, 3, 4, 5, 6, 7, 8], &[8], 1, 1)?)?;
    all.push(thinned(alloc, 4, &[0, 1, 2, 3, 4, 5, 6, 7, 8], &[], 2, 0)?)?;
    crowds(alloc, &mut all, 6, 1, ROOT)?;
    Ok(all)
}

pub fn lists_by_coupling(alloc: Global) -> Result<Vec<Trial>, AllocError> {
    let mut all = lists(alloc)?;
    meets::far_by_coupling(alloc, &mut all)?;
    Ok(all)
}

pub fn lists_by_giving_up(alloc: Global) -> Result<Vec<Trial>, AllocError> {
    let mut all = lists(alloc)?;
    meets::far_by_giving_up(alloc, &mut all)?;
    Ok(all)
}

/// Of four nodes of a B+ tree one is the root, and the leaves have room for 32 pairs, where keys come in their order: full
/// ones are left with eight.
fn trees(alloc: Global, live: Option<u64>) -> Result<Vec<Trial>, AllocError> {
    let mut all = Vec::new(alloc);
    all.push(wide(alloc, 300, 2000, STRIDE, live)?)?;
    all.push(full(alloc, 4, 32, 1, live)?)?;
    crowds(alloc, &mut all, 6, 1, live)?;
    Ok(all)
}

/// The root over the two leaves that a del leaves with 8 and 8 pairs.
fn thin_tree(alloc: Global) -> Result<Trial, AllocError> {
    thinned(
        alloc,
        4,
        &[0, 1, 2, 3, 4, 5, 6, 7, 8, 9, 10, 11, 12, 13, 14, 15, 16],
        &[16],
        1,
        2,
    )
}

pub fn trees_by_coupling(alloc: Global) -> Result<Vec<Trial>, AllocError> {
    let mut all = trees(alloc, ROOT)?;
    all.push(thin_tree(alloc)?)?;
    all.push(meets::busy(alloc, Point::Given(0))?)?;
    meets::splits_by_coupling(alloc, &mut all)?;
    Ok(all)
}

pub fn trees_by_giving_up(alloc: Global) -> Result<Vec<Trial>, AllocError> {
    let mut all = trees(alloc, ROOT)?;
    all.push(thin_tree(alloc)?)?;
    all.push(meets::busy(alloc, Point::Taken(1))?)?;
    meets::splits_by_giving_up(alloc, &mut all)?;
    meets::merges_by_giving_up(alloc, &mut all)?;
    Ok(all)
}

pub fn trees_along_links(alloc: Global) -> Result<Vec<Trial>, AllocError> {
    let mut all = trees(alloc, None)?;
    all.push(meets::busy(alloc, Point::Taken(1))?)?;
    meets::splits_along_links(alloc, &mut all)?;
    Ok(all)
}

/// Eight nodes of a hash table have room for eight of nine places of one slice: the ninth needs a chain of seven splits, and
/// nine nodes.
fn tables(alloc: Global, live: Option<u64>) -> Result<Vec<Trial>, AllocError> {
    let mut all = Vec::new(alloc);
    all.push(wide(alloc, 200, 300, 1, live)?)?;
    all.push(full(alloc, 8, 8, SIDE_BY_SIDE, live)?)?;
    all.push(wide(alloc, 9, 9, SIDE_BY_SIDE, live)?)?;
    crowds(alloc, &mut all, 12, 1, live)?;
    Ok(all)
}

pub fn tables_under_trees(alloc: Global) -> Result<Vec<Trial>, AllocError> {
    tables(alloc, ROOT)
}

pub fn tables_along_links(alloc: Global) -> Result<Vec<Trial>, AllocError> {
    tables(alloc, None)
}

/// Keys in the order of their places, of which `fits` fill 64 leaves, all but the last half full, and their children the
/// root. The next key needs a node for a leaf, and two more for the root to grow. Compaction merges the leaves two by two, and
/// the two branches below the root to one.
fn wide_roots_under_trees(
    alloc: Global,
    all: &mut Vec<Trial>,
    fits: usize,
    stride: u64,
) -> Result<(), AllocError> {
    let more = fits.saturating_add(1);
    all.push(full(alloc, 65, fits, stride, ROOT)?)?;
    all.push(full(alloc, 67, fits, stride, ROOT)?)?;
    all.push(held(alloc, 68, more, stride, &[], 34, 34)?)?;
    Ok(())
}

/// The same along links, where the new leaf may go without an edge: a link leads to it.
fn wide_roots_along_links(
    alloc: Global,
    all: &mut Vec<Trial>,
    fits: usize,
    stride: u64,
) -> Result<(), AllocError> {
    let more = fits.saturating_add(1);
    all.push(full(alloc, 65, fits, stride, None)?)?;
    all.push(held(alloc, 66, more, stride, &[], 66, 0)?)?;
    all.push(held(alloc, 68, more, stride, &[], 68, 0)?)?;
    Ok(())
}

/// Trees whose leaves have 16 pairs, and whose branches have 64 children.
pub fn wide_trees_under_trees(alloc: Global) -> Result<Vec<Trial>, AllocError> {
    let mut all = Vec::new(alloc);
    all.push(wide(alloc, 300, 2000, STRIDE, ROOT)?)?;
    all.push(full(alloc, 4, 32, 1, ROOT)?)?;
    all.push(thin_tree(alloc)?)?;
    wide_roots_under_trees(alloc, &mut all, 520, 1)?;
    crowds(alloc, &mut all, 6, 1, ROOT)?;
    Ok(all)
}

pub fn wide_trees_along_links(alloc: Global) -> Result<Vec<Trial>, AllocError> {
    let mut all = Vec::new(alloc);
    all.push(wide(alloc, 300, 2000, STRIDE, None)?)?;
    all.push(full(alloc, 4, 32, 1, None)?)?;
    wide_roots_along_links(alloc, &mut all, 520, 1)?;
    crowds(alloc, &mut all, 6, 1, None)?;
    Ok(all)
}

/// Hash tables whose buckets have 32 pairs. The first 33 keys fill two buckets with 16 and 17, of which key 17 is the first.
pub fn wide_tables_under_trees(alloc: Global) -> Result<Vec<Trial>, AllocError> {
    let mut all = Vec::new(alloc);
    all.push(wide(alloc, 80, 1100, 1, ROOT)?)?;
    all.push(full(alloc, 4, 65, 1, ROOT)?)?;
    all.push(held(alloc, 4, 33, 1, &[], 3, 0)?)?;
    all.push(held(alloc, 4, 33, 1, &[0], 1, 0)?)?;
    all.push(held(alloc, 4, 33, 1, &[17], 1, 2)?)?;
    wide_roots_under_trees(alloc, &mut all, 1040, SIDE_BY_SIDE)?;
    crowds(alloc, &mut all, 6, 1, ROOT)?;
    Ok(all)
}

pub fn wide_tables_along_links(alloc: Global) -> Result<Vec<Trial>, AllocError> {
    let mut all = Vec::new(alloc);
    all.push(wide(alloc, 80, 1100, 1, None)?)?;
    all.push(full(alloc, 4, 65, 1, None)?)?;
    all.push(held(alloc, 4, 33, 1, &[0], 3, 0)?)?;
    all.push(held(alloc, 64, 1100, 1, &[], 61, 0)?)?;
    wide_roots_along_links(alloc, &mut all, 1040, SIDE_BY_SIDE)?;
    crowds(alloc, &mut all, 6, 1, None)?;
    Ok(all)
}

/// Of four nodes of a binary tree one is the root over two leaves of at most two pairs, and a full leaf needs two more.
pub fn binary_trees(alloc: Global) -> Result<Vec<Trial>, AllocError> {
    let mut all = Vec::new(alloc);
    all.push(wide(alloc, 700, 300, STRIDE, ROOT)?)?;
    all.push(full(alloc, 4, 3, 1, ROOT)?)?;
    all.push(thinned(alloc, 5, &[0, 10, 20, 1, 2], &[20, 2], 3, 2)?)?;
    all.push(thinned(alloc, 5, &[0, 10, 20, 1, 2], &[20, 2, 0], 1, 0)?)?;
    crowds(alloc, &mut all, 40, STRIDE, ROOT)?;
    Ok(all)
}

pub fn binary_trees_by_giving_up(alloc: Global) -> Result<Vec<Trial>, AllocError> {
    let mut all = binary_trees(alloc)?;
    meets::merges_below_by_giving_up(alloc, &mut all)?;
    Ok(all)
}
