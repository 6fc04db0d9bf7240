//! Calls with a guide: what they return, beside a plain map, and how seldom they take the root.
ghost use Rattle.ks_dictionary.specs.Of.{IsIdlePassOf};

use ks_arena::{Arena, Pass};
use ks_bplus::BNode;
use ks_dictionary::{Dictionary, Gated};
use ks_gate::{Gate, Point};
use ks_giveup::GiveUp;
use ks_guide::Guide;
use ks_link::LinkMove;
use ks_linked::WithLink;
use ks_node::{Node, WithRange};
use ks_shape::{Hinting, Ruled};
use std::sync::Wait;
use std::sync::atomic::AtomicU64;
use std::sync::atomic::Ordering::SeqCst;
use std::test::Fail;

/// Counts how often the root is taken.
#[derive(Drop)]
struct Roots {
    taken: AtomicU64,
}

impl Roots {
    /// How often it was taken.
    fn taken(&self) -> u64 {
        self.taken.load(SeqCst)
    }
}

impl Gate for Roots {
    fn at(&self, _caller: u32, point: Point) {
        if point == Point::Taken(0) {
            self.taken.fetch_add(1, SeqCst);
        }
    }
}

/// A gate that has counted nothing.
fn none_taken() -> Roots {
    Roots {
        taken: AtomicU64::new(0),
    }
}

/// What the plain map has.
fn had(plain: &[Option<u128>], key: u64) -> Option<u128> {
    match plain.get(key as usize) {
        Some(value) => *value,
        None => None,
    }
}

/// Sets what the plain map has.
fn set(plain: &mut [Option<u128>], key: u64, value: Option<u128>) {
    if (key as usize) < plain.len() {
        plain[key as usize] = value;
    }
}

/// The draw after this one.
fn next(draw: u64) -> u64 {
    draw.wrapping_mul(6364136223846793005)
        .wrapping_add(1442695040888963407)
}

/// Makes a drawn call at a key below 2048, with a guide and in the plain map. Returns whether both returned the same.
fn agrees<N: Node, T: Ruled + Hinting<N, Arena<N, <T as Ruled>::Rule>>, R: Wait>(
    rt: &R,
    map: &Dictionary<N, T>,
    pass: &mut Pass<N, T::Rule>,
    gate: &Roots,
    guide: &mut Guide,
    plain: &mut [Option<u128>],
    draw: u64,
) -> bool
    requires { IsIdlePassOf map.now pass.old }
    ensures { IsIdlePassOf map.now pass.new }
{
    let rt = Gated { rt, gate };
    let key = (draw >> 40) % 2048;
    let value = draw as u128;
    let before = had(plain, key);
    match (draw >> 33) % 8 {
        0 | 1 => map.get_near(&rt, pass, guide, key).found == before,
        2 | 3 => {
            set(plain, key, Some(value));
            match map.put_near(&rt, pass, guide, key, value) {
                Ok(told) => told.found == before,
                Err(_) => false,
            }
        }
        4 => {
            if before.is_none() {
                set(plain, key, Some(value));
            }
            match map.add_near(&rt, pass, guide, key, value) {
                Ok(told) => told.found == before,
                Err(_) => false,
            }
        }
        5 => {
            let old = before.unwrap_or(0);
            if before.is_some() {
                set(plain, key, Some(value));
            }
            map.swap_near(&rt, pass, guide, key, old, value).found == before
        }
        _ => {
            set(plain, key, None);
            map.del_near(&rt, pass, guide, key).found == before
        }
    }
}

/// Makes drawn calls, and returns how many returned something else than the plain map.
fn count_wrong<N: Node, T: Ruled + Hinting<N, Arena<N, <T as Ruled>::Rule>>, R: Wait>(
    rt: &R,
    map: &Dictionary<N, T>,
    pass: &mut Pass<N, T::Rule>,
    gate: &Roots,
    guide: &mut Guide,
    plain: &mut [Option<u128>],
    calls: u32,
) -> u32
    requires { IsIdlePassOf map.now pass.old }
    ensures { IsIdlePassOf map.now pass.new }
{
    let mut wrong = 0u32;
    let mut draw = 7;
    for salt in 0..calls {
        draw = next(draw ^ salt as u64);
        if !agrees(rt, map, pass, gate, guide, plain, draw) {
            wrong = wrong.saturating_add(1);
        }
    }
    wrong
}

#[test]
fn guided_calls_by_giving_up_return_what_a_map_returns(rt: HostRuntime) -> Result<(), Fail> {
    let alloc = rt.alloc();
    let gate = none_taken();
    let mut plain: Vec<Option<u128>> = vec![in alloc; None; 2048]?;
    let mut guide = Guide::start(alloc, 1024, 64)?;
    let (map, mut passes) = Dictionary::<WithRange<BNode>, GiveUp>::start(alloc, 1024, 1)?;
    let plain = plain.as_mut_slice();
    let wrong = count_wrong(&rt, &map, &mut passes[0], &gate, &mut guide, plain, 20000);
    assert_eq!(rt; wrong, 0);
    assert!(rt; gate.taken() < 10000);
    let mut small = Guide::start(alloc, 1, 0)?;
    let wrong = count_wrong(&rt, &map, &mut passes[0], &gate, &mut small, plain, 4000);
    assert_eq!(rt; wrong, 0);
    Ok(())
}

#[test]
fn guided_calls_along_links_return_what_a_map_returns(rt: HostRuntime) -> Result<(), Fail> {
    let alloc = rt.alloc();
    let gate = none_taken();
    let mut plain: Vec<Option<u128>> = vec![in alloc; None; 2048]?;
    let mut guide = Guide::start(alloc, 1024, 64)?;
    let (map, mut passes) = Dictionary::<WithLink<BNode>, LinkMove>::start(alloc, 1024, 1)?;
    let plain = plain.as_mut_slice();
    let wrong = count_wrong(&rt, &map, &mut passes[0], &gate, &mut guide, plain, 20000);
    assert_eq!(rt; wrong, 0);
    assert!(rt; gate.taken() < 10000);
    Ok(())
}
