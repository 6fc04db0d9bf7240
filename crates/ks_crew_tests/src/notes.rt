//! Notes: what one caller has seen, another learns.
ghost use Rattle.ks_dictionary.specs.Of.{IsIdlePassOf, IsNoteFrom};

use ks_arena::{Note, Pass};
use ks_coupling::Coupling;
use ks_crews::two_callers;
use ks_dictionary::Dictionary;
use ks_flow::Tree;
use ks_list::ListNode;
use std::sync::Wait;
use std::test::Fail;
use std::thread::{Threads, join};

type Lists = Dictionary<ListNode, Coupling>;

type Caller = Pass<ListNode, Tree>;

type News = Note<ListNode, Tree>;

/// Puts a value of ten times the key, and notes it.
fn put_and_note<R: Wait>(rt: &R, dictionary: &Lists, mut pass: Caller, key: u64) -> (Caller, News)
    requires { IsIdlePassOf dictionary.now pass }
    ensures pass { IsIdlePassOf dictionary.now result.0 }
    ensures note { IsNoteFrom dictionary.now result.1 }
{
    let _put = dictionary.put(rt, &mut pass, key, u128::from(key) * 10);
    let note = dictionary.note(&mut pass);
    (pass, note)
}

/// Learns a note, and gets a key.
fn learn_and_get<R: Wait>(
    rt: &R,
    dictionary: &Lists,
    mut pass: Caller,
    note: News,
    key: u64,
) -> Option<u128>
    requires pass { IsIdlePassOf dictionary.now pass }
    requires note { IsNoteFrom dictionary.now note }
{
    dictionary.learn(&mut pass, note);
    dictionary.get(rt, &mut pass, key).found
}

/// Both callers put and note at once.
fn both_put<R: Threads + Wait + Sync>(
    rt: &R,
    dictionary: &Lists,
    one: Caller,
    two: Caller,
) -> ((Caller, News), (Caller, News))
    requires one { IsIdlePassOf dictionary.now one }
    requires two { IsIdlePassOf dictionary.now two }
    ensures one { IsIdlePassOf dictionary.now result.0.0 }
    ensures two { IsIdlePassOf dictionary.now result.1.0 }
    ensures of_one { IsNoteFrom dictionary.now result.0.1 }
    ensures of_two { IsNoteFrom dictionary.now result.1.1 }
{
    join(
        rt,
        move || -> (Caller, News)
            requires { IsIdlePassOf dictionary.now one }
            ensures pass { IsIdlePassOf dictionary.entry.now result.0 }
            ensures note { IsNoteFrom dictionary.entry.now result.1 }
        { put_and_note(rt, dictionary, one, 5) },
        move || -> (Caller, News)
            requires { IsIdlePassOf dictionary.now two }
            ensures pass { IsIdlePassOf dictionary.entry.now result.0 }
            ensures note { IsNoteFrom dictionary.entry.now result.1 }
        { put_and_note(rt, dictionary, two, 6) },
    )
}

/// Each learns the other's note, and gets what the other put, at once.
fn both_learn<R: Threads + Wait + Sync>(
    rt: &R,
    dictionary: &Lists,
    one: (Caller, News),
    two: (Caller, News),
) -> (Option<u128>, Option<u128>)
    requires one { IsIdlePassOf dictionary.now one.0 }
    requires two { IsIdlePassOf dictionary.now two.0 }
    requires of_one { IsNoteFrom dictionary.now one.1 }
    requires of_two { IsNoteFrom dictionary.now two.1 }
{
    let (one, of_one) = one;
    let (two, of_two) = two;
    join(
        rt,
        move || -> Option<u128>
            requires pass { IsIdlePassOf dictionary.now one }
            requires note { IsNoteFrom dictionary.now of_two }
        { learn_and_get(rt, dictionary, one, of_two, 6) },
        move || -> Option<u128>
            requires pass { IsIdlePassOf dictionary.now two }
            requires note { IsNoteFrom dictionary.now of_one }
        { learn_and_get(rt, dictionary, two, of_one, 5) },
    )
}

/// Two callers put at once, each on a thread of its own; the notes that they bring are learnt on other threads.
#[test]
fn notes_go_from_thread_to_thread(rt: HostRuntime) -> Result<(), Fail> {
    let (dictionary, one, two) = two_callers::<ListNode, Coupling>(rt.alloc(), 4)?;
    let (one, two) = both_put(&rt, &dictionary, one, two);
    assert!(rt; both_learn(&rt, &dictionary, one, two) == (Some(60), Some(50)));
    Ok(())
}
