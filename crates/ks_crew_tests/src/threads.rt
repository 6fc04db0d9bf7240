//! A dictionary may be shared by threads, and what it hands out may go to another.
use ks_arena::Arena;
use ks_coupling::Coupling;
use ks_crews::two_callers;
use ks_dictionary::{Closed, Dictionary, fits_threads};
use ks_list::ListNode;
use ks_node::Node;
use ks_shape::{Ruled, Template};
use std::alloc::{AllocError, Global};
use std::test::Fail;

/// What is left of a dictionary that ends at once.
fn ended_at_once<N: Node, T: Ruled + Template<N, Arena<N, <T as Ruled>::Rule>>>(
    alloc: Global,
) -> Result<Closed<N>, AllocError> {
    let (dictionary, passes) = Dictionary::<N, T>::start(alloc, 4, 1)?;
    dictionary.passes_law();
    Ok(dictionary.close(passes))
}

#[test]
fn a_dictionary_and_what_it_hands_out_may_go_to_other_threads(rt: HostRuntime) -> Result<(), Fail> {
    let closed = ended_at_once::<ListNode, Coupling>(rt.alloc())?;
    let (dictionary, mut pass, _) = two_callers::<ListNode, Coupling>(rt.alloc(), 4)?;
    let note = dictionary.note(&mut pass);
    fits_threads(&dictionary, &pass, &note, &closed);
    Ok(())
}
