//! A dictionary may be shared by threads, and its passes, its notes and what is left of it may go to another.
use crate::closed::Closed;
use crate::dictionary::Dictionary;
use ks_arena::{Arena, Note, Pass};
use ks_node::Node;
use ks_shape::{Ruled, Template};

fn is_sync<T: Sync>(_x: &T) {}

fn is_send<T: Send>(_x: &T) {}

pub fn fits_threads<N: Node + Send, T: Ruled + Template<N, Arena<N, <T as Ruled>::Rule>>>(
    dictionary: &Dictionary<N, T>,
    pass: &Pass<N, T::Rule>,
    note: &Note<N, T::Rule>,
    closed: &Closed<N>,
) {
    is_sync(dictionary);
    is_send(dictionary);
    is_send(pass);
    is_send(note);
    is_send(closed);
}
