//! An arena may be shared by threads, and passes, notes, held nodes and what is left of an arena may go to another.
use crate::arena::Arena;
use crate::held::{Held, Note, Pass};
use crate::run::Run;
use ks_flow::Discipline;
use ks_node::Node;

fn is_sync<T: Sync>(_x: &T) {}

fn is_send<T: Send>(_x: &T) {}

pub fn fits_threads<N: Node + Send, D: Discipline>(
    arena: &Arena<N, D>,
    pass: &Pass<N, D>,
    note: &Note<N, D>,
    held: &Held<N>,
    run: &Run<N>,
) {
    is_sync(arena);
    is_send(arena);
    is_send(pass);
    is_send(note);
    is_send(held);
    is_send(run);
}
