//! Tickets may be shared by threads, and desks and jobs may go to another.
use crate::desk::{Desk, Tickets};
use crate::ticketed::Ticketed;

fn is_sync<T: Sync>(_x: &T) {}

fn is_send<T: Send>(_x: &T) {}

pub fn fits_threads<J: Ticketed + Send>(tickets: &Tickets<J>, desk: &Desk<J>, job: &J) {
    is_sync(tickets);
    is_send(tickets);
    is_send(desk);
    is_send(job);
}
