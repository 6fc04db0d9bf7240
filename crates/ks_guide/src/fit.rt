//! A guide may go to another thread.
use crate::guide::Guide;

fn is_send<T: Send>(_x: &T) {}

pub fn fits_threads(guide: &Guide) {
    is_send(guide);
}
