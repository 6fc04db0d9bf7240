//! A handle may go to another thread.
use crate::handle::Handle;

fn is_send<T: Send>(_x: &T) {}

pub fn fits_threads(handle: &Handle) {
    is_send(handle);
}
