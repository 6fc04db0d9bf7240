//! A writer and its readers may go to other threads.
use crate::reader::HintReader;
use crate::writer::HintWriter;

fn is_send<T: Send>(_x: &T) {}

/// It computes nothing: it is proved only if a writer and a reader may be moved between threads.
pub fn fits_threads(writer: &HintWriter, reader: &HintReader) {
    is_send(writer);
    is_send(reader);
}
