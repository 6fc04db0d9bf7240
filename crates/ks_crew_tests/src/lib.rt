//! Tests of dictionaries of several callers: all callers served, notes, and what may go to other threads.
#![tactic(auto)]

#[cfg(test)]
mod notes;
#[cfg(test)]
mod tests;
#[cfg(test)]
mod threads;
