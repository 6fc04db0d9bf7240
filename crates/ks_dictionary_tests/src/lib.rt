//! Tests of dictionaries beside those of every pairing: drawn calls with moves, what a gate is notified of by a move, and passes
//! that are dropped.
#![tactic(auto)]

#[cfg(test)]
mod begins;
#[cfg(test)]
mod dropped;
#[cfg(test)]
mod moves;
#[cfg(test)]
mod plain;
