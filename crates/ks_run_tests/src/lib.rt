//! Tests of whole runs of the program: each pairing over its nodes, and callers that run beside each other. Expected texts are
//! worked by hand.
#![tactic(auto)]

#[cfg(test)]
mod hinted;
#[cfg(test)]
mod meetings;
#[cfg(test)]
mod merging;
#[cfg(test)]
mod pairings;
#[cfg(test)]
mod standing;
#[cfg(test)]
mod workers;
