//! Tests of the texts: scripts and printed runs are read and written by the public calls of `ks_script`.
#![tactic(auto)]

#[cfg(test)]
mod pieces;
#[cfg(test)]
mod tests;
