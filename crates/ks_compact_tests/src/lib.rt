//! Tests of compaction: what was split off is free again, and the map stays.
#![tactic(auto)]

#[cfg(test)]
mod graphs;
#[cfg(test)]
mod runs;
#[cfg(test)]
mod tests;
