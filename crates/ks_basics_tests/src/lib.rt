//! Tests of small crates on which the others are built: places, keysets, histories, gates, tickets and blocks.
#![tactic(auto)]

#[cfg(test)]
mod blocks;
#[cfg(test)]
mod few;
#[cfg(test)]
mod gates;
#[cfg(test)]
mod histories;
#[cfg(test)]
mod places;
#[cfg(test)]
mod readers;
#[cfg(test)]
mod tickets;
#[cfg(test)]
mod wrong;
