//! Tests of what the clauses of a dictionary say of a known technique.
#![tactic(auto)]

#[cfg(test)]
mod upkeep;
