//! Tests of every pairing of a node type and a technique: the five calls and their `try_` forms, beside a plain map.
#![tactic(auto)]

#[cfg(test)]
mod tests;
