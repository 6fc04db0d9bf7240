//! Trials of the node types through their traits, beside a plain program that does the same stretch by stretch.
//!
//! The clauses of the traits say what each call makes of a body; these tests show whether that is what was meant. Each
//! call is made by `asked`, which tests at run time what the call requires, and after each step the node is read
//! through its traits and compared with `plain`.
#![tactic(auto)]

#[cfg(test)]
mod asked;
#[cfg(test)]
mod bare;
#[cfg(test)]
mod listing;
#[cfg(test)]
mod plain;
#[cfg(test)]
mod tests;
#[cfg(test)]
mod trial;
#[cfg(test)]
mod worked;
