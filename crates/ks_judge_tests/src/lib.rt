//! Tests of the judge and of the generator.
#![tactic(auto)]

#[cfg(test)]
mod judging;
#[cfg(test)]
mod making;
#[cfg(test)]
mod served;
