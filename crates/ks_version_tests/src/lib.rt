//! Tests of whole runs of the program by scripts of the second, the third and the fourth version. Expected texts are worked by
//! hand.
#![tactic(auto)]

#[cfg(test)]
mod moves;
#[cfg(test)]
mod scans;
#[cfg(test)]
mod versions;
