//! Tests of whole runs of the program: what is printed and said for each kind of text, and ends that fail. Expected texts are
//! worked by hand.
#![tactic(auto)]

#[cfg(test)]
mod ends;
#[cfg(test)]
mod failing;
#[cfg(test)]
mod faulty;
#[cfg(test)]
mod hostile;
#[cfg(test)]
mod outcomes;
#[cfg(test)]
mod texts;
