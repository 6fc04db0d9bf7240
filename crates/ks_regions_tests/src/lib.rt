//! Shapes over records, tried on some hundred small graphs with the readers of graphs. It has only tests, beside the
//! laws that say of all graphs what these show of some.
#![tactic(auto)]

#[cfg(test)]
mod tests;
