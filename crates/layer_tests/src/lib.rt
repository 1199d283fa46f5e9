//! Tests of the layers below the commands, by their public calls: what no contract says, that with
//! ample memory each call answers. They stand in a crate of their own, so that each layer is proved
//! once. Tests of whole runs, with every fault of a text, are those of run_tests.
#![tactic(auto)]

#[cfg(test)]
mod fairness;
#[cfg(test)]
mod inputs;
#[cfg(test)]
mod lotteries;
#[cfg(test)]
mod pieces;
#[cfg(test)]
mod problems;
#[cfg(test)]
mod scales;
#[cfg(test)]
mod texts;
#[cfg(test)]
mod trees;
