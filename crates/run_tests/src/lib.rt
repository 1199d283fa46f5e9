//! Tests of `run` over devices in memory, one file a command, by public calls only: they cross
//! every crate, so they stand in a crate of their own, and `alloc_cli` is proved once.
#![tactic(auto)]

#[cfg(test)]
mod audit;
#[cfg(test)]
mod cases;
#[cfg(test)]
mod decompose;
#[cfg(test)]
mod devices;
#[cfg(test)]
mod draw;
#[cfg(test)]
mod envy;
#[cfg(test)]
mod generate;
#[cfg(test)]
mod guard;
#[cfg(test)]
mod input_faults;
#[cfg(test)]
mod lottery_faults;
#[cfg(test)]
mod pact;
#[cfg(test)]
mod pick;
#[cfg(test)]
mod report;
#[cfg(test)]
mod runs;
#[cfg(test)]
mod sets;
#[cfg(test)]
mod sides;
#[cfg(test)]
mod solve;
#[cfg(test)]
mod table;
#[cfg(test)]
mod texts;
#[cfg(test)]
mod words;
