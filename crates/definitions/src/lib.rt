//! The words that the contracts of this repository are written in: sets of cells and their quotas, eating,
//! random assignments and their certificates, roundings and lotteries, tickets, texts, envy and sides.
//!
//! The definitions stand in `specs/`, over lists and whole numbers, one module for each subject, with the
//! article that each comes from. Here are the plain structs that they name. Agents and columns count from 0,
//! sets from 1, unless a field says otherwise.
#![tactic(auto)]

/// A cell of a matrix: an agent's place in an object's column.
#[derive(Clone, Copy, Debug, PartialEq, Eq, PartialOrd, Ord, Hash)]
pub struct Cell {
    /// The agent, from 0; at most 999 in a lawful problem.
    pub agent: u32,
    /// The column, from 0; at most 200, where a column `none` counts.
    pub object: u32,
}

/// What a piece gives at one cell.
#[derive(Clone, Copy, Debug, PartialEq, Eq)]
pub struct Give {
    /// The agent, from 0.
    pub agent: u32,
    /// The column, from 0.
    pub object: u32,
    /// How many units; from 1 to 1,000 in a lawful lottery.
    pub count: u32,
}

/// A whole assignment of a lottery, with its weight.
#[derive(Debug, Drop, PartialEq, Eq)]
pub struct Piece {
    /// How many tickets name the piece; from 1 to the denominator of the lottery, at most 2^116.
    pub weight: u128,
    /// What it gives, by agent and then column; a cell that isn't named gets nothing.
    pub gives: Vec<Give>,
}

/// The pieces of a lottery in order. Their weights add up to its denominator.
#[derive(Debug, Drop, PartialEq, Eq)]
pub struct Pieces {
    /// The pieces; piece k of a text stands at index k - 1.
    pub list: Vec<Piece>,
}

/// Prices of stated sets and worths of places, which certify an assignment.
#[derive(Debug, Drop, PartialEq, Eq)]
pub struct Prices {
    /// The price of each stated set; set s stands at index s - 1. At most 2^40 where they are audited.
    pub price: Vec<u64>,
    /// For each agent the worth of each place of its list, in list order. Of size at most 2^40 where they are audited.
    pub worth: Vec<Vec<i64>>,
}

/// The first set by number whose sum breaks its quotas.
#[derive(Clone, Copy, Debug, PartialEq, Eq)]
pub struct Infeasible {
    /// The set, from 1.
    pub set: u32,
    /// Its sum, in units of the matrix's denominator.
    pub sum: u128,
}

pub mod examples;
mod laws;

pub use laws::{first_fault_law, first_in_law, limits_of_a_problem, piece_of_ticket};
