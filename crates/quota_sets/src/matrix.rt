//! Matrices of whole numbers over one denominator. What the units are of is not known here.

ghost use Rattle.std.specs.Prelude.{◌≡◌, ◌<◌};
ghost use Rattle.definitions.specs.Sets.{IsScaledMatrix, units_of};

use definitions::Cell;
use std::marker::Model;

/// A matrix of agents by columns whose entries are whole numbers of units over one denominator.
///
/// The denominator is from 1 to 2^116, the units stand row by row, and all units together are at
/// most 1,000 times the denominator.
#[derive(Debug, Drop)]
pub struct Scaled {
    denominator: u128,
    agents: u32,
    columns: u32,
    units: Vec<u128>,
}

impl Model for Scaled {
    ghost use Rattle.definitions.specs.Sets.{ScaledValue, IsScaledMatrix};

    ghost Value = { ScaledValue };

    ghost view = { λ x. record {
      denominator = x.denominator;
      agents = x.agents;
      columns = x.columns;
      units = x.units.items;
    } };

    ghost invariant = { λ x. IsScaledMatrix (record {
      denominator = x.denominator;
      agents = x.agents;
      columns = x.columns;
      units = x.units.items;
    }) };
}

impl Scaled {
    /// The matrix with these units, row by row.
    pub fn new(denominator: u128, agents: u32, columns: u32, units: Vec<u128>) -> Scaled
        requires { IsScaledMatrix (record {
          denominator = denominator;
          agents = agents;
          columns = columns;
          units = units.items;
        }) }
        ensures { result ≡ record {
          denominator = denominator;
          agents = agents;
          columns = columns;
          units = units.items;
        } }
    {
        Scaled {
            denominator,
            agents,
            columns,
            units,
        }
    }

    /// The number of units that make one.
    pub fn denominator(&self) -> u128
        ensures value { result ≡ self.now.denominator }
        ensures lawful { IsScaledMatrix self.now }
    {
        self.denominator
    }

    /// The number of rows.
    pub fn agents(&self) -> u32
        ensures value { result ≡ self.now.agents }
        ensures lawful { IsScaledMatrix self.now }
    {
        self.agents
    }

    /// The number of columns.
    pub fn columns(&self) -> u32
        ensures value { result ≡ self.now.columns }
        ensures lawful { IsScaledMatrix self.now }
    {
        self.columns
    }

    /// The units of a cell.
    pub fn at(&self, cell: Cell) -> u128
        requires agent { cell.agent < self.now.agents }
        requires object { cell.object < self.now.columns }
        ensures value { result ≡ units_of self.now cell }
        ensures lawful { IsScaledMatrix self.now }
    {
        self.units[cell.agent as usize * self.columns as usize + cell.object as usize]
    }
}
