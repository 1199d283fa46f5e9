//! Sets of cells with quotas.

ghost use Rattle.std.specs.Prelude.{◌≡◌, ◌==◌, filter};
ghost use Rattle.definitions.specs.Sets.{IsQuotaSet};

use definitions::Cell;
use std::marker::Model;

/// A set of cells on side 1 or 2, with a floor and a ceiling for the units in all its cells.
///
/// The cells rise strictly by agent and then object, and the floor is at most the ceiling, which is
/// at most 1,000.
#[derive(Debug, Drop)]
pub struct QuotaSet {
    side: u8,
    floor: u32,
    ceiling: u32,
    cells: Vec<Cell>,
}

impl Model for QuotaSet {
    ghost use Rattle.definitions.specs.Sets.{SetValue, IsQuotaSet};

    ghost Value = { SetValue };

    ghost view = { λ s. record {
      side = s.side;
      floor = s.floor;
      ceiling = s.ceiling;
      cells = s.cells.items;
    } };

    ghost invariant = { λ s. IsQuotaSet (record {
      side = s.side;
      floor = s.floor;
      ceiling = s.ceiling;
      cells = s.cells.items;
    }) };
}

impl QuotaSet {
    /// The set with these cells and quotas.
    pub fn new(side: u8, floor: u32, ceiling: u32, cells: Vec<Cell>) -> QuotaSet
        requires { IsQuotaSet (record {
          side = side;
          floor = floor;
          ceiling = ceiling;
          cells = cells.items;
        }) }
        ensures { result ≡ record {
          side = side;
          floor = floor;
          ceiling = ceiling;
          cells = cells.items;
        } }
    {
        QuotaSet {
            side,
            floor,
            ceiling,
            cells,
        }
    }

    /// The side, 1 or 2.
    pub fn side(&self) -> u8
        ensures value { result ≡ self.now.side }
        ensures lawful { IsQuotaSet self.now }
    {
        self.side
    }

    /// The least that its cells may have in all.
    pub fn floor(&self) -> u32
        ensures value { result ≡ self.now.floor }
        ensures lawful { IsQuotaSet self.now }
    {
        self.floor
    }

    /// The most that its cells may have in all.
    pub fn ceiling(&self) -> u32
        ensures value { result ≡ self.now.ceiling }
        ensures lawful { IsQuotaSet self.now }
    {
        self.ceiling
    }

    /// The cells, rising by agent and then object.
    pub fn cells(&self) -> &[Cell]
        ensures value { result.now ≡ self.now.cells }
        ensures lawful { IsQuotaSet self.now }
    {
        &self.cells
    }

    /// The cells of one agent, rising by object. Agents count from 0.
    pub fn cells_of(&self, agent: u32) -> &[Cell]
        ensures value { result.now ≡ filter (λ c. c.agent == agent) self.now.cells }
        ensures lawful { IsQuotaSet self.now }
    {
        let cells = self.cells();
        let start = cells.partition_point(|cell| cell.agent < agent);
        let rest = &cells[start..];
        let end = rest.partition_point(|cell| cell.agent <= agent);
        &rest[..end]
    }
}
