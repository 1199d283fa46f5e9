// Lists that are read, with their sums.
ghost use Rattle.std.specs.Prelude.{◌≡◌, ◌<◌, ◌+◌, ◌^◌, ◌∷◌, ◌++◌, [], length, map, sum, OnOk, OnErr};
ghost use Rattle.definitions.specs.Values.{piece_value};
ghost use Rattle.lottery_file.specs.Said.{onto_last};
ghost use Rattle.lottery_file.specs.Checks.{weight_sum, comes_after, follows_gives, follows_last};

use quota_sets::{Give, Piece, Pieces};
use std::alloc::{AllocError, Global};
use std::marker::Model;

/// Numbers with their sum.
#[derive(Drop)]
pub(crate) struct Units {
    list: Vec<u128>,
    total: u128,
}

impl Model for Units {
    ghost use Rattle.std.specs.Prelude.{List, ℕ, sum, ◌≡◌};

    ghost Value = { List ℕ };

    ghost view = { λ u. u.list.items };

    ghost invariant = { λ u. u.total ≡ sum u.list.items };
}

impl Units {
    pub fn new(alloc: Global) -> Units
        ensures { result ≡ [] }
    {
        Units {
            list: Vec::new(alloc),
            total: 0,
        }
    }

    pub fn total(&self) -> u128
        ensures { result ≡ sum self.now }
    {
        self.total
    }

    pub fn push(&mut self, n: u128) -> Result<(), AllocError>
        requires { sum self.old + n < 2 ^ 128 }
        ensures ok { OnOk result (self.new ≡ self.old ++ n ∷ []) }
        ensures err { OnErr result (self.new ≡ self.old) }
    {
        self.list.push(n)?;
        self.total += n;
        Ok(())
    }

    pub fn into_list(self) -> Vec<u128>
        ensures { result.items ≡ self }
    {
        let Units { list, total: _ } = self;
        list
    }
}

/// The pieces so far, with the sum of their weights.
#[derive(Drop)]
pub(crate) struct PieceList {
    list: Vec<Piece>,
    weight: u128,
}

impl Model for PieceList {
    ghost use Rattle.std.specs.Prelude.{List, ◌≡◌, map};
    ghost use Rattle.definitions.specs.Values.{PieceValue, piece_value};
    ghost use Rattle.lottery_file.specs.Checks.{weight_sum};

    ghost Value = { List PieceValue };

    ghost view = { λ p. map piece_value p.list.items };

    ghost invariant = { λ p. p.weight ≡ weight_sum (map piece_value p.list.items) };
}

impl PieceList {
    pub fn new(alloc: Global) -> PieceList
        ensures { result ≡ [] }
    {
        PieceList {
            list: Vec::new(alloc),
            weight: 0,
        }
    }

    pub fn len(&self) -> usize
        ensures count { result ≡ length self.now }
        ensures within { result < 2 ^ 63 }
    {
        self.list.len()
    }

    pub fn weight(&self) -> u128
        ensures { result ≡ weight_sum self.now }
    {
        self.weight
    }

    /// One more piece, without gives.
    pub fn begin(&mut self, alloc: Global, weight: u128) -> Result<(), AllocError>
        requires { weight_sum self.old + weight < 2 ^ 128 }
        ensures { OnOk result (self.new
            ≡ self.old ++ (record { weight = weight; gives = [] }) ∷ []) }
    {
        let piece = Piece {
            weight,
            gives: Vec::new(alloc),
        };
        self.list.push(piece)?;
        self.weight += weight;
        Ok(())
    }

    /// One more give of the last piece.
    pub fn give(&mut self, give: Give) -> Result<(), AllocError>
        ensures { OnOk result (self.new ≡ onto_last give self.old) }
    {
        let n = self.list.len();
        if n == 0 {
            return Ok(());
        }
        let piece = &mut self.list[n - 1];
        piece.gives.push(give)?;
        Ok(())
    }

    /// Whether a cell comes after the last give of the last piece.
    pub fn precedes(&self, agent: u32, column: u32) -> bool
        ensures { result ≡ follows_last agent column self.now }
    {
        let n = self.list.len();
        if n == 0 {
            return true;
        }
        follows_gives(agent, column, self.list[n - 1].gives.as_slice())
    }

    pub fn into_pieces(self) -> Pieces
        ensures { map piece_value result.list.items ≡ self }
    {
        let PieceList { list, weight: _ } = self;
        Pieces { list }
    }
}

fn follows_gives(agent: u32, column: u32, gives: &[Give]) -> bool
    ensures { result ≡ follows_gives agent column gives.now }
{
    if gives.is_empty() {
        return true;
    }
    comes_after(agent, column, gives[gives.len() - 1])
}

// Whether a cell comes after the give, by agent and then column.
fn comes_after(agent: u32, column: u32, give: Give) -> bool
    ensures { result ≡ comes_after agent column give }
{
    give.agent < agent || (give.agent == agent && give.object < column)
}
