//! What is eaten: the moments at which the sets are full, and what each agent has in the end. How it was eaten isn't
//! known here.

ghost use Rattle.std.specs.Prelude.{◌≡◌};
ghost use Rattle.eating.specs.Eaten.{IsEatenValue, eaten_value};

use quota_sets::Scaled;
use std::marker::Model;

/// The eating table of a problem with its assignment. Moments are whole numbers over the denominator of the shares,
/// which stands for the moment 1.
#[derive(Debug, Drop)]
pub struct Eaten {
    moments: Vec<u128>,
    shares: Scaled,
    caps: Vec<u128>,
}

impl Model for Eaten {
    ghost use Rattle.eating.specs.Eaten.{EatenValue, IsEatenValue, eaten_value};

    ghost Value = { EatenValue };

    ghost view = { λ e. eaten_value e.moments.items e.shares e.caps.items };

    ghost invariant = { λ e. IsEatenValue (eaten_value e.moments.items e.shares e.caps.items) };
}

impl Eaten {
    /// What is eaten, with the moments of the stated sets and of all cells' own limits.
    pub(crate) fn new(moments: Vec<u128>, shares: Scaled, caps: Vec<u128>) -> Eaten
        requires { IsEatenValue (eaten_value moments.items shares caps.items) }
        ensures { result ≡ eaten_value moments.items shares caps.items }
    {
        Eaten {
            moments,
            shares,
            caps,
        }
    }

    /// The moment at which each stated set is full, by number. The denominator says that the set isn't full before
    /// the end.
    pub fn moments(&self) -> &[u128]
        ensures value { result.now ≡ self.now.moments }
        ensures lawful { IsEatenValue self.now }
    {
        &self.moments
    }

    /// What each agent has of each column in the end, `none` last.
    pub fn shares(&self) -> &Scaled
        ensures value { result.now ≡ self.now.shares }
        ensures lawful { IsEatenValue self.now }
    {
        &self.shares
    }

    /// For each cell, row by row, the moment at which it is full by itself, if it is capped. The denominator stands
    /// at a capped cell that isn't full before the end, and at every other cell.
    pub fn caps(&self) -> &[u128]
        ensures value { result.now ≡ self.now.caps }
        ensures lawful { IsEatenValue self.now }
    {
        &self.caps
    }
}
