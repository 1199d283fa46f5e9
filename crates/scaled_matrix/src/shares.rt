//! Shares as they are given: a fraction for each agent and object. Nothing here knows of denominators.

ghost use Rattle.std.specs.Prelude.{◌≡◌, ◌*◌, ◌≤◌, length, All};
ghost use Rattle.frac128.specs.Fraction.{numerator, denominator};
ghost use Rattle.scaled_matrix.specs.Entries.{IsShares, ratios_of, shares_from};

use frac128::Fraction;
use quota_sets::Names;
use std::marker::Model;

/// Shares of agents by objects, one fraction for each cell, row by row, each at most 1,000.
#[derive(Debug, Drop)]
pub struct Shares {
    agents: Names,
    objects: Names,
    entries: Vec<Fraction>,
}

impl Model for Shares {
    ghost use Rattle.definitions.specs.Values.{SharesValue};
    ghost use Rattle.scaled_matrix.specs.Entries.{IsShares, shares_from};

    ghost Value = { SharesValue };

    ghost view = { λ s. shares_from s.agents s.objects s.entries.items };

    ghost invariant = { λ s. IsShares (shares_from s.agents s.objects s.entries.items) };
}

impl Shares {
    /// The shares with these entries, row by row.
    pub fn new(agents: Names, objects: Names, entries: Vec<Fraction>) -> Shares
        requires shape { length entries.items ≡ length agents * length objects }
        requires limit { All (λ x. numerator x ≤ 1000 * denominator x) entries.items }
        ensures { result ≡ shares_from agents objects entries.items }
    {
        Shares {
            agents,
            objects,
            entries,
        }
    }

    /// The agents' names, in the order of the rows.
    pub fn agents(&self) -> &Names
        ensures value { result.now ≡ self.now.agents }
        ensures lawful { IsShares self.now }
    {
        &self.agents
    }

    /// The objects' names, in the order of the columns.
    pub fn objects(&self) -> &Names
        ensures value { result.now ≡ self.now.objects }
        ensures lawful { IsShares self.now }
    {
        &self.objects
    }

    /// The entries, row by row.
    pub fn entries(&self) -> &[Fraction]
        ensures value { ratios_of result.now ≡ self.now.entries }
        ensures lawful { IsShares self.now }
    {
        &self.entries
    }
}
