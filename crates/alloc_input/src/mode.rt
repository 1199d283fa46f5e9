//! What quotas are read for.

ghost use Rattle.std.specs.Prelude.{◌≡◌};
ghost use Rattle.alloc_input.specs.Stated.{is_solve};

/// What quotas are read for.
#[derive(Clone, Copy, Debug, PartialEq, Eq)]
pub enum Mode {
    /// For a problem with preferences: floors are 0, stated sets are of side 2, an `agent` record states a demand.
    Solve,
    /// For a matrix: sets of both sides, an `agent` record states the quotas of a row.
    Decompose,
}

impl Mode {
    pub(crate) fn is_solve(self) -> bool
        ensures { result ≡ is_solve self }
    {
        match self {
            Mode::Solve => true,
            Mode::Decompose => false,
        }
    }
}
