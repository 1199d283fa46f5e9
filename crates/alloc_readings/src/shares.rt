// Shares from a matrix, and their units.
ghost use Rattle.alloc_outcomes.specs.Causes.{input_cause, scale_cause};
ghost use Rattle.alloc_outcomes.specs.Checks.{Checked};
ghost use Rattle.alloc_readings.specs.Shares.{MatrixTextReads, ScalesOrNot};

use alloc_input::read_matrix;
use alloc_outcomes::Cause;
use quota_sets::Scaled;
use scaled_matrix::{Shares, scale};
use std::alloc::Global;

/// The shares that a file reads as.
pub fn shares_from(alloc: Global, matrix: &[u8]) -> Result<Shares, Cause>
    ensures { Checked (λ given. given) input_cause (MatrixTextReads matrix.now) result }
{
    Ok(read_matrix(alloc, matrix)?)
}

/// The shares in units over their least common denominator.
pub fn scaled_from(alloc: Global, shares: &Shares) -> Result<Scaled, Cause>
    ensures { Checked (λ x. x) scale_cause (ScalesOrNot shares.now) result }
{
    Ok(scale(alloc, shares)?)
}
