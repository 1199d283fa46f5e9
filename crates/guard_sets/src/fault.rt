//! Why there is no guarded family.

use std::alloc::AllocError;

/// Why there is no guarded family.
#[derive(Clone, Copy, Debug, PartialEq, Eq)]
pub enum GuardFault {
    /// The family would have more than 2,000 sets, or more than 1,201,000 cells counted over all sets.
    OverGuard {
        /// How many sets it would have.
        sets: u64,
        /// How many cells its sets would have.
        cells: u64,
    },
    /// Memory was refused.
    NoMemory,
}

impl From<AllocError> for GuardFault {
    ghost use Rattle.std.specs.Prelude.{◌≡◌};
    ghost use Rattle.guard_sets.specs.declared.fault.GuardFault.TheVariants.{NoMemory};

    ghost from_gives = { λ _ e. e ≡ NoMemory };

    fn from(_: AllocError) -> GuardFault {
        GuardFault::NoMemory
    }
}

impl From<quota_sets::NoMemory> for GuardFault {
    ghost use Rattle.std.specs.Prelude.{◌≡◌};
    ghost use Rattle.guard_sets.specs.declared.fault.GuardFault.TheVariants.{NoMemory};

    ghost from_gives = { λ _ e. e ≡ NoMemory };

    fn from(_: quota_sets::NoMemory) -> GuardFault {
        GuardFault::NoMemory
    }
}
