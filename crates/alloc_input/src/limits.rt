//! The limits of inputs. They stand once, for all readers.

/// The most agents.
pub(crate) const MOST_AGENTS: u32 = 1000;

/// The most objects, `none` not counted.
pub(crate) const MOST_OBJECTS: u32 = 200;

/// The most sets that quotas state.
pub(crate) const MOST_SETS: usize = 1000;

/// The most cells of these sets, counted over all of them.
pub(crate) const MOST_CELLS: usize = 1_000_000;

/// The most that all demands may add up to.
pub(crate) const MOST_DEMANDED: u32 = 1000;

/// The greatest floor or ceiling, and the ceiling where none is given.
pub(crate) const GREATEST_QUOTA: u32 = 1000;

/// The greatest share.
pub(crate) const GREATEST_SHARE: u128 = 1000;
