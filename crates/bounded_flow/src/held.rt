// The sets that a net holds.

use quota_sets::Cell;

/// A set: its side and its cells. No loop reads it; contracts see it.
#[derive(Debug, Drop)]
pub struct HeldSet {
    pub side: u8,
    pub cells: Vec<Cell>,
}
