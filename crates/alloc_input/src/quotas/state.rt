//! What the records of quotas so far have stated.

use crate::quotas::open_sets::OpenSet;
use quota_sets::Names;

/// What the records so far have stated: the fields of `Stated`, and the number of cells of all sets.
#[derive(Drop)]
pub(crate) struct State {
    pub columns: Names,
    pub rows: Names,
    pub groups: Names,
    pub members: Vec<Vec<u32>>,
    pub bundles: Names,
    pub contents: Vec<Vec<u32>>,
    pub names: Names,
    pub places: Vec<u32>,
    pub sets: Vec<OpenSet>,
    pub total: usize,
    pub demands: Vec<u32>,
}
