// What a reader has read so far.
ghost use Rattle.std.specs.Prelude.{◌≤◌, ◌^◌};

use crate::totals::{PieceList, Units};
use crate::words::Word;
use quota_sets::Names;

/// What the records so far say: the closed lists with their worths, and those of the open list.
#[derive(Drop)]
pub(crate) struct State {
    pub last: Option<Word>,
    pub denominator: u128,
    pub agents: Names,
    pub columns: Names,
    pub rows: usize,
    pub units: Units,
    pub prices: Vec<u64>,
    pub lists: Vec<Vec<u32>>,
    pub open_list: Vec<u32>,
    pub worths: Vec<Vec<i64>>,
    pub open_worths: Vec<i64>,
    pub pieces: PieceList,
    ghost fits: { denominator ≤ 2 ^ 116 },
}
