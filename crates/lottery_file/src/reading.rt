// The records of a text, one after the other, and the lottery that they make. What one record says
// isn't known here.
ghost use Rattle.std.specs.Prelude.{◌≡◌, ◌<◌, ◌-◌, ◌^◌, length};
ghost use Rattle.definitions.specs.Sets.{IsScaledMatrix};
ghost use Rattle.lottery_file.specs.Said.{nothing};
ghost use Rattle.lottery_file.specs.Lotteries.{lottery_of, lottery_value};
ghost use Rattle.lottery_file.specs.Reading.{held, ReadsRecords};

use crate::Lottery;
use crate::checks::is_priced;
use crate::faults::{LotteryFault, LotteryKind, LotteryRefusal, refused};
use crate::records::take_record;
use crate::state::State;
use crate::totals::{PieceList, Units};
use crate::words::is_ended;
use quota_sets::{Names, Prices, Scaled};
use std::alloc::Global;
use table_text::{RecordReader, Row};

#[tactic(auto, unfolding(crate::specs::Reading::held))]
fn start(alloc: Global) -> State
    ensures { held result ≡ nothing }
{
    State {
        last: None,
        denominator: 0,
        agents: Names::new(alloc),
        columns: Names::new(alloc),
        rows: 0,
        units: Units::new(alloc),
        prices: Vec::new(alloc),
        lists: Vec::new(alloc),
        open_list: Vec::new(alloc),
        worths: Vec::new(alloc),
        open_worths: Vec::new(alloc),
        pieces: PieceList::new(alloc),
    }
}

// What the records of a text say.
pub(crate) fn read_records(
    alloc: Global,
    reader: &mut RecordReader,
) -> Result<State, LotteryRefusal>
    requires { length reader.old < 2 ^ 64 - 1 }
    ensures { ReadsRecords reader.old result }
{
    let mut state = start(alloc);
    let mut row = Row::new(alloc);
    let mut record_no = 1;
    while reader.read(&mut row)? {
        if let Err(stop) = take_record(alloc, &row, &mut state) {
            return Err(refused(stop, record_no));
        }
        record_no += 1;
    }
    if is_ended(state.last) {
        return Ok(state);
    }
    Err(LotteryRefusal::Fault(LotteryFault {
        record_no,
        kind: LotteryKind::CutOff,
    }))
}

// The lottery that lawful records say.
#[tactic(auto, unfolding(crate::specs::Reading::held))]
pub(crate) fn finished(state: State) -> Lottery
    requires { IsScaledMatrix (lottery_of (held state)).shares }
    ensures { lottery_value result ≡ lottery_of (held state) }
{
    let priced = is_priced(&state);
    let State {
        last: _,
        denominator,
        agents,
        columns,
        rows: _,
        units,
        prices,
        lists,
        open_list: _,
        worths,
        open_worths: _,
        pieces,
    } = state;
    let shares = Scaled::new(denominator, agents.len(), columns.len(), units.into_list());
    let prices = if priced {
        Some(Prices {
            price: prices,
            worth: worths,
        })
    } else {
        None
    };
    Lottery {
        agents,
        columns,
        shares,
        lists,
        prices,
        pieces: pieces.into_pieces(),
    }
}
