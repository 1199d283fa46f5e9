// One more record: checked, and what it says added to the state. Which checks a kind has stands in
// `checks`.
ghost use Rattle.std.specs.Prelude.{◌≡◌, ◌<◌, length, OnOk};
ghost use Rattle.lottery_file.specs.Said.{with_place};
ghost use Rattle.lottery_file.specs.Reading.{held, Takes, TakesRecord};
ghost use Rattle.lottery_file.specs.declared.words.Word.TheVariants as word;

use crate::checks::{
    Place, check_end, check_lottery, is_due, place_of, read_denominator, read_give, read_place,
    read_price, read_weight,
};
use crate::faults::{LotteryKind, Stop, need};
use crate::fields::{read_agents, read_columns, read_entries};
use crate::state::State;
use crate::words::{Word, may_follow, word_of};
use std::alloc::{AllocError, Global};
use table_text::Row;

#[tactic(auto, unfolding(crate::specs::Checks::check_word, crate::specs::Checks::check_agents, crate::specs::Said::add, crate::specs::Reading::held))]
fn take_agents(alloc: Global, row: &Row, state: &mut State) -> Result<(), Stop>
    ensures { Takes word.Agents row.now state.old result state.new }
{
    need(row.len() >= 2, LotteryKind::WrongLength)?;
    state.agents = read_agents(alloc, row)?;
    Ok(())
}

#[tactic(auto, unfolding(crate::specs::Checks::check_word, crate::specs::Said::add, crate::specs::Reading::held))]
fn take_objects(alloc: Global, row: &Row, state: &mut State) -> Result<(), Stop>
    requires { 0 < length row.now }
    ensures { Takes word.Objects row.now state.old result state.new }
{
    state.columns = read_columns(alloc, row)?;
    Ok(())
}

#[tactic(auto, unfolding(crate::specs::Checks::check_word, crate::specs::Checks::check_row, crate::specs::Said::add, crate::specs::Reading::held))]
fn take_row(row: &Row, state: &mut State) -> Result<(), Stop>
    ensures { Takes word.Row row.now state.old result state.new }
{
    need(
        row.len() == 2 + state.columns.len() as usize,
        LotteryKind::WrongLength,
    )?;
    let agent = place_of(&state.agents, row.field(1))?;
    need(agent as usize == state.rows, LotteryKind::WrongOrder)?;
    read_entries(row, 1000 * state.denominator, &mut state.units)?;
    state.rows += 1;
    Ok(())
}

#[tactic(auto, unfolding(crate::specs::Checks::check_word, crate::specs::Said::add, crate::specs::Reading::held))]
fn take_price(row: &Row, state: &mut State) -> Result<(), Stop>
    ensures { Takes word.Price row.now state.old result state.new }
{
    let price = read_price(row, state)?;
    state.prices.push(price).map_err(AllocError::from)?;
    Ok(())
}

// One more place on the open list.
#[tactic(auto, unfolding(crate::specs::Said::with_place, crate::specs::Reading::held))]
fn add_place(alloc: Global, place: Place, state: &mut State) -> Result<(), AllocError>
    ensures { OnOk result (held state.new
        ≡ with_place place.is_last place.column place.worth (held state.old)) }
{
    state.open_list.push(place.column)?;
    state.open_worths.push(place.worth)?;
    if place.is_last {
        let list = std::mem::replace(&mut state.open_list, Vec::new(alloc));
        state.lists.push(list)?;
        let worths = std::mem::replace(&mut state.open_worths, Vec::new(alloc));
        state.worths.push(worths)?;
    }
    Ok(())
}

#[tactic(auto, unfolding(crate::specs::Checks::check_word, crate::specs::Said::add))]
fn take_worth(alloc: Global, row: &Row, state: &mut State) -> Result<(), Stop>
    ensures { Takes word.Worth row.now state.old result state.new }
{
    let place = read_place(row, state)?;
    add_place(alloc, place, state)?;
    Ok(())
}

#[tactic(auto, unfolding(crate::specs::Checks::check_word, crate::specs::Said::add, crate::specs::Reading::held))]
fn take_piece(alloc: Global, row: &Row, state: &mut State) -> Result<(), Stop>
    ensures { Takes word.Piece row.now state.old result state.new }
{
    let weight = read_weight(row, state)?;
    state.pieces.begin(alloc, weight)?;
    Ok(())
}

#[tactic(auto, unfolding(crate::specs::Checks::check_word, crate::specs::Said::add, crate::specs::Reading::held))]
fn take_give(row: &Row, state: &mut State) -> Result<(), Stop>
    ensures { Takes word.Give row.now state.old result state.new }
{
    let give = read_give(row, state)?;
    state.pieces.give(give)?;
    Ok(())
}

// A record of this kind, which is due.
#[tactic(auto, unfolding(crate::specs::Checks::check_word, crate::specs::Said::add, crate::specs::Reading::held))]
fn take_word(alloc: Global, word: Word, row: &Row, state: &mut State) -> Result<(), Stop>
    requires { 0 < length row.now }
    ensures { Takes word row.now state.old result state.new }
{
    match word {
        Word::Lottery => Ok(check_lottery(row)?),
        Word::Denominator => {
            state.denominator = read_denominator(row)?;
            Ok(())
        }
        Word::Agents => take_agents(alloc, row, state),
        Word::Objects => take_objects(alloc, row, state),
        Word::Row => take_row(row, state),
        Word::Price => take_price(row, state),
        Word::Worth => take_worth(alloc, row, state),
        Word::Piece => take_piece(alloc, row, state),
        Word::Give => take_give(row, state),
        Word::End => Ok(check_end(row, state)?),
    }
}

// One more record.
#[tactic(auto, unfolding(crate::specs::Checks::check_next, crate::specs::Checks::check_kind, crate::specs::Reading::held))]
pub(crate) fn take_record(alloc: Global, row: &Row, state: &mut State) -> Result<(), Stop>
    ensures { TakesRecord row.now state.old result state.new }
{
    if row.is_empty() {
        return Ok(());
    }
    need(row.is_text(), LotteryKind::NotUtf8)?;
    let word = word_of(row.field(0)).ok_or(LotteryKind::WrongOrder)?;
    need(may_follow(word, state.last), LotteryKind::WrongOrder)?;
    need(is_due(word, state), LotteryKind::WrongOrder)?;
    take_word(alloc, word, row, state)?;
    state.last = Some(word);
    Ok(())
}
