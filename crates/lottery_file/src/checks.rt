// The checks of a record of each kind in their order, with what a lawful one says. No memory is
// taken here, and what was read before is only looked at.
ghost use Rattle.std.specs.Prelude.{◌≡◌, ◌==◌, ◌+◌, ◌≤◌, ◌^◌, Some, None, nat_le, length, is_some, IfOk, MatchResult};
ghost use Rattle.std.specs.List.{list_any};
ghost use Rattle.definitions.specs.Texts.{count_of, field, name_index, null_name, number, signed};
ghost use Rattle.lottery_file.specs.Checks.{check_lottery, check_denominator, check_price, check_worth, check_worth_text, check_piece, check_give, check_end_record, check_entry, is_due, weight_sum};
ghost use Rattle.lottery_file.specs.Reading.{held, Reads, IsPlaceIn, IsGiveIn};
ghost use Rattle.lottery_file.specs.declared.faults.LotteryKind.TheVariants as kind;

use crate::faults::{LotteryKind, need};
use crate::state::State;
use crate::words::Word;
use quota_sets::{Give, Names};
use table_text::{Row, is_word, read_count, read_signed};

// A place of an agent's list, as a record says it.
#[derive(Clone, Copy)]
pub(crate) struct Place {
    pub column: u32,
    pub worth: i64,
    // Whether it is that of `none`, the last on each list.
    pub is_last: bool,
}

// The place of a name.
pub(crate) fn place_of(names: &Names, name: &[u8]) -> Result<u32, LotteryKind>
    ensures { MatchResult result (λ place. name_index names.now name.now ≡ Some place)
        (λ k. (name_index names.now name.now ≡ None) × (k ≡ kind.UnknownName)) }
{
    names.find_bytes(name).ok_or(LotteryKind::UnknownName)
}

// The number that a field says.
fn count_in(text: &[u8]) -> Result<u128, LotteryKind>
    ensures { MatchResult result (λ n. count_of text.now ≡ Some n)
        (λ k. (count_of text.now ≡ None) × (k ≡ kind.BadNumber)) }
{
    read_count(text).ok_or(LotteryKind::BadNumber)
}

fn has_all_rows(state: &State) -> bool
    ensures { result ≡ nat_le (length state.now.agents) state.now.rows }
{
    state.agents.len() as usize <= state.rows
}

fn has_all_lists(state: &State) -> bool
    ensures { result ≡ nat_le (length state.now.agents) (length state.now.lists.items) }
{
    state.agents.len() as usize <= state.lists.len()
}

pub(crate) fn is_priced(state: &State) -> bool
    ensures { result ≡ is_some (name_index state.now.columns null_name) }
{
    state.columns.find_bytes(b"none").is_some()
}

// Whether there is still, or already, room for such a record.
#[tactic(auto, unfolding(crate::specs::Checks::is_due, crate::specs::Reading::held))]
pub(crate) fn is_due(word: Word, state: &State) -> bool
    ensures { result ≡ is_due word (held state.now) }
{
    match word {
        Word::Row => !has_all_rows(state),
        Word::Price => has_all_rows(state) && is_priced(state),
        Word::Worth => has_all_rows(state) && is_priced(state) && !has_all_lists(state),
        Word::Piece => has_all_rows(state) && (!is_priced(state) || has_all_lists(state)),
        _ => true,
    }
}

#[tactic(auto, unfolding(crate::specs::Checks::check_lottery))]
pub(crate) fn check_lottery(row: &Row) -> Result<(), LotteryKind>
    ensures { Reads result (check_lottery row.now)
        (λ _. Unit {0}) }
{
    need(row.len() == 2, LotteryKind::WrongLength)?;
    need(is_word(row.field(1), b"1"), LotteryKind::UnknownVersion)
}

#[tactic(auto, unfolding(crate::specs::Checks::check_denominator))]
pub(crate) fn read_denominator(row: &Row) -> Result<u128, LotteryKind>
    ensures { Reads result (check_denominator row.now)
        (λ d. (d ≡ number (field row.now 1)) × (d ≤ 2 ^ 116)) }
{
    need(row.len() == 2, LotteryKind::WrongLength)?;
    let denominator = count_in(row.field(1))?;
    need(denominator >= 1, LotteryKind::BadNumber)?;
    need(denominator <= 1 << 116, LotteryKind::OverLimit)?;
    Ok(denominator)
}

#[tactic(auto, unfolding(crate::specs::Checks::check_price, crate::specs::Reading::held))]
pub(crate) fn read_price(row: &Row, state: &State) -> Result<u64, LotteryKind>
    ensures { Reads result (check_price (held state.now) row.now)
        (λ price. price ≡ number (field row.now 2)) }
{
    need(row.len() == 3, LotteryKind::WrongLength)?;
    let set = count_in(row.field(1))?;
    need(
        set == state.prices.len() as u128 + 1,
        LotteryKind::WrongOrder,
    )?;
    need(set <= 1000, LotteryKind::OverLimit)?;
    let price = count_in(row.field(2))?;
    need(price <= 1 << 40, LotteryKind::OverLimit)?;
    Ok(price as u64)
}

pub(crate) fn has_column(list: &[u32], column: u32) -> bool
    ensures { result ≡ list_any (λ j. j == column) list.now }
{
    list.contains(&column)
}

#[tactic(auto, unfolding(crate::specs::Checks::check_worth_text))]
fn read_worth(text: &[u8]) -> Result<i64, LotteryKind>
    ensures { Reads result (check_worth_text text.now) (λ worth. worth ≡ signed text.now) }
{
    let worth = read_signed(text).ok_or(LotteryKind::BadNumber)?;
    need(worth.unsigned_abs() <= 1 << 40, LotteryKind::OverLimit)?;
    Ok(worth as i64)
}

#[tactic(auto, unfolding(crate::specs::Checks::check_worth, crate::specs::Reading::held))]
pub(crate) fn read_place(row: &Row, state: &State) -> Result<Place, LotteryKind>
    ensures { Reads result (check_worth (held state.now) row.now)
        (IsPlaceIn (held state.now) row.now) }
{
    need(row.len() == 4, LotteryKind::WrongLength)?;
    let agent = place_of(&state.agents, row.field(1))?;
    need(agent as usize == state.lists.len(), LotteryKind::WrongOrder)?;
    let column = place_of(&state.columns, row.field(2))?;
    let is_new = !has_column(state.open_list.as_slice(), column);
    need(is_new, LotteryKind::WrongOrder)?;
    let worth = read_worth(row.field(3))?;
    Ok(Place {
        column,
        worth,
        is_last: is_word(row.field(2), b"none"),
    })
}

#[tactic(auto, unfolding(crate::specs::Checks::check_piece, crate::specs::Reading::held))]
pub(crate) fn read_weight(row: &Row, state: &State) -> Result<u128, LotteryKind>
    ensures check { Reads result (check_piece (held state.now) row.now)
        (λ w. w ≡ number (field row.now 2)) }
    ensures fits { IfOk result (λ w. weight_sum state.now.pieces + w ≤ state.now.denominator) }
{
    need(row.len() == 3, LotteryKind::WrongLength)?;
    let number = count_in(row.field(1))?;
    need(
        number == state.pieces.len() as u128 + 1,
        LotteryKind::WrongOrder,
    )?;
    let weight = count_in(row.field(2))?;
    need(weight >= 1, LotteryKind::BadNumber)?;
    let sum = state.pieces.weight().checked_add(weight);
    let sum = sum.ok_or(LotteryKind::WeightsDontAdd)?;
    need(sum <= state.denominator, LotteryKind::WeightsDontAdd)?;
    Ok(weight)
}

#[tactic(auto, unfolding(crate::specs::Checks::check_give, crate::specs::Reading::held))]
pub(crate) fn read_give(row: &Row, state: &State) -> Result<Give, LotteryKind>
    ensures { Reads result (check_give (held state.now) row.now)
        (IsGiveIn (held state.now) row.now) }
{
    need(row.len() == 4, LotteryKind::WrongLength)?;
    let agent = place_of(&state.agents, row.field(1))?;
    let object = place_of(&state.columns, row.field(2))?;
    need(
        state.pieces.precedes(agent, object),
        LotteryKind::WrongOrder,
    )?;
    let count = count_in(row.field(3))?;
    need(count >= 1, LotteryKind::BadNumber)?;
    need(count <= 1000, LotteryKind::OverLimit)?;
    Ok(Give {
        agent,
        object,
        count: count as u32,
    })
}

#[tactic(auto, unfolding(crate::specs::Checks::check_end_record, crate::specs::Reading::held))]
pub(crate) fn check_end(row: &Row, state: &State) -> Result<(), LotteryKind>
    ensures { Reads result (check_end_record (held state.now) row.now)
        (λ _. Unit {0}) }
{
    need(row.len() == 2, LotteryKind::WrongLength)?;
    let pieces = count_in(row.field(1))?;
    need(pieces == state.pieces.len() as u128, LotteryKind::BadNumber)?;
    need(
        state.pieces.weight() == state.denominator,
        LotteryKind::WeightsDontAdd,
    )
}

// An entry of a row, after entries with this total.
#[tactic(auto, unfolding(crate::specs::Checks::check_entry))]
pub(crate) fn read_entry(text: &[u8], limit: u128, total: u128) -> Result<u128, LotteryKind>
    ensures check { Reads result (check_entry limit total text.now) (λ n. n ≡ number text.now) }
    ensures fits { IfOk result (λ n. total + n ≤ limit) }
{
    let n = count_in(text)?;
    need(n <= limit, LotteryKind::OverLimit)?;
    let sum = total.checked_add(n).ok_or(LotteryKind::OverLimit)?;
    need(sum <= limit, LotteryKind::OverLimit)?;
    Ok(n)
}
