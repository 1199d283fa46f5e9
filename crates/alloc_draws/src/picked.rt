// The text of a ticket and of its piece, as each command that draws writes it.
ghost use Rattle.std.specs.Prelude.{◌≡◌, ◌<◌, ◌++◌, map, IfOk, OnOk};
ghost use Rattle.alloc_draws.specs.Picked.{picked_text, ticket_rows};
ghost use Rattle.definitions.specs.Values.{piece_value};
ghost use Rattle.lottery_file.specs.Lotteries.{lottery_value, IsLawfulLottery};
ghost use Rattle.lottery_file.specs.Written.{give_row};
ghost use Rattle.table_text.specs.Rows.{rows_text};

use lottery_file::{Lottery, row_of_give};
use quota_sets::{Give, Names, Piece};
use seed_draw::piece_in;
use std::alloc::Global;
use table_text::{NoMemory, put_end, put_two, row_bytes};

// Appends the records of gives.
fn put_gives(
    alloc: Global,
    agents: &Names,
    columns: &Names,
    gives: &[Give],
    into: &mut Vec<u8>,
) -> Result<(), NoMemory>
    ensures { OnOk result (into.new.items
        ≡ into.old.items ++ rows_text (map (give_row agents.now columns.now) gives.now)) }
{
    for give in gives {
        let row = row_of_give(alloc, agents, columns, *give)?;
        row_bytes(&row, into)?;
    }
    Ok(())
}

// Appends the records of a ticket and of its piece, which has this number.
fn put_ticket(
    alloc: Global,
    lottery: &Lottery,
    ticket: u128,
    piece_no: u128,
    piece: &Piece,
    into: &mut Vec<u8>,
) -> Result<(), NoMemory>
    ensures { OnOk result (into.new.items ≡ into.old.items ++ rows_text
        (ticket_rows (lottery_value lottery.now) ticket piece_no (piece_value piece.now))) }
{
    put_two(alloc, b"ticket", ticket, lottery.shares.denominator(), into)?;
    put_two(alloc, b"piece", piece_no, piece.weight, into)?;
    put_gives(alloc, &lottery.agents, &lottery.columns, &piece.gives, into)?;
    put_end(alloc, piece.gives.len() as u128, into)?;
    Ok(())
}

/// The text of the piece that a ticket names.
pub fn picked_text(alloc: Global, lottery: &Lottery, ticket: u128) -> Result<Vec<u8>, NoMemory>
    requires lawful { IsLawfulLottery (lottery_value lottery.now) }
    requires within { ticket < lottery.now.shares.denominator }
    ensures { IfOk result (λ text. text.items ≡ picked_text (lottery_value lottery.now) ticket) }
{
    let place = piece_in(&lottery.pieces.list, ticket);
    let piece = &lottery.pieces.list[place];
    let mut text = Vec::new(alloc);
    put_ticket(alloc, lottery, ticket, place as u128 + 1, piece, &mut text)?;
    Ok(text)
}
