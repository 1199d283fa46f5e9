// The fields of a fault in its line, each after a blank: one writer for each family of checks.
ghost use Rattle.alloc_cli.specs.Lines.{fields_text};
ghost use Rattle.alloc_cli.specs.Parts.{Writes};
ghost use Rattle.cert_check.specs.Faults.{fault_fields, piece_fields, price_fields};

use crate::parts::Part::{I64, U32, U64, U128};
use crate::parts::write_spaced;
use cert_check::Fault;
use device_core::{Sink, SinkFault};

// Those of a fault of pieces, and none of another.
fn write_piece_fields<E: Sink>(fault: Fault, err: &mut E) -> Result<(), SinkFault>
    ensures { Writes E.Sink (fields_text (piece_fields fault)) err.old err.new result }
{
    match fault {
        Fault::TooManyPieces { pieces, bound } => write_spaced(&[U64(pieces), U64(bound)], err),
        Fault::CellNotRounded {
            piece,
            agent,
            column,
            count,
        } => write_spaced(&[U64(piece), U32(agent), U32(column), U32(count)], err),
        Fault::SetNotRounded { piece, set, sum } => write_spaced(
            &[U64(piece), U32(set), U64(sum)],
            err,
        ),
        Fault::SamePieces { first, second } => write_spaced(&[U64(first), U64(second)], err),
        Fault::CellNotMet {
            agent,
            column,
            given,
            due,
        } => write_spaced(&[U32(agent), U32(column), U128(given), U128(due)], err),
        _ => Ok(()),
    }
}

// Those of a fault of shares, sets and prices, or of pieces.
fn write_price_fields<E: Sink>(fault: Fault, err: &mut E) -> Result<(), SinkFault>
    ensures { Writes E.Sink (fields_text (price_fields fault)) err.old err.new result }
{
    match fault {
        Fault::RowSum { agent, sum } => write_spaced(&[U32(agent), U128(sum)], err),
        Fault::OffList {
            agent,
            column,
            units,
        }
        | Fault::OverCap {
            agent,
            column,
            units,
        } => write_spaced(&[U32(agent), U32(column), U128(units)], err),
        Fault::OverCeiling { set, sum } => write_spaced(&[U32(set), U128(sum)], err),
        Fault::WorthNotFalling {
            agent,
            place,
            worth,
            next,
        } => write_spaced(&[U32(agent), U32(place), I64(worth), I64(next)], err),
        Fault::PriceNotFull { set, price, sum } => write_spaced(
            &[U32(set), U64(price), U128(sum)],
            err,
        ),
        Fault::NotBest {
            agent,
            place,
            gain,
            other,
            better,
        } => write_spaced(
            &[U32(agent), U32(place), I64(gain), U32(other), I64(better)],
            err,
        ),
        _ => write_piece_fields(fault, err),
    }
}

/// Writes the fields of a fault in order, each after a blank. A refusal ends it there.
pub fn write_fields<E: Sink>(fault: Fault, err: &mut E) -> Result<(), SinkFault>
    ensures { Writes E.Sink (fields_text (fault_fields fault)) err.old err.new result }
{
    match fault {
        Fault::AgentsDiffer { place } | Fault::ColumnsDiffer { place } => {
            write_spaced(&[U32(place)], err)
        }
        Fault::SetsDiffer { due, found } => write_spaced(&[U32(due), U32(found)], err),
        Fault::ListDiffers { agent, place } => write_spaced(&[U32(agent), U32(place)], err),
        Fault::DenominatorDiffers { due, found } => write_spaced(&[U128(due), U128(found)], err),
        Fault::EntryDiffers {
            agent,
            column,
            due,
            found,
        } => write_spaced(&[U32(agent), U32(column), U128(due), U128(found)], err),
        _ => write_price_fields(fault, err),
    }
}
