// Records that are put into a buffer, which is written whenever it is long enough. What a record
// says isn't known here.
ghost use Rattle.std.specs.Prelude.{◌<◌, ◌≡◌, ◌∷◌, [], ℕ, List, length, IfOk};
ghost use Rattle.std.specs.Result.{ForOk};
ghost use Rattle.table_text.specs.Rows.{rows_text};
ghost use Rattle.lottery_file.specs.Buffers.{Puts};

use device_core::{Sink, SinkFault};
use table_text::{NoMemory, Row, row_bytes};

// How many bytes may wait.
const BLOCK: usize = 65_536;

// Writes what waits.
fn write_block<K: Sink>(buffer: &mut Vec<u8>, out: &mut K) -> Result<(), SinkFault>
    ensures { Puts K.written K.flushed K.faults K.short out.old out.new
        buffer.old.items buffer.new.items
        [] result }
{
    out.write(buffer)?;
    buffer.clear();
    Ok(())
}

// Puts a record.
fn put_row<K: Sink>(row: &Row, buffer: &mut Vec<u8>, out: &mut K) -> Result<(), SinkFault>
    requires { 0 < length row.now }
    ensures { Puts K.written K.flushed K.faults K.short out.old out.new
        buffer.old.items buffer.new.items
        (rows_text (row.now ∷ [])) result }
{
    row_bytes(row, buffer).map_err(|_| SinkFault::NoMemory)?;
    if buffer.len() <= BLOCK {
        return Ok(());
    }
    write_block(buffer, out)
}

// Puts a record, where there was memory to make it.
pub(crate) fn put_made<K: Sink>(
    made: Result<Row, NoMemory>,
    buffer: &mut Vec<u8>,
    out: &mut K,
) -> Result<(), SinkFault>
    requires { ForOk made (λ row. 0 < length row) }
    ensures { (row : List (List ℕ)) → IfOk made (λ r. r ≡ row) →
        Puts K.written K.flushed K.faults K.short out.old out.new
        buffer.old.items buffer.new.items
        (rows_text (row ∷ [])) result }
{
    let row = made.map_err(|_| SinkFault::NoMemory)?;
    put_row(&row, buffer, out)
}
