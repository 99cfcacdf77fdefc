// The column table, read: an entry, or all of it. The definitions are specs/Columns.antt.
ghost use Rattle.std.specs.Prelude.{◌≡◌, length};
ghost use Rattle.columns.specs.Columns.{column_given, found_given, columns_number, columns_left, filled_number};

use super::table;
use layout::screen::WIDTH;
use numbers::Refusal;

const TABLE_BYTES: usize = 2560;

// The table's entry for x. It costs a copy of the table, as every index into a constant array does: who asks often fills a buffer once.
pub fn column(x: u32) -> Result<u16, Refusal>
    ensures { found_given result ≡ column_given x }
{
    if x >= WIDTH {
        return Err(Refusal::OffScreen);
    }
    let entries = table::columns();
    Ok(entries[x as usize])
}

// Fills a buffer of 2,560 bytes with the table, 16 bits an entry, the lower byte first. A buffer of another length stays as it is.
// The table is copied once, before the loop.
pub fn fill(buffer: &mut [u8]) -> Result<(), Refusal>
    ensures { (filled_number result ≡ columns_number (length buffer.old)) × (buffer.new ≡ columns_left buffer.old) }
{
    if buffer.len() != TABLE_BYTES {
        return Err(Refusal::OperandOutside);
    }
    let entries = table::columns();
    for (x, entry) in entries.iter().enumerate() {
        [buffer[2 * x], buffer[2 * x + 1]] = entry.to_le_bytes();
    }
    Ok(())
}
