// The door for C callers: numbers and byte buffers in, one 64-bit number out. include/panel.h declares these functions.
#![tactic(auto)]

ghost use Rattle.std.specs.Prelude.{◌≡◌, ◌<◌, length};
ghost use Rattle.bits.specs.Bits.{digit};
ghost use Rattle.numbers.specs.Refusals.{refusal_number};
ghost use Rattle.columns.specs.Columns.{columns_left};
ghost use Rattle.chip.specs.Answers.{done_with, numbered, valued, packed};
ghost use Rattle.chip.specs.Operations.{ask};
ghost use Rattle.block.specs.OnBlock.{call_number, block_after, block_memory, fresh_block};
ghost use Rattle.panel.specs.Packs.{fresh_packed, line_offset, point_value, point_packed, column_packed, columns_packed};

use chip::{Call, Done, Refusal};
use layout::{Point, ScanLine};

// Value in bits 31:0, pass in 32, written in 33. By cases: an operation without flags then packs none.
fn pack_done(value: u32, pass: bool, written: bool) -> u64
    ensures { result ≡ packed (done_with value (digit pass) (digit written)) }
{
    let low = value as u64;
    if pass {
        if written {
            return low + 0x3_0000_0000;
        }
        return low + 0x1_0000_0000;
    }
    if written {
        return low + 0x2_0000_0000;
    }
    low
}

// A value, and a number in bits 47:40.
fn pack(value: u32, number: u32) -> u64
    requires { number < 256 }
    ensures { result ≡ packed (valued number value) }
{
    (value as u64) + (number as u64) * 0x100_0000_0000
}

// A refusal, which has value 0.
fn refused(refusal: Refusal) -> u64
    ensures { result ≡ packed (numbered (refusal_number refusal)) }
{
    pack(0, refusal.into())
}

// A call of the chip.
#[unsafe(no_mangle)]
pub extern "C" fn panel_call(
    state: &mut [u8],
    memory: &mut [u8],
    op: u32,
    a: u32,
    b: u32,
    c: u32,
    d: u32,
    data: u32,
) -> u64
    ensures { (result ≡ call_number state.old memory.old (ask op a b c d «data»)) × (state.new ≡ block_after state.old memory.old (ask op a b c d «data»)) × (memory.new ≡ block_memory state.old memory.old (ask op a b c d «data»)) }
{
    let answer = calls::acts::act(
        state,
        memory,
        Call {
            op,
            a,
            b,
            c,
            d,
            given: data,
        },
    );
    let Ok(
        Done {
            value,
            pass,
            written,
        },
    ) = answer
    else {
        return pack(0, chip::answers::number(answer));
    };
    pack_done(value, pass, written)
}

// A fresh chip of P pages to a bank, whatever the block held.
#[unsafe(no_mangle)]
pub extern "C" fn panel_fresh(state: &mut [u8], pages: u32) -> u64
    ensures { (result ≡ fresh_packed state.old pages) × (state.new ≡ fresh_block state.old pages) }
{
    if state.len() != block::places::BLOCK_BYTES {
        return refused(Refusal::IllFormed);
    }
    if !layout::memory::pages_fit(pages) {
        return refused(Refusal::OperandOutside);
    }
    stored::store(state, chip::fresh::fresh(pages as u16));
    pack(0, 0)
}

// Where a scan line's 80 bytes start in memory: C has no part of a slice, so its offset stands for it.
#[unsafe(no_mangle)]
pub extern "C" fn panel_scan_line(
    state: &[u8],
    memory: &[u8],
    bank: u32,
    page: u32,
    line: u32,
) -> u64
    ensures { result ≡ line_offset state.now memory.now bank page line }
{
    if !block::form::well_formed(state) {
        return refused(Refusal::IllFormed);
    }
    let pages = block::fields::pages(state) as u32;
    match layout::memory::find_line(memory.len(), pages, ScanLine { bank, page, line }) {
        Ok(start) => pack(start as u32, 0),
        Err(no_line) => refused(no_line),
    }
}

// Bank, page, line and column in one value.
fn point_value(p: Point) -> u32
    requires { (p.bank < 4) × (p.page < 256) × (p.line < 16) × (p.column < 80) }
    ensures { result ≡ point_value p }
{
    p.bank * 0x1000_0000 + p.page * 0x1_0000 + p.line * 0x100 + p.column
}

// A screen point.
#[unsafe(no_mangle)]
pub extern "C" fn panel_point(pages: u32, x: u32, y: u32) -> u64
    ensures { result ≡ point_packed pages x y }
{
    match layout::screen::point(pages, x, y) {
        Ok(point) => pack(point_value(point), 0),
        Err(no_point) => refused(no_point),
    }
}

// An entry of the column table.
#[unsafe(no_mangle)]
pub extern "C" fn panel_column(x: u32) -> u64
    ensures { result ≡ column_packed x }
{
    match columns::entries::column(x) {
        Ok(entry) => pack(entry as u32, 0),
        Err(no_column) => refused(no_column),
    }
}

// The whole column table, 1,280 entries of 16 bits, into the caller's 2,560 bytes.
#[unsafe(no_mangle)]
pub extern "C" fn panel_columns(table: &mut [u8]) -> u64
    ensures { (result ≡ columns_packed (length table.old)) × (table.new ≡ columns_left table.old) }
{
    match columns::entries::fill(table) {
        Ok(()) => pack(0, 0),
        Err(not_filled) => refused(not_filled),
    }
}
