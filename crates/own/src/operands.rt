// Which operands a call may have: the documents' ranges, and 0 for what its line does not list.
ghost use Rattle.std.specs.Prelude.{◌≡◌};
ghost use Rattle.own.specs.Lines.{fits, page_line};

use chip::Call;
use std::ops::Range;

// What a call's line in the documents' tables lists: the range of each operand, and whether data is given.
#[derive(Drop)]
pub struct Line {
    pub a: Range<u32>,
    pub b: Range<u32>,
    pub c: Range<u32>,
    pub d: Range<u32>,
    pub given: bool,
}

const BANK: Range<u32> = 0..4;

const BLOCK: Range<u32> = 0..40;

const SLOT: Range<u32> = 0..8;

const WORD: Range<u32> = 0..8;

const ENABLES: Range<u32> = 0..16;

const PASS_IN: Range<u32> = 0..4;

const NUMBER: Range<u32> = 1..8;

const SCAN_LINE: Range<u32> = 0..16;

// A line that lists nothing: an operand that is not listed has 0 alone in its range.
const NOTHING: Line = Line {
    a: 0..1,
    b: 0..1,
    c: 0..1,
    d: 0..1,
    given: false,
};

// 1 and 3: bank, page.
pub fn page_line(pages: u16) -> Line
    ensures { result ≡ page_line pages }
{
    Line {
        a: BANK,
        b: 0..pages as u32,
        ..NOTHING
    }
}

// 2: bank.
pub const PRECHARGE: Line = Line { a: BANK, ..NOTHING };

// 4 to 6: bank, block, slot.
pub const BLOCK_LINE: Line = Line {
    a: BANK,
    b: BLOCK,
    c: SLOT,
    ..NOTHING
};

// 7: slot, word.
pub const DATA_READ: Line = Line {
    a: SLOT,
    b: WORD,
    ..NOTHING
};

// 8 to 11: slot, word, byte enables, pass-in, data.
pub const DATA_WRITE: Line = Line {
    a: SLOT,
    b: WORD,
    c: ENABLES,
    d: PASS_IN,
    given: true,
};

// 12 and 13: slot, data.
pub const WRITE_TAG: Line = Line {
    a: SLOT,
    given: true,
    ..NOTHING
};

// 14: register number, data.
pub const WRITE_REGISTER: Line = Line {
    a: NUMBER,
    given: true,
    ..NOTHING
};

// 15: register number.
pub const READ_REGISTER: Line = Line {
    a: NUMBER,
    ..NOTHING
};

// 16: bank, line.
pub const VIDEO_TRANSFER: Line = Line {
    a: BANK,
    b: SCAN_LINE,
    ..NOTHING
};

// 17: none.
pub const VIDEO_CLOCK: Line = NOTHING;

// Whether each operand is in its range, and data that is not listed 0. No branch: all are tested at once.
pub fn fits(x: Call, line: Line) -> bool
    ensures { result ≡ fits line x }
{
    line.a.contains(&x.a)
        & line.b.contains(&x.b)
        & line.c.contains(&x.c)
        & line.d.contains(&x.d)
        & (line.given | (x.given == 0))
}
