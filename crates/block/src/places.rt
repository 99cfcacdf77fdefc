// Where each part of the block lies: document 01's offsets, and what document 02 adds behind them, written here alone. specs/Block.antt has the same for the definitions.

// The whole length.
pub const BLOCK_BYTES: usize = 512;

// Where the header says it, in its last field.
pub const LENGTH_AT: usize = 14;

pub const BANKS_AT: usize = 16;

pub const REGISTERS_AT: usize = 24;

pub const FLAGS_AT: usize = 52;

pub const COUNTER_AT: usize = FLAGS_AT + WORD_BYTES;

pub const TAGS_AT: usize = 60;

pub const PIXELS_AT: usize = 92;

// Where the pixels end.
pub const PIXELS_END: usize = PIXELS_AT + PIXEL_BYTES;

pub const PIXEL_BYTES: usize = 256;

// The two video buffers, and where they end.
pub const VIDEO_AT: usize = PIXELS_END;

pub const VIDEO_END: usize = VIDEO_AT + VIDEO_BYTES;

pub const VIDEO_BYTES: usize = 160;

pub const BUFFER_BYTES: usize = 80;

// The display's counter, and behind it its select.
pub const SCAN_AT: usize = VIDEO_END;

pub const SELECT_AT: usize = SCAN_AT + HALF_BYTES;

// How many bytes apart numbers of 16 bits, numbers of 32 bits and slots lie.
pub const HALF_BYTES: usize = 2;

pub const WORD_BYTES: usize = 4;

pub const SLOT_BYTES: usize = 32;

// Where a register 0 would lie: they are numbered from 1.
pub const REGISTER_0_AT: usize = REGISTERS_AT - WORD_BYTES;

// The header's eight fields but for P: 8 slots, the offsets, and the whole length.
pub const HEADER: [u16; 8] = [
    0,
    8,
    BANKS_AT as u16,
    REGISTERS_AT as u16,
    FLAGS_AT as u16,
    TAGS_AT as u16,
    PIXELS_AT as u16,
    BLOCK_BYTES as u16,
];

// The offsets again, two fields as one word, as the test of a header reads them.
pub const BANKS_AND_REGISTERS: u32 = (REGISTERS_AT as u32) * 0x1_0000 + (BANKS_AT as u32);

pub const FLAGS_AND_TAGS: u32 = (TAGS_AT as u32) * 0x1_0000 + (FLAGS_AT as u32);

pub const PIXELS_AND_LENGTH: u32 = (BLOCK_BYTES as u32) * 0x1_0000 + (PIXELS_AT as u32);
