// One field of a state block, read or put where it lies: each function is a line over the generic `get` and `put`, and asks that the block has its
// length (`IsBlock`), since a type for that would ask callers for more than a slice. Picking and hit are read by a function each: one that is told
// which would be no plainer.
#![tactic(auto, unfolding(crate::specs::Block::decode_control, crate::specs::Block::put_tag, crate::specs::Block::ticked_in))]

ghost use Rattle.std.specs.Prelude.{◌≡◌, ◌+◌, ◌*◌, ◌<◌, ◌≤◌};
ghost use Rattle.bits.specs.Bits.{digit, word_in};
ghost use Rattle.pixel.specs.Registers.{register};
ghost use Rattle.lists.specs.Words.{put_half, put_word};
ghost use Rattle.bank.specs.Work.{in_slot};
ghost use Rattle.chip.specs.Video.{video_byte, put_out};
ghost use Rattle.chip.specs.State.{open_page};
ghost use Rattle.chip.specs.Changes.{tag_of};
ghost use Rattle.chip.specs.Effects.{slot_byte};
ghost use Rattle.block.specs.Block.{IsBlock, page_at, register_at, flags_at, pixels_at, scan_at, select_at, decode_control, pixels_in, video_in, put_tag, ticked_in};

use super::places::{
    BANKS_AT, BUFFER_BYTES, COUNTER_AT, FLAGS_AT, HALF_BYTES, PIXELS_AT, REGISTER_0_AT,
    REGISTERS_AT, SCAN_AT, SELECT_AT, SLOT_BYTES, TAGS_AT, VIDEO_AT, WORD_BYTES,
};
use chip::Scan;
use lists::{LittleEndian, numbers_at};

// P, the pages to a bank.
pub fn pages(s: &[u8]) -> u16
    requires { IsBlock s.now }
    ensures { result ≡ (decode_control s.now).pages }
{
    u16::get(s, 0)
}

// The page that is open in a bank; 65535 where it is closed.
pub fn open_page(s: &[u8], bank: u32) -> u16
    requires { IsBlock s.now × (bank < 4) }
    ensures { result ≡ open_page (decode_control s.now).banks bank }
{
    u16::get(s, BANKS_AT + HALF_BYTES * (bank as usize))
}

pub fn put_page(s: &mut [u8], bank: u32, page: u16)
    requires { IsBlock s.old × (bank < 4) }
    ensures { s.new ≡ put_half (page_at bank) page s.old }
{
    page.put(s, BANKS_AT + HALF_BYTES * (bank as usize));
}

// A register, by its number 1 to 7.
pub fn register(s: &[u8], number: u32) -> u32
    requires { IsBlock s.now × (1 ≤ number) × (number ≤ 7) }
    ensures { result ≡ register (decode_control s.now).registers number }
{
    u32::get(s, REGISTER_0_AT + WORD_BYTES * (number as usize))
}

pub fn put_register(s: &mut [u8], number: u32, value: u32)
    requires { IsBlock s.old × (1 ≤ number) × (number ≤ 7) }
    ensures { s.new ≡ put_word (register_at number) value s.old }
{
    value.put(s, REGISTER_0_AT + WORD_BYTES * (number as usize));
}

// All seven, in their order.
pub fn registers(s: &[u8]) -> [u32; 7]
    requires { IsBlock s.now }
    ensures { result ≡ (decode_control s.now).registers }
{
    numbers_at(s, REGISTERS_AT)
}

pub fn picking(s: &[u8]) -> bool
    requires { IsBlock s.now }
    ensures { result ≡ (decode_control s.now).picking }
{
    bits::bit_of(u32::get(s, FLAGS_AT), 0)
}

pub fn hit(s: &[u8]) -> bool
    requires { IsBlock s.now }
    ensures { result ≡ (decode_control s.now).hit }
{
    bits::bit_of(u32::get(s, FLAGS_AT), 1)
}

// Picking and hit as the flags' bits 0 and 1.
pub fn flags(picking: bool, hit: bool) -> u32
    ensures { result ≡ digit picking + digit hit * 2 }
{
    bits::digit_of(picking) + bits::digit_of(hit) * 2
}

pub fn put_flags(s: &mut [u8], picking: bool, hit: bool)
    requires { IsBlock s.old }
    ensures { s.new ≡ put_word flags_at (digit picking + digit hit * 2) s.old }
{
    flags(picking, hit).put(s, FLAGS_AT);
}

// One call more. The counter wraps: after FFFFFFFFh comes 0.
pub fn tick(s: &mut [u8])
    requires { IsBlock s.old }
    ensures { s.new ≡ ticked_in s.old }
{
    let before = u32::get(s, COUNTER_AT);
    before.wrapping_add(1).put(s, COUNTER_AT);
}

pub fn tag(s: &[u8], slot: u32) -> u32
    requires { IsBlock s.now × (slot < 8) }
    ensures { result ≡ tag_of (decode_control s.now) slot }
{
    u32::get(s, TAGS_AT + WORD_BYTES * (slot as usize))
}

pub fn put_tag(s: &mut [u8], slot: u32, tag: u32)
    requires { IsBlock s.old × (slot < 8) }
    ensures { s.new ≡ put_tag slot tag s.old }
{
    tag.put(s, TAGS_AT + WORD_BYTES * (slot as usize));
}

// A word of a slot.
pub fn slot_word(s: &[u8], slot: u32, word: u32) -> u32
    requires { IsBlock s.now × (slot < 8) × (word < 8) }
    ensures { result ≡ word_in (slot_byte (pixels_in s.now) slot) word }
{
    u32::get(
        s,
        PIXELS_AT + (SLOT_BYTES * (slot as usize) + WORD_BYTES * (word as usize)),
    )
}

pub fn put_slot_word(s: &mut [u8], slot: u32, word: u32, x: u32)
    requires { IsBlock s.old × (slot < 8) × (word < 8) }
    ensures { s.new ≡ put_word (pixels_at + in_slot slot (4 * word)) x s.old }
{
    x.put(
        s,
        PIXELS_AT + (SLOT_BYTES * (slot as usize) + WORD_BYTES * (word as usize)),
    );
}

// The display's counter and select.
pub fn scan(s: &[u8]) -> Scan
    requires { IsBlock s.now }
    ensures { result ≡ (decode_control s.now).scan }
{
    Scan {
        counter: u16::get(s, SCAN_AT),
        select: u16::get(s, SELECT_AT),
    }
}

pub fn put_scan_counter(s: &mut [u8], counter: u16)
    requires { IsBlock s.old }
    ensures { s.new ≡ put_half scan_at counter s.old }
{
    counter.put(s, SCAN_AT);
}

pub fn put_scan_select(s: &mut [u8], select: u16)
    requires { IsBlock s.old }
    ensures { s.new ≡ put_half select_at select s.old }
{
    select.put(s, SELECT_AT);
}

// The two bytes of the selected video buffer that a video clock puts out.
pub fn put_out(s: &[u8], scan: Scan) -> u16
    requires { IsBlock s.now × (scan.counter ≤ 39) × (scan.select ≤ 1) }
    ensures { result ≡ put_out scan (video_byte (video_in s.now)) }
{
    u16::get(
        s,
        VIDEO_AT + (BUFFER_BYTES * (scan.select as usize) + HALF_BYTES * (scan.counter as usize)),
    )
}
