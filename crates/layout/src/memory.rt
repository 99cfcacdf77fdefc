// The lent memory: its pages, and the blocks and scan lines of a page. The definitions are specs/Memory.antt.
ghost use Rattle.std.specs.Prelude.{◌≡◌, ◌+◌, ◌<◌, ◌≤◌, length};
ghost use Rattle.layout.specs.Memory.{pages_fit, size, in_page, line_start, placed_given, line_placed, line_given};

use super::ScanLine;
use numbers::Refusal;

pub const LINE_BYTES: usize = 80;

pub const PAGE_BYTES: usize = 1280;

// One page of each of the four banks.
pub const FOUR_PAGES_BYTES: usize = 4 * PAGE_BYTES;

// Whether a bank may have so many pages.
pub fn pages_fit(pages: u32) -> bool
    ensures { result ≡ pages_fit pages }
{
    (1 <= pages) & (pages <= 257)
}

// Where byte i of a block lies in its page.
pub fn in_page(block: usize, i: usize) -> usize
    requires { (block < 40) × (i < 32) }
    ensures { (result ≡ in_page block i) × (result < 1280) }
{
    (block % 4 * 4 + i / 8) * LINE_BYTES + (block / 4 * 8 + i % 8)
}

// Where the 80 bytes of a scan line start in memory.
pub fn line_start(pages: u32, named: ScanLine) -> usize
    requires { (pages ≤ 257) × (named.bank < 4) × (named.page < pages) × (named.line < 16) }
    ensures { (result ≡ line_start pages named.bank named.page named.line) × (result + 80 ≤ size pages) }
{
    let bank_start = named.bank as usize * (pages as usize * PAGE_BYTES);
    bank_start + (named.page as usize * PAGE_BYTES + named.line as usize * LINE_BYTES)
}

// The same of any scan line and a memory of this length, where P fits: where it starts, or why there is none.
pub fn find_line(length: usize, pages: u32, named: ScanLine) -> Result<usize, Refusal>
    requires { (1 ≤ pages) × (pages ≤ 257) }
    ensures { placed_given result ≡ line_placed pages length named.bank named.page named.line }
{
    if length != 4 * (pages as usize * PAGE_BYTES) {
        return Err(Refusal::MemoryLength);
    }
    if !((named.bank < 4) & (named.page < pages) & (named.line < 16)) {
        return Err(Refusal::OperandOutside);
    }
    Ok(line_start(pages, named))
}

// A scan line: that part of memory, not copied, or a part of length 0 where there is none.
pub fn scan_line(memory: &[u8], pages: u32, named: ScanLine) -> &[u8]
    requires { (1 ≤ pages) × (pages ≤ 257) }
    ensures { result.now ≡ line_given pages named.bank named.page named.line memory.now }
{
    let Ok(start) = find_line(memory.len(), pages, named) else {
        return &memory[0..0];
    };
    &memory[start..start + LINE_BYTES]
}
