// Which blocks are well formed. Each test has a branch of its own, since nearly every call passes all of them.
ghost use Rattle.std.specs.Prelude.{◌≡◌};
ghost use Rattle.lists.specs.Words.{half_at, halves_at};
ghost use Rattle.block.specs.Block.{IsBlock, header, same, decode_control, well_formed_block};

use super::{fields, places};
use chip::form::State;
use lists::LittleEndian;

// A block where it lies, as the state that it stores.
#[derive(Drop)]
struct Stored<'a> {
    block: &'a [u8],
    ghost sized: { IsBlock block.now },
}

impl State for Stored<'_> {
    ghost control = { λ it. decode_control it.block.now };

    fn pages(&self) -> u16 {
        fields::pages(self.block)
    }

    fn open_page(&self, bank: u32) -> u16 {
        fields::open_page(self.block, bank)
    }

    fn register(&self, number: u32) -> u32 {
        fields::register(self.block, number)
    }

    #[tactic(auto, unfolding(crate::specs::Block::decode_control))]
    fn counter(&self) -> u16 {
        u16::get(self.block, places::SCAN_AT)
    }

    #[tactic(auto, unfolding(crate::specs::Block::decode_control))]
    fn select(&self) -> u16 {
        u16::get(self.block, places::SELECT_AT)
    }
}

// Whether the header's fields but P are document 01's: 8 slots, then the offsets and the length, two fields as one word.
fn header_fits(s: &[u8]) -> bool
    requires { IsBlock s.now }
    ensures { result ≡ same (halves_at 8 s.now 0) (header (half_at s.now 0)) }
{
    if u16::get(s, 2) != 8 {
        return false;
    }
    if u32::get(s, 4) != places::BANKS_AND_REGISTERS {
        return false;
    }
    if u32::get(s, 8) != places::FLAGS_AND_TAGS {
        return false;
    }
    u32::get(s, 12) == places::PIXELS_AND_LENGTH
}

pub fn well_formed(s: &[u8]) -> bool
    ensures { result ≡ well_formed_block s.now }
{
    if s.len() != places::BLOCK_BYTES {
        return false;
    }
    if !header_fits(s) {
        return false;
    }
    if !chip::form::is_well_formed(&Stored { block: s }) {
        return false;
    }
    bits::within(u32::get(s, places::FLAGS_AT), 3)
}
