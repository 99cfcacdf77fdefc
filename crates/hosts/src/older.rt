// A block of an older form, grown to the newest. The definitions are specs/Grown.antt.
ghost use Rattle.std.specs.Prelude.{◌≡◌, ◌&&◌, eqb, length};
ghost use Rattle.lists.specs.Words.{half_at};
ghost use Rattle.block.specs.Block.{block_bytes};
ghost use Rattle.hosts.specs.Grown.{length_at, grown, says_length};

use block::places;
use lists::LittleEndian;

// Document 01's block ends where the video buffers start.
const BASE_BYTES: usize = places::VIDEO_AT;

// Whether a block says its own length, and this is one that blocks have or once had.
pub fn says_its_length(state: &[u8]) -> bool
    ensures { result ≡ (says_length state.now && eqb (length (grown state.now)) block_bytes) }
{
    let length = state.len();
    if !((length == places::BLOCK_BYTES) | (length == BASE_BYTES)) {
        return false;
    }
    u16::get(state, places::LENGTH_AT) as usize == length
}

// The block in the newest form: what an older one lacks is 0, and its header says the newest length.
pub fn grown(state: &[u8]) -> [u8; places::BLOCK_BYTES]
    requires { (half_at state.now length_at ≡ length state.now) × (length (grown state.now) ≡ block_bytes) }
    ensures { result ≡ grown state.now }
{
    let mut s = [0; places::BLOCK_BYTES];
    stored::put_bytes(&mut s, 0, state);
    (places::BLOCK_BYTES as u16).put(&mut s, places::LENGTH_AT);
    s
}
