// A call on a block and a memory, whole: every input is answered, and a refusal changes no byte.
ghost use Rattle.std.specs.Prelude.{◌≡◌, true, ◌≤◌, length};
ghost use Rattle.layout.specs.Memory.{size};
ghost use Rattle.chip.specs.Answers.{given_back};
ghost use Rattle.block.specs.Block.{IsBlock, decode_control, well_formed_block};
ghost use Rattle.block.specs.OnBlock.{block_given, block_after, block_memory};

use block::{fields, form};
use buffer::{registers, slots, writes};
use chip::operations::Operation;
use chip::{Answer, Call, Refusal};
use layout::memory::FOUR_PAGES_BYTES;
use paging::{blocks, pages};
use video::{clocks, transfers};

// The operation that the call's number names, if any; the stateful writes are told apart before. A match, since there are seventeen operations and no
// more, and each function requires its own number.
fn other(s: &mut [u8], memory: &mut [u8], x: Call) -> Answer
    requires { IsBlock s.old × (well_formed_block s.old ≡ true) × (length memory.old ≡ size (decode_control s.old).pages) × (10 ≤ x.op → 12 ≤ x.op) }
    ensures { (given_back result ≡ block_given s.old memory.old x) × (s.new ≡ block_after s.old memory.old x) × (memory.new ≡ block_memory s.old memory.old x) }
{
    match Operation::try_from(x.op)? {
        Operation::AccessPage => pages::access(s, x),
        Operation::Precharge => pages::precharge(s, x),
        Operation::DuplicatePage => pages::duplicate(s, memory, x),
        Operation::ReadBlock => blocks::read_block(s, memory, x),
        Operation::MaskedWriteBlock | Operation::UnmaskedWriteBlock => {
            blocks::write_block(s, memory, x)
        }
        Operation::DataRead => slots::data_read(s, x),
        Operation::StatelessInitialWrite | Operation::StatelessNormalWrite => {
            writes::stateless_write(s, x)
        }
        Operation::StatefulInitialWrite | Operation::StatefulNormalWrite => unreachable!(),
        Operation::ReplaceTag | Operation::OrTag => slots::write_tag(s, x),
        Operation::WriteRegister => registers::write_register(s, x),
        Operation::ReadRegister => registers::read_register(s, x),
        Operation::VideoTransfer => transfers::video_transfer(s, memory, x),
        Operation::VideoClock => clocks::video_clock(s, x),
    }
}

// Stateful writes are most of a drawing, so they are told apart first.
fn operate(s: &mut [u8], memory: &mut [u8], x: Call) -> Answer
    requires { IsBlock s.old × (well_formed_block s.old ≡ true) × (length memory.old ≡ size (decode_control s.old).pages) }
    ensures { (given_back result ≡ block_given s.old memory.old x) × (s.new ≡ block_after s.old memory.old x) × (memory.new ≡ block_memory s.old memory.old x) }
{
    let is_initial = x.op == Operation::StatefulInitialWrite as u32;
    if is_initial | (x.op == Operation::StatefulNormalWrite as u32) {
        return writes::stateful_write(s, x);
    }
    other(s, memory, x)
}

pub fn act(s: &mut [u8], memory: &mut [u8], x: Call) -> Answer
    ensures { (given_back result ≡ block_given s.old memory.old x) × (s.new ≡ block_after s.old memory.old x) × (memory.new ≡ block_memory s.old memory.old x) }
{
    if !form::well_formed(s) {
        return Err(Refusal::IllFormed);
    }
    if memory.len() != FOUR_PAGES_BYTES * (fields::pages(s) as usize) {
        return Err(Refusal::MemoryLength);
    }
    operate(s, memory, x)
}
