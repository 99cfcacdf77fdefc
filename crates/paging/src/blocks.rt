// Read block, masked and unmasked write block.
ghost use Rattle.std.specs.Prelude.{◌≡◌, true, ◌+◌, ◌<◌, ◌≤◌, eqb, length, get_or};
ghost use Rattle.layout.specs.Memory.{size, address};
ghost use Rattle.pixel.specs.Registers.{plane_mask};
ghost use Rattle.lists.specs.Update.{update};
ghost use Rattle.bank.specs.Work.{in_slot, back_mask, written_back};
ghost use Rattle.chip.specs.State.{open_page};
ghost use Rattle.chip.specs.Changes.{tag_of};
ghost use Rattle.chip.specs.Effects.{slot_byte};
ghost use Rattle.chip.specs.Answers.{given_back};
ghost use Rattle.block.specs.Block.{IsBlock, pixels_at, decode_control, pixels_in, well_formed_block};
ghost use Rattle.own.specs.Own.{own_given, own_block, own_memory};

use bank::{Bank, Place};
use block::{fields, places};
use chip::operations::Operation;
use chip::{Answer, Call, Refusal};
use own::{done, opened, operands};
use pixel::registers::Register;

// The bank that a call names, and the named block of its open page.
fn named(s: &[u8], x: Call) -> (Bank, Place)
    requires { IsBlock s.now × (x.a < 4) }
    ensures bank { (result.0.pages ≡ (decode_control s.now).pages) × (result.0.number ≡ x.a) }
    ensures place { (result.1.page ≡ open_page (decode_control s.now).banks x.a) × (result.1.block ≡ x.b) }
{
    let bank = Bank {
        pages: fields::pages(s) as usize,
        number: x.a as usize,
    };
    let place = Place {
        page: fields::open_page(s, x.a) as usize,
        block: x.b as usize,
    };
    (bank, place)
}

// The block that a call names, into its slot where the slot lies.
fn load_slot(s: &mut [u8], memory: &[u8], x: Call)
    requires { IsBlock s.old × (length memory.now ≡ size (decode_control s.old).pages) × ((decode_control s.old).pages ≤ 257) × (x.a < 4) × (open_page (decode_control s.old).banks x.a < (decode_control s.old).pages) × (x.b < 40) × (x.c < 8) }
    ensures { s.new ≡ update 32 (λ i. pixels_at + in_slot x.c i) (λ i was. get_or memory.now (address (decode_control s.old).pages x.a (open_page (decode_control s.old).banks x.a) x.b i) 0) s.old }
{
    let (bank, place) = named(s, x);
    bank::load_in(
        memory,
        bank,
        place,
        &mut s[places::PIXELS_AT..places::PIXELS_END],
        x.c as usize,
    );
}

// The slot that a call names, back into its block: 5 under the plane mask, 6 under none.
fn write_slot(s: &[u8], memory: &mut [u8], x: Call)
    requires { IsBlock s.now × (length memory.old ≡ size (decode_control s.now).pages) × ((decode_control s.now).pages ≤ 257) × (x.a < 4) × (open_page (decode_control s.now).banks x.a < (decode_control s.now).pages) × (x.b < 40) × (x.c < 8) }
    ensures { memory.new ≡ written_back (address (decode_control s.now).pages x.a (open_page (decode_control s.now).banks x.a) x.b) (back_mask (eqb x.op 5) (plane_mask (decode_control s.now).registers)) (tag_of (decode_control s.now) x.c) (slot_byte (pixels_in s.now) x.c) memory.old }
{
    let (bank, place) = named(s, x);
    let tag = fields::tag(s, x.c);
    let mask = bits::pick(
        x.op == Operation::MaskedWriteBlock as u32,
        fields::register(s, Register::PlaneMask as u32),
        0xffff_ffff,
    );
    bank::write_back_in(
        memory,
        bank,
        place,
        &s[places::PIXELS_AT..places::PIXELS_END],
        x.c as usize,
        tag,
        mask,
    );
}

pub fn read_block(s: &mut [u8], memory: &[u8], x: Call) -> Answer
    requires { IsBlock s.old × (well_formed_block s.old ≡ true) × (length memory.now ≡ size (decode_control s.old).pages) × (x.op ≡ 4) }
    ensures { (given_back result ≡ own_given s.old x) × (s.new ≡ own_block s.old memory.now x) }
{
    if !operands::fits(x, operands::BLOCK_LINE) {
        return Err(Refusal::OperandOutside);
    }
    opened(s, x.a)?;
    load_slot(s, memory, x);
    fields::put_tag(s, x.c, 0);
    done(s, 0)
}

pub fn write_block(s: &mut [u8], memory: &mut [u8], x: Call) -> Answer
    requires { IsBlock s.old × (well_formed_block s.old ≡ true) × (length memory.old ≡ size (decode_control s.old).pages) × (5 ≤ x.op) × (x.op ≤ 6) }
    ensures { (given_back result ≡ own_given s.old x) × (s.new ≡ own_block s.old memory.old x) × (memory.new ≡ own_memory s.old memory.old x) }
{
    if !operands::fits(x, operands::BLOCK_LINE) {
        return Err(Refusal::OperandOutside);
    }
    opened(s, x.a)?;
    write_slot(s, memory, x);
    let tag = fields::tag(s, x.c);
    done(s, bank::tagged_bytes(tag))
}
