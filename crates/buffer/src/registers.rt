// Write and read register.
ghost use Rattle.std.specs.Prelude.{◌≡◌, true, List, ℕ, ◌+◌, ◌-◌, ◌*◌, ◌/◌, ◌%◌, ◌^◌, ◌<◌, ◌≤◌, get_or};
ghost use Rattle.bits.specs.Bits.{digit};
ghost use Rattle.lists.specs.Words.{put_word};
ghost use Rattle.chip.specs.State.{writable};
ghost use Rattle.chip.specs.Changes.{switched};
ghost use Rattle.chip.specs.Answers.{given_back};
ghost use Rattle.block.specs.Block.{IsBlock, register_at, flags_at, decode_control, well_formed_block};
ghost use Rattle.own.specs.Own.{own_given, own_block};

use block::fields;
use chip::{Answer, Call, Refusal};
use own::{done, operands};
use pixel::registers::Register;

// The bits that may be 1 in a write of the register with this number. No table: an array that is indexed is copied at each use.
fn writable_bits(number: u32) -> u32
    requires { (1 ≤ number) × (number ≤ 7) }
    ensures { result ≡ get_or writable (number - 1) 0 }
{
    if number < Register::RopControl as u32 {
        return 0xffff_ffff;
    }
    if number == Register::RopControl as u32 {
        return 0x2f2f_2f2f;
    }
    if number == Register::CompareControl as u32 {
        return 0x0f03_0707;
    }
    1
}

// Two action bits from here on have a leading 1, and act.
const ACTING: u32 = 2;

// A flag after two action bits: 10 turns it off, 11 on, and a leading 0 changes nothing.
fn switched_by(two: u32, was: bool) -> bool
    requires { two < 4 }
    ensures { result ≡ switched two was }
{
    if two < ACTING { was } else { two == 3 }
}

// Compare control: bits 27 to 24 act on picking and hit, and are stored as 0.
fn put_compare(s: &mut [u8], value: u32)
    requires { IsBlock s.old }
    ensures { s.new ≡ put_word flags_at (digit (switched (value / 2 ^ 26 % 4) (decode_control s.old).picking) + digit (switched (value / 2 ^ 24 % 4) (decode_control s.old).hit) * 2) (put_word (register_at 6) (value % 2 ^ 24) s.old) }
{
    let picking = switched_by(value / 0x400_0000 % 4, fields::picking(s));
    let hit = switched_by(value / 0x100_0000 % 4, fields::hit(s));
    fields::put_register(s, Register::CompareControl as u32, value % 0x100_0000);
    fields::put_flags(s, picking, hit);
}

pub fn write_register(s: &mut [u8], x: Call) -> Answer
    requires { IsBlock s.old × (well_formed_block s.old ≡ true) × (x.op ≡ 14) }
    ensures { (given_back result ≡ own_given s.old x) × ((memory : List ℕ) → s.new ≡ own_block s.old memory x) }
{
    if !operands::fits(x, operands::WRITE_REGISTER) {
        return Err(Refusal::OperandOutside);
    }
    if !bits::within(x.given, writable_bits(x.a)) {
        return Err(Refusal::BitNotAllowed);
    }
    if x.a == Register::CompareControl as u32 {
        put_compare(s, x.given);
        return done(s, 0);
    }
    fields::put_register(s, x.a, x.given);
    done(s, 0)
}

pub fn read_register(s: &mut [u8], x: Call) -> Answer
    requires { IsBlock s.old × (well_formed_block s.old ≡ true) × (x.op ≡ 15) }
    ensures { (given_back result ≡ own_given s.old x) × ((memory : List ℕ) → s.new ≡ own_block s.old memory x) }
{
    if !operands::fits(x, operands::READ_REGISTER) {
        return Err(Refusal::OperandOutside);
    }
    let value = fields::register(s, x.a);
    done(s, value)
}
