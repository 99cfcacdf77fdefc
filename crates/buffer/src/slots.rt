// Data read, replace tag and OR tag.
ghost use Rattle.std.specs.Prelude.{◌≡◌, true, List, ℕ, ◌≤◌};
ghost use Rattle.chip.specs.Answers.{given_back};
ghost use Rattle.block.specs.Block.{IsBlock, well_formed_block};
ghost use Rattle.own.specs.Own.{own_given, own_block};

use block::fields;
use chip::operations::Operation;
use chip::{Answer, Call, Refusal};
use own::{done, operands};

pub fn data_read(s: &mut [u8], x: Call) -> Answer
    requires { IsBlock s.old × (well_formed_block s.old ≡ true) × (x.op ≡ 7) }
    ensures { (given_back result ≡ own_given s.old x) × ((memory : List ℕ) → s.new ≡ own_block s.old memory x) }
{
    if !operands::fits(x, operands::DATA_READ) {
        return Err(Refusal::OperandOutside);
    }
    let value = fields::slot_word(s, x.a, x.b);
    done(s, value)
}

// 12 replaces the slot's tag by the data, 13 ORs the data into it.
pub fn write_tag(s: &mut [u8], x: Call) -> Answer
    requires { IsBlock s.old × (well_formed_block s.old ≡ true) × (12 ≤ x.op) × (x.op ≤ 13) }
    ensures { (given_back result ≡ own_given s.old x) × ((memory : List ℕ) → s.new ≡ own_block s.old memory x) }
{
    if !operands::fits(x, operands::WRITE_TAG) {
        return Err(Refusal::OperandOutside);
    }
    let was = bits::pick(x.op == Operation::ReplaceTag as u32, 0, fields::tag(s, x.a));
    fields::put_tag(s, x.a, was | x.given);
    done(s, 0)
}
