// The four data writes.
ghost use Rattle.std.specs.Prelude.{◌≡◌, true, false, List, ℕ, ◌<◌, ◌≤◌};
ghost use Rattle.bits.specs.Bits.{digit, word_in};
ghost use Rattle.pixel.specs.Writes.{outcome_of};
ghost use Rattle.chip.specs.Effects.{slot_byte};
ghost use Rattle.chip.specs.Answers.{done_with, given_back};
ghost use Rattle.block.specs.Block.{IsBlock, pixels_in, well_formed_block};
ghost use Rattle.own.specs.Own.{own_given, own_block, hit_marked, settled};

use block::fields;
use chip::operations::Operation;
use chip::{Answer, Call, Done, Refusal};
use own::operands;
use pixel::{Outcome, Write};

// Picking is on already where it matters, and hit is set: both bits of the flags.
fn mark_hit(s: &mut [u8], hits: bool)
    requires { IsBlock s.old }
    ensures { s.new ≡ hit_marked hits s.old }
{
    if fields::picking(s) & hits {
        fields::put_flags(s, true, true);
    }
}

// A write's outcome, put at its destination: the word, its tag bits, hit, and one call more.
fn settle(s: &mut [u8], w: Write, slot: u32, word: u32, o: Outcome) -> Answer
    requires { IsBlock s.old × (slot < 8) × (word < 8) }
    ensures { (given_back result ≡ done_with o.changed (digit o.pass) (digit o.written)) × (s.new ≡ settled w slot word o s.old) }
{
    let before = bits::pick(w.initial, 0, fields::tag(s, slot));
    fields::put_slot_word(s, slot, word, o.word);
    fields::put_tag(s, slot, before | (o.taken << (4 * word)));
    mark_hit(s, !w.stateless & o.written);
    fields::tick(s);
    Ok(Done {
        value: o.changed,
        pass: o.pass,
        written: o.written,
    })
}

// What a stateful write comes to, from the words where they lie.
fn drawn(s: &[u8], registers: [u32; 7], w: Write, slot: u32, word: u32) -> Outcome
    requires { IsBlock s.now × (w.stateless ≡ false) × (w.slot < 8) × (w.word < 8) × (slot < 8) × (word < 8) }
    ensures { result ≡ outcome_of registers w (word_in (slot_byte (pixels_in s.now) w.slot) w.word) (word_in (slot_byte (pixels_in s.now) slot) word) }
{
    let old = fields::slot_word(s, w.slot, w.word);
    let dest = fields::slot_word(s, slot, word);
    pixel::stateful(registers, w, old, dest)
}

// The refusal is the other arm and not an early return: else every call would pay for it (docs/DECISIONS.md).
pub fn stateful_write(s: &mut [u8], x: Call) -> Answer
    requires { IsBlock s.old × (well_formed_block s.old ≡ true) × (10 ≤ x.op) × (x.op ≤ 11) }
    ensures { (given_back result ≡ own_given s.old x) × ((memory : List ℕ) → s.new ≡ own_block s.old memory x) }
{
    if operands::fits(x, operands::DATA_WRITE) {
        let w = Write {
            stateless: false,
            initial: x.op == Operation::StatefulInitialWrite as u32,
            slot: x.a,
            word: x.b,
            enables: x.c,
            passin: x.d,
            given: x.given,
        };
        let registers = fields::registers(s);
        let slot = pixel::into_slot(registers, w, 8);
        let word = pixel::into_word(registers, w);
        let outcome = drawn(s, registers, w, slot, word);
        settle(s, w, slot, word, outcome)
    } else {
        Err(Refusal::OperandOutside)
    }
}

// Its destination is (slot, word) whatever the registers hold. The refusal is the other arm here too. A `Write`
// is made here and in `stateful_write`: the function says whether it is stateless.
pub fn stateless_write(s: &mut [u8], x: Call) -> Answer
    requires { IsBlock s.old × (well_formed_block s.old ≡ true) × (8 ≤ x.op) × (x.op ≤ 9) }
    ensures { (given_back result ≡ own_given s.old x) × ((memory : List ℕ) → s.new ≡ own_block s.old memory x) }
{
    if operands::fits(x, operands::DATA_WRITE) {
        let w = Write {
            stateless: true,
            initial: x.op == Operation::StatelessInitialWrite as u32,
            slot: x.a,
            word: x.b,
            enables: x.c,
            passin: x.d,
            given: x.given,
        };
        let dest = fields::slot_word(s, x.a, x.b);
        let outcome = pixel::stateless(w, dest);
        settle(s, w, x.a, x.b, outcome)
    } else {
        Err(Refusal::OperandOutside)
    }
}
