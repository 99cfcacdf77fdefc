// A data write on words, whole, and where it writes.
ghost use Rattle.std.specs.Prelude.{◌≡◌, true, false, List, ℕ, ◌<◌};
ghost use Rattle.pixel.specs.Writes.{outcome_of, into_slot, into_word};

use crate::compare::{magnitude_passes, match_passes};
use crate::registers::{
    COMPARE_CONTROL, CONSTANT_SOURCE, MAGNITUDE_MASK, MATCH_MASK, PLANE_MASK, ROP_CONTROL,
    WRITE_ADDRESS_CONTROL,
};
use crate::rop::{merge, raster, select_new};
use crate::{Outcome, Write};

// A stateful write: the tests enable it, and the raster result goes under the plane mask into the bytes that it takes.
pub fn stateful(registers: [u32; 7], w: Write, old: u32, dest: u32) -> Outcome
    requires { w.stateless ≡ false }
    ensures { result ≡ outcome_of registers w old dest }
{
    let given = w.given;
    let control = registers[COMPARE_CONTROL];
    let constant = registers[CONSTANT_SOURCE];
    let rop = registers[ROP_CONTROL];
    let matched = match_passes(control, registers[MATCH_MASK], old, given, constant);
    let magnitude = magnitude_passes(control, registers[MAGNITUDE_MASK], old, given, constant);
    let both = matched & magnitude;
    let enabled = (w.passin == 3) & (both | (bits::bit_of(control, 10) & !matched));
    let taken = bits::pick(enabled, w.enables, 0);
    let result = raster(rop, select_new(rop, given, constant), old);
    let word = merge(dest, result, registers[PLANE_MASK], taken);
    Outcome {
        pass: both,
        written: enabled,
        taken,
        word,
        changed: bits::differing(dest, word),
    }
}

// A stateless write: its data, under no mask, in the enabled bytes, whatever the registers and OLD are.
pub fn stateless(w: Write, dest: u32) -> Outcome
    requires { w.stateless ≡ true }
    ensures { (registers : List ℕ) (old : ℕ) → result ≡ outcome_of registers w old dest }
{
    let word = merge(dest, w.given, 0xffff_ffff, w.enables);
    Outcome {
        pass: true,
        written: true,
        taken: w.enables,
        word,
        changed: bits::differing(dest, word),
    }
}

// The slot that a write goes to, of this many: its own, or with write address control 1 the one that the data names.
pub fn into_slot(registers: [u32; 7], w: Write, slots: u32) -> u32
    requires { 0 < slots }
    ensures { result ≡ into_slot slots registers w }
{
    let by_data = bits::bit_of(registers[WRITE_ADDRESS_CONTROL], 0) & !w.stateless;
    bits::pick(by_data, (w.given >> 27) % slots, w.slot)
}

// The word of that slot: its own, or the one that the data names. Slot and word have a sentence each in 01, and so a function each.
pub fn into_word(registers: [u32; 7], w: Write) -> u32
    ensures { result ≡ into_word registers w }
{
    let by_data = bits::bit_of(registers[WRITE_ADDRESS_CONTROL], 0) & !w.stateless;
    bits::pick(by_data, (w.given >> 24) % 8, w.word)
}
