// The two calls on a chip state lent by reference: each is the call by value, its chip stored over the one lent.
ghost use Rattle.std.specs.Prelude.{◌≡◌};
ghost use Rattle.chip.specs.Answers.{given_back};
ghost use Rattle.chip.specs.Calls.{call_given, chip_of, memory_of, fresh_given, fresh_chip};

use chip::{Answer, Call, Chip};

// Any call.
pub fn call_on(chip: &mut Chip, memory: &mut [u8], x: Call) -> Answer
    ensures { (given_back result ≡ call_given chip.old memory.old x) × (chip.new ≡ chip_of chip.old memory.old x) × (memory.new ≡ memory_of chip.old memory.old x) }
{
    let done = calls::value::perform(*chip, memory, x);
    *chip = done.chip;
    done.answer
}

// Making the chip fresh. It need not be well formed before.
pub fn fresh_on(chip: &mut Chip, pages: u32) -> Answer
    ensures { (given_back result ≡ fresh_given pages) × (chip.new ≡ fresh_chip chip.old pages) }
{
    let made = chip::fresh::make_fresh(*chip, pages);
    *chip = made.chip;
    made.answer
}
