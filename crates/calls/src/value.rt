// A call on a chip by value: stored, acted on and read back. The round trip of the stored state makes this the same call.
ghost use Rattle.std.specs.Prelude.{◌≡◌};
ghost use Rattle.chip.specs.Answers.{given_back};
ghost use Rattle.chip.specs.Calls.{call_given, chip_of, memory_of};

use super::acts;
use block::places;
use chip::{Answered, Call, Chip};

pub fn perform(chip: Chip, memory: &mut [u8], x: Call) -> Answered
    ensures { (given_back result.answer ≡ call_given chip memory.old x) × (result.chip ≡ chip_of chip memory.old x) × (memory.new ≡ memory_of chip memory.old x) }
{
    let mut s = [0u8; places::BLOCK_BYTES];
    stored::store(&mut s, chip);
    let answer = acts::act(&mut s, memory, x);
    Answered {
        answer,
        chip: stored::read(&s),
    }
}
