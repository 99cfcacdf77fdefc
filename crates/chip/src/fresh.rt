// A fresh chip, and a chip made fresh. The definitions are specs/State.antt and specs/Calls.antt.
ghost use Rattle.std.specs.Prelude.{◌≡◌, ◌≤◌};
ghost use Rattle.chip.specs.State.{fresh_of};
ghost use Rattle.chip.specs.Answers.{given_back};
ghost use Rattle.chip.specs.Calls.{fresh_given, fresh_chip};

use super::{Answered, CLOSED, Chip, Control, Refusal, Scan, answers};

// A fresh chip with so many pages to a bank.
pub fn fresh(pages: u16) -> Chip
    requires { (1 ≤ pages) × (pages ≤ 257) }
    ensures { result ≡ fresh_of pages }
{
    Chip {
        control: Control {
            pages: pages,
            banks: [CLOSED; 4],
            registers: [0xffff_ffff, 0, 0, 0, 0x0303_0303, 0, 0],
            picking: false,
            hit: false,
            counter: 0,
            tags: [0; 8],
            scan: Scan {
                counter: 0,
                select: 0,
            },
        },
        pixels: [0; 256],
        video: [0; 160],
    }
}

// A chip made fresh. Where there may not be so many pages to a bank, it is left as it is.
pub fn make_fresh(chip: Chip, pages: u32) -> Answered
    ensures { (given_back result.answer ≡ fresh_given pages) × (result.chip ≡ fresh_chip chip pages) }
{
    if !layout::memory::pages_fit(pages) {
        return Answered {
            answer: Err(Refusal::OperandOutside),
            chip: chip,
        };
    }
    Answered {
        answer: answers::done(0),
        chip: fresh(pages as u16),
    }
}
