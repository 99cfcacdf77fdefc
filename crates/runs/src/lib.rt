// A list of calls over a chip and the memory lent to it, and what is told of each. The definitions are specs/Runs.antt; demand 3 for what a run
// tells and leaves is specs/Drawn.antt, and for calls through the C door specs/AtTheDoor.antt.
#![tactic(auto)]

ghost use Rattle.std.specs.Prelude.{◌≡◌, [], ◌∷◌, ◌+◌, ◌≤◌, length};
ghost use Rattle.std.proofs.lemmas.List.Edits.{sets};
ghost use Rattle.chip.specs.Answers.{numbered, given_back};
ghost use Rattle.chip.specs.Calls.{chip_of, memory_of};
ghost use Rattle.runs.specs.Runs.{call_at, calls_in, five_numbers, told_by, left, room_for, run_number, run_left, draw_number, draw_left};
ghost use Rattle.runs.specs.Drawn.{IsDone, IsPicture};

use calls::value;
use chip::{Answer, Answered, Call, Chip, Refusal, answers, fresh};
use layout::memory::pages_fit;

// A call is six numbers, and five are told of it. The lists are flat: fewer than six numbers at the end are no call.
const CALL_NUMBERS: usize = 6;

const TOLD_NUMBERS: usize = 5;

// The call of six numbers.
fn call_of(six: &[u32; CALL_NUMBERS]) -> Call
    ensures { result ≡ call_at six.now 0 }
{
    let [op, a, b, c, d, given] = *six;
    Call {
        op,
        a,
        b,
        c,
        d,
        given,
    }
}

// What is told of a call: what it answered, taken apart, and the hit flag after it.
fn five_of(answer: Answer, hit: bool) -> [u32; TOLD_NUMBERS]
    ensures { result ≡ five_numbers (given_back answer) hit }
{
    let flag = bits::digit_of(hit);
    let Ok(done) = answer else {
        return [answers::number(answer), 0, 0, 0, flag];
    };
    [
        0,
        done.value,
        bits::digit_of(done.pass),
        bits::digit_of(done.written),
        flag,
    ]
}

// Whether `told` has five numbers for each call.
fn room_for(numbers: &[u32], told: &[u32]) -> bool
    ensures { result ≡ room_for numbers.now told.now }
{
    told.len() == TOLD_NUMBERS * (numbers.len() / CALL_NUMBERS)
}

// A chip left as it is.
fn refused(chip: Chip) -> Answered
    ensures { (given_back result.answer ≡ numbered 4) × (result.chip ≡ chip) }
{
    Answered {
        answer: Err(Refusal::OperandOutside),
        chip: chip,
    }
}

// The calls, six numbers each, from the first to the last, and five numbers told of each; fewer than six numbers at the end are no call.
pub fn run(chip: Chip, memory: &mut [u8], numbers: &[u32], told: &mut [u32]) -> Answered
    ensures { (given_back result.answer ≡ numbered (run_number numbers.now told.old)) × (left result.chip memory.new told.new ≡ run_left numbers.now (left chip memory.old told.old)) }
{
    if !room_for(numbers, told) {
        return refused(chip);
    }
    let (calls, _) = numbers.as_chunks::<CALL_NUMBERS>();
    // Told at its place: nothing is said of what a slice ends as that `chunks_exact_mut` lent.
    let mut ran = chip;
    for (i, six) in calls.iter().enumerate() {
        let answered = value::perform(ran, memory, call_of(six));
        ran = answered.chip;
        let at = TOLD_NUMBERS * i;
        told[at..at + TOLD_NUMBERS].copy_from_slice(&five_of(answered.answer, ran.control.hit));
    }
    Answered {
        answer: answers::done(0),
        chip: ran,
    }
}

// "Start fresh over any memory": the chip made fresh with this many pages to a bank, and the calls. Demand 3 is in the contract.
pub fn draw(
    chip: Chip,
    pages: u32,
    memory: &mut [u8],
    numbers: &[u32],
    told: &mut [u32],
) -> Answered
    ensures answered { (given_back result.answer ≡ numbered (draw_number pages numbers.now told.old)) × (left result.chip memory.new told.new ≡ draw_left pages numbers.now (left chip memory.old told.old)) }
    ensures picture { IsDone (given_back result.answer) → IsPicture pages memory.old (calls_in numbers.now) told.new memory.new }
{
    if !(pages_fit(pages) & room_for(numbers, told)) {
        return refused(chip);
    }
    run(fresh::fresh(pages as u16), memory, numbers, told)
}
