// What a call answered, as the line that is printed for it.
#![tactic(auto, unfolding(lines::specs::Printing::printed_given))]

ghost use Rattle.std.specs.Prelude.{◌≡◌, ◌++◌, ◌+◌, ◌≤◌};
ghost use Rattle.arrayvec.specs.ArrayString.{array_string_len};
ghost use Rattle.chip.specs.Answers.{given_back};
ghost use Rattle.lines.specs.Printing.{printed_given};

use arrayvec::ArrayString;
use chip::Answer;

// An answer is taken apart as done or refused before its value is read.
pub fn print<const N: usize>(answer: Answer, output: &mut ArrayString<N>)
    requires { array_string_len output.old + 44 ≤ N }
    ensures { output.new.bytes ≡ output.old.bytes ++ printed_given (given_back answer) }
{
    let Ok(done) = answer else {
        return lines::printer::push_line(output, chip::answers::number(answer), 0, 0, 0);
    };
    lines::printer::push_line(
        output,
        0,
        done.value,
        bits::digit_of(done.pass),
        bits::digit_of(done.written),
    );
}
