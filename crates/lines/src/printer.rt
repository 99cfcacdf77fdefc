// Printing a line of numbers: each function writes behind what the output holds, and requires the room.
#![tactic(auto, unfolding(crate::specs::Printing::heading, crate::specs::Printing::printed_line))]

ghost use Rattle.std.specs.Prelude.{◌≡◌, [], ◌∷◌, ◌++◌, ◌+◌, ◌≤◌, ◌<◌, length};
ghost use Rattle.arrayvec.specs.ArrayString.{array_string_len};
ghost use Rattle.lines.specs.Printing.{printed_number, printed_line, heading, Stored};

use arrayvec::ArrayString;
use itoa::Buffer;

// The line that comes before all others.
pub fn heading() -> [u8; 26]
    ensures { result ≡ heading }
{
    *b"number value pass written\n"
}

// A number of at most ten digits, and the byte that ends it.
fn put_number<const N: usize>(output: &mut ArrayString<N>, x: u32, end: char)
    requires room { array_string_len output.old + 11 ≤ N }
    requires ascii { end < 128 }
    ensures bytes { output.new.bytes ≡ output.old.bytes ++ printed_number x end }
    ensures count { array_string_len output.new ≤ array_string_len output.old + 11 }
{
    let mut digits = Buffer::new();
    output.push_str(digits.format(x));
    output.push(end);
}

// A line of four numbers takes at most so many bytes.
const LINE_ROOM: usize = 44;

// A line of four numbers, behind what the output holds.
pub fn push_line<const N: usize>(
    output: &mut ArrayString<N>,
    number: u32,
    value: u32,
    pass: u32,
    written: u32,
)
    requires { array_string_len output.old + 44 ≤ N }
    ensures { output.new.bytes ≡ output.old.bytes ++ printed_line (number ∷ value ∷ pass ∷ written ∷ []) }
{
    put_number(output, number, ' ');
    put_number(output, value, ' ');
    put_number(output, pass, ' ');
    put_number(output, written, '\n');
}

// The same in a part of a lent buffer, from a place on: the place behind it.
pub fn put_line(
    output: &mut [u8],
    at: usize,
    number: u32,
    value: u32,
    pass: u32,
    written: u32,
) -> usize
    requires { at + 44 ≤ length output.old }
    ensures { Stored output.old at (printed_line (number ∷ value ∷ pass ∷ written ∷ [])) output.new result }
{
    let mut line = ArrayString::<LINE_ROOM>::new();
    push_line(&mut line, number, value, pass, written);
    let end = at + line.len();
    output[at..end].copy_from_slice(line.as_bytes());
    end
}
