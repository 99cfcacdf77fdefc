// A session of the small program: the chip, and the line that is being read. It is carried from one piece of the input to the next.
#![tactic(auto, unfolding(crate::specs::Session::begun, crate::specs::Session::line_run, crate::specs::Session::byte_run, crate::specs::Session::ran, crate::specs::Session::close_run))]

ghost use Rattle.std.specs.Prelude.{◌≡◌, [], ◌+◌, ◌*◌, ◌≤◌, length};
ghost use Rattle.arrayvec.specs.ArrayString.{array_string_len};
ghost use Rattle.chip.specs.Answers.{given_back};
ghost use Rattle.lines.specs.ByByte.{ended};
ghost use Rattle.lines.specs.Printing.{printed_given};
ghost use Rattle.paneltest.specs.Session.{begun, line_run, byte_run, close_run, start_run, ran, Leaves};

use crate::reply;
use arrayvec::ArrayString;
use chip::{Answer, Chip};
use lines::reader::Reader;

const END_OF_LINE: u8 = b'\n';

#[derive(Drop)]
pub struct Session {
    pub chip: Chip,
    pub reader: Reader,
}

impl Session {
    // P = 2 and a fresh chip.
    pub fn begin() -> Session
        ensures { result ≡ begun }
    {
        Session {
            chip: chip::fresh::fresh(2),
            reader: Reader::start(),
        }
    }

    // The end of a line: its call is made, or it is refused as none.
    fn make_call(&mut self, memory: &mut [u8]) -> Answer
        ensures { Leaves (line_run (ended self.old.reader) self.old.chip memory.old) self.new memory.new [] (printed_given (given_back result)) }
    {
        let read = self.reader.finish();
        self.reader = Reader::start();
        let call = read?;
        let answered = calls::value::perform(self.chip, memory, call);
        self.chip = answered.chip;
        answered.answer
    }

    // The end of a line, and its answer printed.
    fn end_line<const N: usize>(&mut self, memory: &mut [u8], output: &mut ArrayString<N>)
        requires { array_string_len output.old + 44 ≤ N }
        ensures { Leaves (line_run (ended self.old.reader) self.old.chip memory.old) self.new memory.new output.old.bytes output.new.bytes }
    {
        let answer = self.make_call(memory);
        reply::print(answer, output);
    }

    // One byte of the input: byte 10 ends a line.
    fn take_byte<const N: usize>(
        &mut self,
        memory: &mut [u8],
        byte: u8,
        output: &mut ArrayString<N>,
    )
        requires { array_string_len output.old + 44 ≤ N }
        ensures { Leaves (byte_run self.old memory.old byte) self.new memory.new output.old.bytes output.new.bytes }
    {
        if byte == END_OF_LINE {
            return self.end_line(memory, output);
        }
        self.reader.step(byte);
    }

    // A piece of the input. A byte gives at most one line, of at most 44 bytes.
    pub fn run<const N: usize>(
        &mut self,
        memory: &mut [u8],
        input: &[u8],
        output: &mut ArrayString<N>,
    )
        requires { array_string_len output.old + length input.now * 44 ≤ N }
        ensures { Leaves (ran (start_run self.old memory.old) input.now) self.new memory.new output.old.bytes output.new.bytes }
    {
        for &byte in input {
            self.take_byte(memory, byte, output);
        }
    }

    // The end of the input: a last line may lack byte 10.
    pub fn close<const N: usize>(&mut self, memory: &mut [u8], output: &mut ArrayString<N>)
        requires { array_string_len output.old + 44 ≤ N }
        ensures { Leaves (close_run self.old memory.old) self.new memory.new output.old.bytes output.new.bytes }
    {
        match self.reader {
            Reader::Empty => {}
            Reader::Reading(_) | Reader::Spoilt => self.end_line(memory, output),
        }
    }
}
