// Reading a line a byte at a time: a line of any length needs no room, and may come in pieces.
#![tactic(auto, using(std::proofs::lemmas::Bool::Decides::nat_tests), unfolding(crate::specs::Lines::is_digit, crate::specs::ByByte::after_space, crate::specs::ByByte::after_digit, crate::specs::ByByte::after_next, crate::specs::ByByte::after_byte, crate::specs::ByByte::ended))]

ghost use Rattle.std.specs.Prelude.{◌≡◌, ◌≤◌};
ghost use Rattle.lines.specs.Lines.{parsed_given};
ghost use Rattle.lines.specs.ByByte.{started, pushed, after_space, after_digit, after_next, after_byte, ended};

use chip::Call;
use numbers::Refusal;

// The numbers of a line so far.
#[derive(Clone, Copy, Default)]
pub struct SoFar {
    // how many of them are whole
    pub whole: u32,
    // the digits so far of the next one, and what they write
    pub digits: u32,
    pub value: u32,
    // the whole ones, the latest in the last place
    pub call: Call,
}

// A line as far as it is read.
#[derive(Clone, Copy)]
pub enum Reader {
    // it has no byte
    Empty,
    // it may still become six numbers
    Reading(SoFar),
    // it has a byte that no line has there, which no byte after it can mend
    Spoilt,
}

// One number more. Each moves one place down, so that after six the first is the operation, and no place is counted.
fn push(call: Call, number: u32) -> Call
    ensures { result ≡ pushed call number }
{
    Call {
        op: call.a,
        a: call.b,
        b: call.c,
        c: call.d,
        d: call.given,
        given: number,
    }
}

impl SoFar {
    // A space ends a number, which has a digit and is not the sixth.
    fn space(self) -> Option<SoFar>
        ensures { result ≡ after_space self }
    {
        if self.digits == 0 || 5 <= self.whole {
            return None;
        }
        Some(SoFar {
            whole: self.whole + 1,
            digits: 0,
            value: 0,
            call: push(self.call, self.value),
        })
    }

    // A digit more of a number: at most ten, and below 2^32.
    fn digit(self, byte: u8) -> Option<SoFar>
        requires { (48 ≤ byte) × (byte ≤ 57) }
        ensures { result ≡ after_digit self byte }
    {
        if 10 <= self.digits {
            return None;
        }
        let digit = (byte - b'0') as u32;
        let value = self.value.checked_mul(10)?.checked_add(digit)?;
        Some(SoFar {
            digits: self.digits + 1,
            value,
            ..self
        })
    }

    // A byte more: a space, a digit, or what no line has.
    fn next(self, byte: u8) -> Option<SoFar>
        ensures { result ≡ after_next self byte }
    {
        match byte {
            b' ' => self.space(),
            b'0'..=b'9' => self.digit(byte),
            _ => None,
        }
    }
}

impl Reader {
    // Before the first byte.
    pub fn start() -> Self
        ensures { result ≡ started }
    {
        Self::Empty
    }

    // A byte more of a line.
    pub fn step(&mut self, byte: u8)
        ensures { self.new ≡ after_byte self.old byte }
    {
        let next = match *self {
            Reader::Empty => SoFar::default().next(byte),
            Reader::Reading(so_far) => so_far.next(byte),
            Reader::Spoilt => None,
        };
        *self = next.map_or(Reader::Spoilt, Reader::Reading);
    }

    // The end of a line: five numbers are whole, and the sixth has a digit. Its number and its call are parsed_given of specs/Lines.antt.
    pub fn finish(self) -> Result<Call, Refusal>
        ensures { parsed_given result ≡ ended self }
    {
        match self {
            Reader::Reading(so_far) if so_far.whole == 5 && 0 < so_far.digits => {
                Ok(push(so_far.call, so_far.value))
            }
            Reader::Empty | Reader::Reading(_) | Reader::Spoilt => Err(Refusal::NotALine),
        }
    }
}
