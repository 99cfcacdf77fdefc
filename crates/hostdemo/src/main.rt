// A host of one chip, with one page to a bank: it loads a block into a slot, writes a word there, writes the block back, shows the scan line on
// which that word stands, and puts its first bytes out to the display. docs/HOSTS.md explains it.
#![tactic(auto)]

ghost use Rattle.std.specs.Prelude.{◌≡◌};
ghost use Rattle.chip.specs.Answers.{given_back};
ghost use Rattle.chip.specs.Calls.{call_given, chip_of, memory_of};

use block::places;
use chip::operations::Operation;
use chip::{Answer, Call, Chip, Control, Scan, answers};
use layout::ScanLine;
use lists::LittleEndian;

// The scan line on which the word stands.
const FIRST_LINE: ScanLine = ScanLine {
    bank: 0,
    page: 0,
    line: 0,
};

// Says what a call answered. The answer is taken apart before its value is read. A line that cannot be written is let go, here and in `show`.
fn tell(rt: &impl Print, name: &str, answer: Answer) {
    let Ok(done) = answer else {
        let number = chip::answers::number(answer);
        println!(rt; "{name}: refused with {number}").is_ok();
        return;
    };
    let value = done.value;
    println!(rt; "{name}: done, value {value}").is_ok();
}

// Makes a call, says what it answered, and gives the answer back: answer, chip and memory are those of the call by value.
fn step(rt: &impl Print, name: &str, chip: &mut Chip, memory: &mut [u8], x: Call) -> Answer
    ensures { (given_back result ≡ call_given chip.old memory.old x) × (chip.new ≡ chip_of chip.old memory.old x) × (memory.new ≡ memory_of chip.old memory.old x) }
{
    let answer = hosts::lent::call_on(chip, memory, x);
    tell(rt, name, answer);
    answer
}

// Shows the first word of a scan line, or says with which number it is refused.
fn show(rt: &impl Print, control: Control, memory: &[u8], named: ScanLine) {
    if let Err(refusal) = hosts::display::find_line(control, memory.len(), named) {
        let number = u32::from(refusal);
        println!(rt; "scan line: refused with {number}").is_ok();
    }
    if let [a, b, c, d, ..] = hosts::display::scan_line(control, memory, named) {
        let word = bits::join(*a, *b, *c, *d);
        println!(rt; "scan line: begins with {word}").is_ok();
    }
}

fn call(op: Operation, a: u32, b: u32, c: u32, d: u32, given: u32) -> Call {
    Call {
        op: op as u32,
        a,
        b,
        c,
        d,
        given,
    }
}

// Opens page 0 of bank 0 and loads its block 0 into slot 0.
fn load(rt: &impl Print, chip: &mut Chip, memory: &mut [u8]) {
    let _ = step(
        rt,
        "access page",
        chip,
        memory,
        call(Operation::AccessPage, 0, 0, 0, 0, 0),
    );
    let _ = step(
        rt,
        "read block",
        chip,
        memory,
        call(Operation::ReadBlock, 0, 0, 0, 0, 0),
    );
}

// Writes a word into slot 0, all four of its bytes; made once more, the write changes none.
fn draw(rt: &impl Print, chip: &mut Chip, memory: &mut [u8]) {
    let write = call(Operation::StatefulNormalWrite, 0, 0, 15, 3, 0x0102_0304);
    let _ = step(rt, "data write", chip, memory, write);
    let _ = step(rt, "data write, again", chip, memory, write);
}

// A word that waits in the pixel buffer is not on the scan line: it is there after the write-back.
fn write_back(rt: &impl Print, chip: &mut Chip, memory: &mut [u8]) {
    show(rt, chip.control, memory, FIRST_LINE);
    let _ = step(
        rt,
        "write block",
        chip,
        memory,
        call(Operation::MaskedWriteBlock, 0, 0, 0, 0, 0),
    );
    show(rt, chip.control, memory, FIRST_LINE);
}

// Transfers the scan line into video buffer 0, which is selected, and puts out its first two bytes.
fn scan_out(rt: &impl Print, chip: &mut Chip, memory: &mut [u8]) {
    let _ = step(
        rt,
        "video transfer",
        chip,
        memory,
        call(Operation::VideoTransfer, 0, 0, 0, 0, 0),
    );
    let _ = step(
        rt,
        "video clock",
        chip,
        memory,
        call(Operation::VideoClock, 0, 0, 0, 0, 0),
    );
}

// The block as the base kept it: 348 bytes, which end where the video buffers start, and its header says so.
fn as_the_base_kept_it(state: [u8; places::BLOCK_BYTES]) -> [u8; places::VIDEO_AT] {
    let mut base = [0u8; places::VIDEO_AT];
    stored::put_bytes(&mut base, 0, &state[0..places::VIDEO_AT]);
    (places::VIDEO_AT as u16).put(&mut base, places::LENGTH_AT);
    base
}

// Keeps the chip as a state block, as before a host stops, and reads it back. An older block is read too.
fn kept(rt: &impl Print, chip: Chip) -> Chip {
    let mut state = [0u8; places::BLOCK_BYTES];
    tell(rt, "keep", hosts::kept::keep(chip, &mut state));
    let back = hosts::kept::read(&state);
    tell(rt, "read", back.and(answers::done(0)));
    let older = hosts::kept::read(&as_the_base_kept_it(state));
    tell(rt, "read of 348 bytes", older.and(answers::done(0)));
    back.unwrap_or(ill_formed())
}

// Page 1 is not below P, the bank is open already, and the selected video buffer is not yet put out whole.
fn be_refused(rt: &impl Print, chip: &mut Chip, memory: &mut [u8]) {
    let of_page_1 = ScanLine {
        page: 1,
        ..FIRST_LINE
    };
    show(rt, chip.control, memory, of_page_1);
    let _ = step(
        rt,
        "access page",
        chip,
        memory,
        call(Operation::AccessPage, 0, 0, 0, 0, 0),
    );
    let _ = step(
        rt,
        "video transfer",
        chip,
        memory,
        call(Operation::VideoTransfer, 0, 0, 0, 0, 0),
    );
}

// A chip of no pages, which is not well formed. Written out, since a derived `Default` has no arrays so long.
fn ill_formed() -> Chip {
    Chip {
        control: Control {
            pages: 0,
            banks: [0; 4],
            registers: [0; 7],
            picking: false,
            hit: false,
            counter: 0,
            tags: [0; 8],
            scan: Scan {
                counter: 0,
                select: 0,
            },
        },
        pixels: [0; 256],
        video: [0; 160],
    }
}

// A chip that is not well formed is made fresh all the same.
fn main(rt: HostRuntime) {
    let mut memory = [0u8; 5120];
    let mut chip = ill_formed();
    tell(&rt, "fresh chip", hosts::lent::fresh_on(&mut chip, 1));
    load(&rt, &mut chip, &mut memory);
    draw(&rt, &mut chip, &mut memory);
    write_back(&rt, &mut chip, &mut memory);
    scan_out(&rt, &mut chip, &mut memory);
    let mut back = kept(&rt, chip);
    be_refused(&rt, &mut back, &mut memory);
}
