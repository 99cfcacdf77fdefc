// The small program: reads lines "op a b c d data", makes each call on a fresh chip of two pages a bank, and prints number, value, pass, written.
// What is printed for which input is proved of Session's run and close; here is only the reading and writing.
#![tactic(auto)]

mod reply;
mod session;

use arrayvec::ArrayString;
use session::Session;
use std::io::{Read, Write};

// P = 2.
const MEMORY: usize = 4 * 2 * 1280;

// A piece of the input, and room for what it can give: at most 44 bytes for each.
const PIECE: usize = 512;

const ROOM: usize = PIECE * 44;

// Reads once and writes what that gives, and says whether there may be more to read. An input that ends or fails ends the last line; an output that
// is full or closed ends the run.
fn take_turn(
    reader: &mut impl Read,
    writer: &mut impl Write,
    session: &mut Session,
    memory: &mut [u8],
) -> bool {
    let mut input = [0u8; PIECE];
    let mut output = ArrayString::<ROOM>::new();
    let n = reader.read(&mut input).unwrap_or(0);
    if n == 0 {
        session.close(memory, &mut output);
    } else {
        session.run(memory, &input[..n], &mut output);
    }
    let is_written = writer.write_all(output.as_bytes()).is_ok();
    is_written && n != 0
}

fn main(rt: HostRuntime) {
    let mut reader = rt.stdin();
    let mut writer = rt.stdout();
    let mut session = Session::begin();
    let mut memory = [0u8; MEMORY];
    let heading = lines::printer::heading();
    if writer.write_all(&heading).is_err() {
        return;
    }
    // A proved loop ends, and nothing says that the input does: so the turns are counted, by more numbers than a run uses up.
    for _ in 0..u64::MAX {
        if !take_turn(&mut reader, &mut writer, &mut session, &mut memory) {
            return;
        }
    }
}
