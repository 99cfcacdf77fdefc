// Video transfer.
ghost use Rattle.std.specs.Prelude.{◌≡◌, true, ◌+◌, ◌<◌, ◌≤◌, length, get_or};
ghost use Rattle.layout.specs.Memory.{size, place, on_line};
ghost use Rattle.lists.specs.Update.{update};
ghost use Rattle.bank.specs.Work.{in_buffer};
ghost use Rattle.chip.specs.Video.{buffer_of, in_use};
ghost use Rattle.chip.specs.State.{open_page};
ghost use Rattle.chip.specs.Answers.{given_back};
ghost use Rattle.block.specs.Block.{IsBlock, video_at, decode_control, well_formed_block};
ghost use Rattle.own.specs.Own.{own_given, own_block};

use block::{fields, places};
use chip::{Answer, Call, Refusal, Scan};
use layout::ScanLine;
use own::{done, opened, operands};

// Whether the display is reading the buffer that a bank feeds.
fn in_use(scan: Scan, bank: u32) -> bool
    ensures { result ≡ in_use scan bank }
{
    (bank % 2 == (scan.select as u32)) & (scan.counter != 0)
}

// The scan line that a call names, into its bank's buffer where the buffer lies.
fn load_line(s: &mut [u8], memory: &[u8], x: Call)
    requires { IsBlock s.old × (length memory.now ≡ size (decode_control s.old).pages) × ((decode_control s.old).pages ≤ 257) × (x.a < 4) × (open_page (decode_control s.old).banks x.a < (decode_control s.old).pages) × (x.b < 16) }
    ensures { s.new ≡ update 80 (λ j. video_at + in_buffer (buffer_of x.a) j) (λ j was. get_or memory.now (place (decode_control s.old).pages x.a (open_page (decode_control s.old).banks x.a) (on_line x.b j)) 0) s.old }
{
    let pages = fields::pages(s);
    let page = fields::open_page(s, x.a);
    let named = ScanLine {
        bank: x.a,
        page: page as u32,
        line: x.b,
    };
    let start = layout::memory::line_start(pages as u32, named);
    bank::transfer(
        memory,
        start,
        &mut s[places::VIDEO_AT..places::VIDEO_END],
        (x.a % 2) as usize,
    );
}

// A copy: memory may change behind it, and the buffer stays.
pub fn video_transfer(s: &mut [u8], memory: &[u8], x: Call) -> Answer
    requires { IsBlock s.old × (well_formed_block s.old ≡ true) × (length memory.now ≡ size (decode_control s.old).pages) × (x.op ≡ 16) }
    ensures { (given_back result ≡ own_given s.old x) × (s.new ≡ own_block s.old memory.now x) }
{
    if !operands::fits(x, operands::VIDEO_TRANSFER) {
        return Err(Refusal::OperandOutside);
    }
    opened(s, x.a)?;
    if in_use(fields::scan(s), x.a) {
        return Err(Refusal::BufferInUse);
    }
    load_line(s, memory, x);
    done(s, 0)
}
