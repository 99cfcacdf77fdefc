// Video clock.
ghost use Rattle.std.specs.Prelude.{◌≡◌, true, List, ℕ, ◌≤◌};
ghost use Rattle.chip.specs.Answers.{given_back};
ghost use Rattle.block.specs.Block.{IsBlock, well_formed_block};
ghost use Rattle.own.specs.Own.{own_given, own_block};
ghost use Rattle.video.specs.Clocks.{counted_in};

use block::fields;
use chip::{Answer, Call, Refusal, Scan};
use own::{done, operands};

// The last of 40 pairs of bytes.
const LAST_PAIR: u16 = 39;

// The next pair of bytes; behind the last one, the other buffer.
fn count(s: &mut [u8], scan: Scan)
    requires { IsBlock s.old × (scan.counter ≤ 39) × (scan.select ≤ 1) }
    ensures { s.new ≡ counted_in scan s.old }
{
    if scan.counter == LAST_PAIR {
        fields::put_scan_counter(s, 0);
        fields::put_scan_select(s, 1 - scan.select);
    } else {
        fields::put_scan_counter(s, scan.counter + 1);
    }
}

// Puts out first, and counts then.
pub fn video_clock(s: &mut [u8], x: Call) -> Answer
    requires { IsBlock s.old × (well_formed_block s.old ≡ true) × (x.op ≡ 17) }
    ensures { (given_back result ≡ own_given s.old x) × ((memory : List ℕ) → s.new ≡ own_block s.old memory x) }
{
    if !operands::fits(x, operands::VIDEO_CLOCK) {
        return Err(Refusal::OperandOutside);
    }
    let scan = fields::scan(s);
    let out = fields::put_out(s, scan);
    count(s, scan);
    done(s, out as u32)
}
