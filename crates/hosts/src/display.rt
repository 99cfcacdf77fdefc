// The display's side: a scan line is a part of the lent memory, and a call beside it gives its place, or why there is none. Only a chip's control part is asked for.
ghost use Rattle.std.specs.Prelude.{◌≡◌};
ghost use Rattle.layout.specs.Memory.{placed_given};
ghost use Rattle.chip.specs.Calls.{line_placed_of, scan_line_of};

use chip::{Control, Refusal};
use layout::ScanLine;

// Where a scan line's 80 bytes start in a memory of this length, or why there is none.
pub fn find_line(control: Control, length: usize, named: ScanLine) -> Result<usize, Refusal>
    ensures { placed_given result ≡ line_placed_of control length named.bank named.page named.line }
{
    if !chip::form::well_formed(control) {
        return Err(Refusal::IllFormed);
    }
    layout::memory::find_line(length, control.pages as u32, named)
}

// The scan line's 80 bytes in memory, not copied, or a part of length 0 where there is none.
pub fn scan_line(control: Control, memory: &[u8], named: ScanLine) -> &[u8]
    ensures { result.now ≡ scan_line_of control memory.now named.bank named.page named.line }
{
    if !chip::form::well_formed(control) {
        return &memory[0..0];
    }
    layout::memory::scan_line(memory, control.pages as u32, named)
}
