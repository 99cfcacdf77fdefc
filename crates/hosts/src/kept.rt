// A chip kept as a state block, and read back: every chip and every slice is answered. The definitions are specs/Keeping.antt.
ghost use Rattle.std.specs.Prelude.{◌≡◌, length};
ghost use Rattle.std.specs.Result.{result_unwrap_or};
ghost use Rattle.chip.specs.declared.Chip.{Chip};
ghost use Rattle.chip.specs.Answers.{numbered, given_back};
ghost use Rattle.hosts.specs.Keeping.{keep_number, kept_block, number_read, read_number, read_chip};

use super::older;
use block::{form, places};
use chip::{Answer, Chip, Refusal, answers};

// Stores a chip that is well formed in a block of its length; else the block stays as it is.
pub fn keep(chip: Chip, state: &mut [u8]) -> Answer
    ensures { (given_back result ≡ numbered (keep_number chip (length state.old))) × (state.new ≡ kept_block chip state.old) }
{
    let control = chip.control;
    let is_block_long = state.len() == places::BLOCK_BYTES;
    if !is_block_long {
        return Err(Refusal::IllFormed);
    }
    if !chip::form::well_formed(control) {
        return Err(Refusal::IllFormed);
    }
    stored::store(state, chip);
    answers::done(0)
}

// The chip of a well formed block, of the newest form or an older one.
pub fn read(state: &[u8]) -> Result<Chip, Refusal>
    ensures number { number_read result ≡ read_number state.now }
    ensures chip { (handed_in : Chip) → result_unwrap_or result handed_in ≡ read_chip handed_in state.now }
{
    if !older::says_its_length(state) {
        return Err(Refusal::IllFormed);
    }
    let newest = older::grown(state);
    if !form::well_formed(&newest) {
        return Err(Refusal::IllFormed);
    }
    Ok(stored::read(&newest))
}
