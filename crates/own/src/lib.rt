// What every call's code stands on: its operands' ranges, the page that is open in its bank, and the end of a call that is done.
#![tactic(auto)]

ghost use Rattle.std.specs.Prelude.{◌≡◌, ◌<◌};
ghost use Rattle.chip.specs.Answers.{done_with, given_back};
ghost use Rattle.block.specs.Block.{IsBlock, ticked_in};
ghost use Rattle.own.specs.Own.{opened_in};

use block::fields;
use chip::{Answer, CLOSED, Refusal, answers};

pub mod operands; // operands.rt: the documents' ranges

// The page that is open in a bank; a call on a closed bank is refused.
pub fn opened(s: &[u8], bank: u32) -> Result<u16, Refusal>
    requires { IsBlock s.now × (bank < 4) }
    ensures { result ≡ opened_in s.now bank }
{
    let page = fields::open_page(s, bank);
    if page == CLOSED {
        return Err(Refusal::BankClosed);
    }
    Ok(page)
}

// The answer of a call that is done and neither passes nor writes; the counter goes on.
pub fn done(s: &mut [u8], value: u32) -> Answer
    requires { IsBlock s.old }
    ensures { (given_back result ≡ done_with value 0 0) × (s.new ≡ ticked_in s.old) }
{
    fields::tick(s);
    answers::done(value)
}
