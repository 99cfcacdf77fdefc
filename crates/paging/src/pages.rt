// Access, precharge and duplicate page.
ghost use Rattle.std.specs.Prelude.{◌≡◌, true, List, ℕ, length};
ghost use Rattle.layout.specs.Memory.{size};
ghost use Rattle.chip.specs.Answers.{given_back};
ghost use Rattle.block.specs.Block.{IsBlock, decode_control, well_formed_block};
ghost use Rattle.own.specs.Own.{own_given, own_block, own_memory};

use bank::Bank;
use block::fields;
use chip::{Answer, CLOSED, Call, Refusal};
use own::{done, opened, operands};

// Opens a closed bank at a page.
pub fn access(s: &mut [u8], x: Call) -> Answer
    requires { IsBlock s.old × (well_formed_block s.old ≡ true) × (x.op ≡ 1) }
    ensures { (given_back result ≡ own_given s.old x) × ((memory : List ℕ) → s.new ≡ own_block s.old memory x) }
{
    let pages = fields::pages(s);
    if !operands::fits(x, operands::page_line(pages)) {
        return Err(Refusal::OperandOutside);
    }
    if fields::open_page(s, x.a) != CLOSED {
        return Err(Refusal::BankOpen);
    }
    fields::put_page(s, x.a, x.b as u16);
    done(s, 0)
}

// Closes a bank; a closed one stays closed.
pub fn precharge(s: &mut [u8], x: Call) -> Answer
    requires { IsBlock s.old × (well_formed_block s.old ≡ true) × (x.op ≡ 2) }
    ensures { (given_back result ≡ own_given s.old x) × ((memory : List ℕ) → s.new ≡ own_block s.old memory x) }
{
    if !operands::fits(x, operands::PRECHARGE) {
        return Err(Refusal::OperandOutside);
    }
    fields::put_page(s, x.a, CLOSED);
    done(s, 0)
}

// Copies the open page over the named one, which becomes the open page.
pub fn duplicate(s: &mut [u8], memory: &mut [u8], x: Call) -> Answer
    requires { IsBlock s.old × (well_formed_block s.old ≡ true) × (length memory.old ≡ size (decode_control s.old).pages) × (x.op ≡ 3) }
    ensures { (given_back result ≡ own_given s.old x) × (s.new ≡ own_block s.old memory.old x) × (memory.new ≡ own_memory s.old memory.old x) }
{
    let pages = fields::pages(s);
    if !operands::fits(x, operands::page_line(pages)) {
        return Err(Refusal::OperandOutside);
    }
    let from = opened(s, x.a)?;
    let named = x.b as u16;
    bank::copy_page_in(
        memory,
        Bank {
            pages: pages as usize,
            number: x.a as usize,
        },
        from as usize,
        named as usize,
    );
    fields::put_page(s, x.a, named);
    done(s, 0)
}
