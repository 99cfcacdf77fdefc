// Which states are well formed. The definition is specs/State.antt.
ghost use Rattle.std.specs.Prelude.{◌≡◌, ◌<◌, ◌≤◌, slice_index};
ghost use Rattle.bits.specs.Bits.{every, within};
ghost use Rattle.pixel.specs.Registers.{register};
ghost use Rattle.chip.specs.declared.Control.{Control};
ghost use Rattle.chip.specs.Video.{scan_fits};
ghost use Rattle.chip.specs.State.{open_page, page_fits, storable, well_formed};

use super::Control;
use pixel::registers::Register;

// What the tests read of a state, wherever it is kept: each part when its turn comes.
pub trait State {
    // the state by value
    ghost control: { Self → Control };

    // P, the pages to a bank.
    fn pages(&self) -> u16
        ensures { result ≡ (control self.now).pages };

    // The page that is open in a bank; 65535 where it is closed.
    fn open_page(&self, bank: u32) -> u16
        requires { bank < 4 }
        ensures { result ≡ open_page (control self.now).banks bank };

    // A register, by its number 1 to 7.
    fn register(&self, number: u32) -> u32
        requires { (1 ≤ number) × (number ≤ 7) }
        ensures { result ≡ register (control self.now).registers number };

    // The display's counter.
    fn counter(&self) -> u16
        ensures { result ≡ (control self.now).scan.counter };

    // The video buffer that is selected.
    fn select(&self) -> u16
        ensures { result ≡ (control self.now).scan.select };
}

impl State for Control {
    ghost control = { λ c. c };

    fn pages(&self) -> u16 {
        self.pages
    }

    #[tactic(auto, unfolding(crate::specs::State::open_page))]
    fn open_page(&self, bank: u32) -> u16 {
        self.banks[bank as usize]
    }

    #[tactic(auto, unfolding(pixel::specs::Registers::register))]
    fn register(&self, number: u32) -> u32 {
        self.registers[number as usize - 1]
    }

    fn counter(&self) -> u16 {
        self.scan.counter
    }

    fn select(&self) -> u16 {
        self.scan.select
    }
}

// The last of 40 pairs of bytes of a video buffer.
const LAST_PAIR: u16 = 39;

// Whether an open page is below P or 65535: one more, modulo 2^16, is at most P.
pub fn page_fits(pages: u16, page: u16) -> bool
    ensures { result ≡ page_fits pages page }
{
    page.wrapping_add(1) <= pages
}

// Whether the page open in each bank fits.
#[tactic(auto, unfolding(bits::specs::Bits::every))]
fn banks_fit<S: State>(state: &S) -> bool
    ensures { result ≡ every 4 (λ bank. page_fits (S.control state.now).pages (open_page (S.control state.now).banks bank)) }
{
    let pages = state.pages();
    page_fits(pages, state.open_page(0))
        && page_fits(pages, state.open_page(1))
        && page_fits(pages, state.open_page(2))
        && page_fits(pages, state.open_page(3))
}

// Whether registers hold allowed bits. Registers 1 to 4 may hold any, and the compiler leaves their tests out.
#[tactic(auto, unfolding(bits::specs::Bits::every, pixel::specs::Registers::register, crate::specs::State::storable))]
fn registers_fit<S: State>(state: &S) -> bool
    ensures { result ≡ every 7 (λ n. within (slice_index (S.control state.now).registers n) (slice_index storable n)) }
{
    bits::within(state.register(Register::PlaneMask as u32), 0xffff_ffff)
        && bits::within(state.register(Register::ConstantSource as u32), 0xffff_ffff)
        && bits::within(state.register(Register::MatchMask as u32), 0xffff_ffff)
        && bits::within(state.register(Register::MagnitudeMask as u32), 0xffff_ffff)
        && bits::within(state.register(Register::RopControl as u32), 0x2f2f_2f2f)
        && bits::within(state.register(Register::CompareControl as u32), 0x0003_0707)
        && bits::within(state.register(Register::WriteAddressControl as u32), 1)
}

// Whether the counter counts modulo 40 and a video buffer is selected.
#[tactic(auto, unfolding(crate::specs::Video::scan_fits))]
fn scan_fits<S: State>(state: &S) -> bool
    ensures { result ≡ scan_fits (S.control state.now).scan }
{
    state.counter() <= LAST_PAIR && state.select() <= 1
}

// Whether a state is well formed: P fits, and so do open pages, registers, and the display's counter and select. Each test has a branch of
// its own, since nearly every call passes all of them.
#[tactic(auto, unfolding(crate::specs::State::well_formed))]
pub fn is_well_formed<S: State>(state: &S) -> bool
    ensures { result ≡ well_formed (S.control state.now) }
{
    layout::memory::pages_fit(state.pages() as u32)
        && banks_fit(state)
        && registers_fit(state)
        && scan_fits(state)
}

pub fn well_formed(control: Control) -> bool
    ensures { result ≡ well_formed control }
{
    is_well_formed(&control)
}
