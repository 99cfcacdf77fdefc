// The numbers that calls give back: 0 is done, and each other is a refusal's. With their laws, for all crates above.
#![tactic(auto)]

ghost use Rattle.std.specs.Prelude.{◌≡◌};
ghost use Rattle.numbers.specs.Refusals.{refusal_number};

// Why something is refused, each with its number.
#[derive(Clone, Copy, Debug, PartialEq, Eq)]
pub enum Refusal {
    IllFormed = 1,
    MemoryLength = 2,
    UnknownOperation = 3,
    OperandOutside = 4,
    BitNotAllowed = 5,
    BankOpen = 6,
    BankClosed = 7,
    OffScreen = 8,
    NotALine = 9,
    BufferInUse = 10,
}

impl From<Refusal> for u32 {
    ghost from_gives = { λ refusal number. number ≡ refusal_number refusal };

    fn from(refusal: Refusal) -> u32 {
        refusal as u32
    }
}
