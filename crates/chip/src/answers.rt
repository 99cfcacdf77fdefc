// What is given of an answer. The definitions are specs/Answers.antt; value, pass and written are read from an answer that is taken apart.
ghost use Rattle.std.specs.Prelude.{◌≡◌};
ghost use Rattle.chip.specs.Answers.{given_back, done_with};

use super::{Answer, Done};

// The number of an answer: 0 where the call is done.
pub fn number(answer: Answer) -> u32
    ensures { result ≡ (given_back answer).number }
{
    match answer {
        Ok(_) => 0,
        Err(refusal) => refusal.into(),
    }
}

// The answer of a call that is done and neither passes nor writes.
pub fn done(value: u32) -> Answer
    ensures { given_back result ≡ done_with value 0 0 }
{
    Ok(Done {
        value,
        pass: false,
        written: false,
    })
}
