// Numbers in bytes, the lowest byte first. The definitions are specs/Words.antt.
// Byte accesses side by side become one access of the machine.
#![tactic(auto)]

ghost use Rattle.std.specs.Prelude.{◌≡◌, ℕ, ◌+◌, ◌*◌, ◌<◌, ◌≤◌, List, [], ◌∷◌, length};
ghost use Rattle.std.proofs.lemmas.List.Edits.{sets};
ghost use Rattle.lists.specs.Laws.{RowLaws, row_laws};
ghost use Rattle.lists.specs.Words.{numbers_at, half_at, put_half, halves, word_at, put_word, words};

use std::array;

// A number that lies in bytes.
pub trait LittleEndian {
    // How many bytes it takes.
    ghost WIDTH: { ℕ };

    // The number at a place, and the bytes of numbers one behind the other.
    ghost reads: { List ℕ → ℕ → Self };

    ghost bytes: { List Self → List ℕ };

    const WIDTH: usize;

    fn get(s: &[u8], at: usize) -> Self
        requires { at + WIDTH ≤ length s.now }
        ensures { result ≡ reads s.now at };

    fn put(self, s: &mut [u8], at: usize)
        requires { at + WIDTH ≤ length s.old }
        ensures { s.new ≡ sets s.old at (bytes (self ∷ [])) };

    // What each `impl` must prove.
    ghost laws: { RowLaws WIDTH bytes };
}

impl LittleEndian for u16 {
    ghost WIDTH = { 2 };

    ghost reads = { half_at };

    ghost bytes = { halves };

    ghost laws = { row_laws 2 };

    const WIDTH: usize = 2;

    #[tactic(auto, unfolding(crate::specs::Words::half_at))]
    fn get(s: &[u8], at: usize) -> u16 {
        u16::from_le_bytes([s[at], s[at + 1]])
    }

    #[tactic(auto, unfolding(crate::specs::Words::put_half, crate::specs::Update::update, bits::specs::Bits::byte))]
    fn put(self, s: &mut [u8], at: usize)
        requires { at + 2 ≤ length s.old }
        ensures { s.new ≡ put_half at self s.old }
    {
        [s[at], s[at + 1]] = self.to_le_bytes();
    }
}

impl LittleEndian for u32 {
    ghost WIDTH = { 4 };

    ghost reads = { word_at };

    ghost bytes = { words };

    ghost laws = { row_laws 4 };

    const WIDTH: usize = 4;

    #[tactic(auto, unfolding(crate::specs::Words::word_at))]
    fn get(s: &[u8], at: usize) -> u32 {
        bits::join(s[at], s[at + 1], s[at + 2], s[at + 3])
    }

    #[tactic(auto, unfolding(crate::specs::Words::put_word, crate::specs::Update::update, bits::specs::Bits::byte))]
    fn put(self, s: &mut [u8], at: usize)
        requires { at + 4 ≤ length s.old }
        ensures { s.new ≡ put_word at self s.old }
    {
        [s[at], s[at + 1], s[at + 2], s[at + 3]] = self.to_le_bytes();
    }
}

// The numbers that lie one behind the other, from a place on.
pub fn numbers_at<N: LittleEndian, const K: usize>(s: &[u8], at: usize) -> [N; K]
    requires { at + N.WIDTH * K ≤ length s.now }
    ensures { result ≡ numbers_at N.WIDTH N.reads K s.now at }
{
    array::from_fn(
        |i: usize| -> N
            requires { at + N.WIDTH * i + N.WIDTH ≤ length s.now }
            ensures { result ≡ N.reads s.entry.now (at + N.WIDTH * i) }
        { N::get(s, at + N::WIDTH * i) },
    )
}

// Numbers put one behind the other, from a place on.
pub fn put_numbers<N: LittleEndian + Copy>(s: &mut [u8], at: usize, row: &[N])
    requires { at + N.WIDTH * length row.now ≤ length s.old }
    ensures { s.new ≡ sets s.old at (N.bytes row.now) }
{
    for (i, x) in row.iter().enumerate() {
        x.put(s, at + N::WIDTH * i);
    }
}
