// The two tests of a data write. A code's bits choose by `&`, `|` and `^`, so that no test has a branch.
ghost use Rattle.std.specs.Prelude.{◌≡◌};
ghost use Rattle.pixel.specs.Pixel.{match_passes, magnitude_passes};

// Whether the match test passes: control bits 9:8 are the code, bit 16 picks NEW.
pub fn match_passes(control: u32, match_mask: u32, old: u32, given: u32, constant: u32) -> bool
    ensures { result ≡ match_passes control match_mask old given constant }
{
    let n = bits::pick(bits::bit_of(control, 16), constant, given) & match_mask;
    let o = old & match_mask;
    let high = bits::bit_of(control, 9);
    let low = bits::bit_of(control, 8);
    (!high | (n == o)) ^ low
}

// Whether the magnitude test passes: control bits 2:0 are the code, bit 17 XOR bit 16 picks NEW.
// Codes 4 to 7 are the negations of codes 0 to 3.
pub fn magnitude_passes(
    control: u32,
    magnitude_mask: u32,
    old: u32,
    given: u32,
    constant: u32,
) -> bool
    ensures { result ≡ magnitude_passes control magnitude_mask old given constant }
{
    let n = bits::pick(
        bits::bit_of(control, 17) ^ bits::bit_of(control, 16),
        constant,
        given,
    ) & magnitude_mask;
    let o = old & magnitude_mask;
    let two = bits::bit_of(control, 2);
    let one = bits::bit_of(control, 1);
    let zero = bits::bit_of(control, 0);
    (!(one | zero) | (zero & (o < n)) | (one & (n == o))) ^ two
}
