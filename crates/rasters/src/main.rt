// Compares the raster rule with the databook's Table 3.16, for all sixteen codes, and writes a line for each:
// the code, its name as a GC function of the X Window System, the databook's formula, and whether they agree.
#![tactic(auto)]

ghost use Rattle.std.specs.Prelude.{◌<◌};

use pixel::raster;

// NEW and OLD as they are compared. In the first two words every byte has all four pairs of a NEW and an OLD bit; the others
// differ from byte to byte.
const WORDS: [(u32, u32); 6] = [
    (0x3333_3333, 0x0f0f_0f0f),
    (0x0000_0000, 0xffff_ffff),
    (0xffff_ffff, 0x0000_0000),
    (0x0123_4567, 0x89ab_cdef),
    (0xfedc_ba98, 0x0123_cdef),
    (0x8000_0001, 0xc000_0003),
];

// Writes the line of a code, whose formula is given on whole words. A line that cannot be written is let go.
fn compare<F: Fn(u32, u32) -> u32>(
    rt: &impl Print,
    code: u32,
    name: &str,
    databook: &str,
    formula: F,
)
    requires { (code < 16) × F.IsAlwaysCallable formula }
{
    let codes = code * 0x0101_0101; // one in each byte
    let agrees = WORDS
        .iter()
        .all(|&(new, old)| raster(codes, new, old) == formula(new, old));
    let verdict = if agrees { "agree" } else { "DIFFERS" };
    println!(rt; "{code} {name}: {databook}: {verdict}").is_ok();
}

fn main(rt: HostRuntime) {
    compare(&rt, 0, "clear", "All bits zero", |_, _| 0);
    compare(&rt, 1, "and", "NEW and OLD", |new, old| new & old);
    compare(&rt, 2, "andReverse", "NEW and ~OLD", |new, old| new & !old);
    compare(&rt, 3, "copy", "NEW", |new, _| new);
    compare(&rt, 4, "andInverted", "~NEW and OLD", |new, old| !new & old);
    compare(&rt, 5, "noop", "OLD", |_, old| old);
    compare(&rt, 6, "xor", "NEW xor OLD", |new, old| new ^ old);
    compare(&rt, 7, "or", "NEW or OLD", |new, old| new | old);
    compare(&rt, 8, "nor", "~NEW and ~OLD", |new, old| !new & !old);
    compare(&rt, 9, "equiv", "~NEW xor OLD", |new, old| !new ^ old);
    compare(&rt, 10, "invert", "~OLD", |_, old| !old);
    compare(&rt, 11, "orReverse", "NEW or ~OLD", |new, old| new | !old);
    compare(&rt, 12, "copyInverted", "~NEW", |new, _| !new);
    compare(&rt, 13, "orInverted", "~NEW or OLD", |new, old| !new | old);
    compare(&rt, 14, "nand", "~NEW or ~OLD", |new, old| !new | !old);
    compare(&rt, 15, "set", "All bits one", |_, _| u32::MAX);
}
