// NEW, the raster result and the merge, on whole words: all four bytes at once.
ghost use Rattle.std.specs.Prelude.{◌≡◌};
ghost use Rattle.pixel.specs.Pixel.{new_word, raster_word, merge_word};

// NEW: byte n of constant where bit 8n+5 of rop is set, and of the data elsewhere.
pub fn select_new(rop: u32, given: u32, constant: u32) -> u32
    ensures { result ≡ new_word rop given constant }
{
    bits::mux(bits::spread(rop >> 5), constant, given)
}

// The raster result: byte n by the code in bits 8n+3 to 8n of rop. The code is its own truth table.
pub fn raster(rop: u32, new: u32, old: u32) -> u32
    ensures { result ≡ raster_word rop new old }
{
    let one = bits::mux(old, bits::spread(rop), bits::spread(rop >> 1));
    let zero = bits::mux(old, bits::spread(rop >> 2), bits::spread(rop >> 3));
    bits::mux(new, one, zero)
}

// The destination after the write: the bytes taken have `drawn` under the plane mask.
// The product puts bit n of taken at bit 8n, where `spread` finds it.
pub fn merge(dest: u32, drawn: u32, plane_mask: u32, taken: u32) -> u32
    ensures { result ≡ merge_word dest drawn plane_mask taken }
{
    let bytes = bits::spread((taken & 15) * 0x0020_4081);
    bits::mux(bytes & plane_mask, drawn, dest)
}
