// The calls on the pixel buffer and the registers.
#![tactic(auto)]

pub mod registers; // registers.rt: write and read register
pub mod slots; // slots.rt: data read, replace and OR tag
pub mod writes; // writes.rt: the four data writes
