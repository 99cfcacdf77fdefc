// The state block of document 01, little endian. Each field is read and written where it lies, so that a call on the block copies none of it.
// What the fields mean is specs/Block.antt.
#![tactic(auto)]

pub mod fields; // fields.rt: one field, read and put
pub mod form; // form.rt: which blocks are well formed
pub mod places; // places.rt: where each part lies
