// The calls, whole: every input is answered, and a refusal changes no byte.
#![tactic(auto)]

pub mod acts; // acts.rt: a call on a state block
pub mod value; // value.rt: a call on a chip by value
