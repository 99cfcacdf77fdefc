// The registers by name, each with its number; and where each stands among the seven: its number less one.
#[derive(Clone, Copy, Debug, PartialEq, Eq)]
pub enum Register {
    PlaneMask = 1,
    ConstantSource = 2,
    MatchMask = 3,
    MagnitudeMask = 4,
    RopControl = 5,
    CompareControl = 6,
    WriteAddressControl = 7,
}

pub const PLANE_MASK: usize = Register::PlaneMask as usize - 1;

pub const CONSTANT_SOURCE: usize = Register::ConstantSource as usize - 1;

pub const MATCH_MASK: usize = Register::MatchMask as usize - 1;

pub const MAGNITUDE_MASK: usize = Register::MagnitudeMask as usize - 1;

pub const ROP_CONTROL: usize = Register::RopControl as usize - 1;

pub const COMPARE_CONTROL: usize = Register::CompareControl as usize - 1;

pub const WRITE_ADDRESS_CONTROL: usize = Register::WriteAddressControl as usize - 1;
