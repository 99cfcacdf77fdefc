// The operations by name, each with its number. The definition is specs/Named.antt.
ghost use Rattle.chip.specs.Named.{IsNamed};

use super::Refusal;

#[derive(Clone, Copy, Debug, PartialEq, Eq)]
pub enum Operation {
    AccessPage = 1,
    Precharge = 2,
    DuplicatePage = 3,
    ReadBlock = 4,
    MaskedWriteBlock = 5,
    UnmaskedWriteBlock = 6,
    DataRead = 7,
    StatelessInitialWrite = 8,
    StatelessNormalWrite = 9,
    StatefulInitialWrite = 10,
    StatefulNormalWrite = 11,
    ReplaceTag = 12,
    OrTag = 13,
    WriteRegister = 14,
    ReadRegister = 15,
    VideoTransfer = 16,
    VideoClock = 17,
}

// The operation that has this number.
impl TryFrom<u32> for Operation {
    type Error = Refusal;

    ghost try_from_gives = { IsNamed };

    fn try_from(number: u32) -> Result<Operation, Refusal> {
        match number {
            1 => Ok(Operation::AccessPage),
            2 => Ok(Operation::Precharge),
            3 => Ok(Operation::DuplicatePage),
            4 => Ok(Operation::ReadBlock),
            5 => Ok(Operation::MaskedWriteBlock),
            6 => Ok(Operation::UnmaskedWriteBlock),
            7 => Ok(Operation::DataRead),
            8 => Ok(Operation::StatelessInitialWrite),
            9 => Ok(Operation::StatelessNormalWrite),
            10 => Ok(Operation::StatefulInitialWrite),
            11 => Ok(Operation::StatefulNormalWrite),
            12 => Ok(Operation::ReplaceTag),
            13 => Ok(Operation::OrTag),
            14 => Ok(Operation::WriteRegister),
            15 => Ok(Operation::ReadRegister),
            16 => Ok(Operation::VideoTransfer),
            17 => Ok(Operation::VideoClock),
            _ => Err(Refusal::UnknownOperation),
        }
    }
}
