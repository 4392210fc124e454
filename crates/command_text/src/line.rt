//! Lines of the input.

use crate::name::Name;
use base_types::OutPoint;
use std::alloc::AllocError;

/// What a line of the input asks for. Block files may be covered with a key of eight bytes.
#[derive(Debug, Drop)]
pub enum Line {
    /// An empty line has no reply.
    Empty,
    /// `fold FILE`
    Fold { file: Name },
    /// `headers FILE` and `headers FILE KEY`
    Headers { file: Name, key: Option<[u8; 8]> },
    /// `import FILE` and `import FILE KEY`
    Import { file: Name, key: Option<[u8; 8]> },
    /// `generate NUMBER COUNT FILE`
    Generate { number: u64, count: u64, file: Name },
    /// `flush`
    Flush,
    /// `gettxout TXID N`
    GetTxOut { key: OutPoint },
    /// `info`
    Info,
}

/// Why a line is refused, in the order in which the reasons are looked for.
#[derive(Clone, Copy, Debug, PartialEq, Eq)]
pub enum LineRefused {
    /// It has more than 4,096 bytes.
    LineTooLong,
    /// The name and the number of fields fit no command.
    UnknownCommand,
    /// FILE isn't 1 to 200 visible ASCII characters.
    BadName,
    /// KEY isn't 16 hexadecimal digits.
    BadKey,
    /// TXID isn't 64 hexadecimal digits.
    BadTxid,
    /// N isn't 1 to 10 decimal digits, or is above 4,294,967,295.
    BadIndex,
    /// NUMBER isn't 1 to 20 decimal digits, or is above 2^64 - 1.
    BadNumber,
    /// COUNT isn't 1 to 6 decimal digits, or isn't from 1 to 100,000.
    BadCount,
}

/// Why a line isn't a command.
#[derive(Clone, Copy, Debug, PartialEq, Eq)]
pub enum LineFault {
    NoMemory,
    Refused(LineRefused),
}

impl From<LineRefused> for LineFault {
    ghost use Rattle.std.specs.Prelude.{◌≡◌};
    ghost use Rattle.command_text.specs.declared.line.LineFault.TheVariants.{Refused};

    ghost from_gives = { λ why fault. fault ≡ Refused why };

    fn from(why: LineRefused) -> LineFault {
        LineFault::Refused(why)
    }
}

impl From<AllocError> for LineFault {
    ghost use Rattle.std.specs.Prelude.{◌≡◌};
    ghost use Rattle.command_text.specs.declared.line.LineFault.TheVariants.{NoMemory};

    ghost from_gives = { λ _ fault. fault ≡ NoMemory };

    fn from(_: AllocError) -> LineFault {
        LineFault::NoMemory
    }
}
