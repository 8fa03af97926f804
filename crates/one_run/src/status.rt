//! The exit statuses of programs.

ghost use Rattle.std.specs.Prelude.{◌≡◌};
ghost use Rattle.one_run.specs.Ends.{number_of, status_of};

use crate::BridgeFault;

/// How a program ended.
#[derive(Clone, Copy, PartialEq, Eq)]
pub enum Status {
    /// All was read and written.
    Done,
    /// The arguments ask for no conversion that there is.
    NoJob,
    /// A read failed.
    ReadFault,
    /// A write failed.
    WriteFault,
    /// The input does not begin as its format requires.
    NotThisForm,
    /// Memory could not be allocated.
    NoMemory,
    /// A write of the report failed.
    ReportFault,
    /// The input is too long.
    TooLong,
    /// An argument is not UTF-8.
    NoText,
}

impl Status {
    /// The number of the exit status.
    pub fn number(self) -> u8
        ensures { result ≡ number_of self }
    {
        match self {
            Status::Done => 0,
            Status::NoJob => 2,
            Status::ReadFault => 3,
            Status::WriteFault => 4,
            Status::NotThisForm => 5,
            Status::NoMemory => 6,
            Status::ReportFault => 7,
            Status::TooLong => 8,
            Status::NoText => 9,
        }
    }

    /// That of a run with this result.
    pub fn of<C>(ended: &Result<C, BridgeFault>) -> Status
        ensures { number_of result ≡ status_of ended.now }
    {
        match ended {
            Ok(_) => Status::Done,
            Err(fault) => Status::from(*fault),
        }
    }
}

impl From<BridgeFault> for Status {
    ghost use Rattle.std.specs.Prelude.{◌≡◌};
    ghost use Rattle.one_run.specs.Ends.{fault_status, number_of};

    ghost from_gives = { λ fault status. number_of status ≡ fault_status fault };

    fn from(fault: BridgeFault) -> Status {
        match fault {
            BridgeFault::ReadFault => Status::ReadFault,
            BridgeFault::WriteFault => Status::WriteFault,
            BridgeFault::ReportFault => Status::ReportFault,
            BridgeFault::NotThisForm => Status::NotThisForm,
            BridgeFault::TooLong => Status::TooLong,
            BridgeFault::NoMemory => Status::NoMemory,
        }
    }
}
