ghost use Rattle.std.specs.Prelude.{◌≡◌};

/// How a run ended.
#[derive(Clone, Copy, Debug, PartialEq, Eq)]
pub enum Status {
    /// Every statement of the script was executed and its text written.
    Done,
    /// The script or a statement was refused, and the line that says why was written.
    Refused,
    /// The words of the command line have no form, or a number is out of range.
    BadWords,
    /// The script or a file that a statement wants could not be read.
    ReadFault,
    /// A text could not be written.
    WriteFault,
    /// Memory was wanted.
    Memory,
}

impl Status {
    ghost use Rattle.pdw_run.specs.Status.{exit_of};

    /// The exit status of the program.
    pub fn exit_code(self) -> u8
        ensures { result ≡ exit_of self }
    {
        match self {
            Status::Done => 0,
            Status::Refused => 1,
            Status::BadWords => 2,
            Status::ReadFault => 3,
            Status::WriteFault => 4,
            Status::Memory => 5,
        }
    }
}
