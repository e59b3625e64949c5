/// How a command ended.
#[derive(Clone, Copy, Debug, PartialEq, Eq)]
pub enum Status {
    /// All was done.
    Done,
    /// The command refuses what it was given, and said why.
    Refused,
    /// The words are in no form.
    Usage,
    /// A file could not be read.
    ReadFault,
    /// The image could not be written. A prefix of it may stand in its file.
    WriteFault,
    /// The text could not be put. A prefix of it may have been taken.
    SinkFault,
    /// Memory ran out.
    Memory,
    /// An evaluation was too long.
    TooLong,
}

impl Status {
    ghost use Rattle.std.specs.Prelude.{◌≡◌};
    ghost use Rattle.sp_cli.specs.Status.{exit_number};

    /// The number with which the process ends: 0 to 7, in the order of the statuses.
    pub fn exit_number(self) -> u8
        ensures { result ≡ exit_number self }
    {
        self as u8
    }
}
