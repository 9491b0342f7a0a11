// How a run ends.
ghost use Rattle.std.specs.Prelude.{◌≡◌};
ghost use Rattle.dsc_tool.specs.Statuses.{code_of, status_at};

/// How a run ended.
#[derive(Clone, Copy, Debug, PartialEq, Eq)]
pub enum Status {
    /// Everything was done.
    Done,
    /// The inputs break a rule, or the cache has a finding or lacks the image.
    Refused,
    /// The words are no command.
    BadWords,
    /// An input was not read.
    ReadFault,
    /// A file, or the output, was not written.
    WriteFault,
    /// Memory ran out.
    Memory,
    /// A cache differs from its files.
    Differs,
}

/// How a run ends that has put all that it made.
#[derive(Clone, Copy, Debug, PartialEq, Eq)]
pub enum Ending {
    /// Everything was done.
    Done,
    /// A cache differs from its files.
    Differs,
}

impl Ending {
    /// The status of the run.
    pub(crate) fn status(self) -> Status
        ensures { result ≡ status_at self }
    {
        match self {
            Ending::Done => Status::Done,
            Ending::Differs => Status::Differs,
        }
    }
}

impl Status {
    /// The exit status of the process.
    pub fn code(self) -> u8
        ensures { result ≡ code_of self }
    {
        match self {
            Status::Done => 0,
            Status::Refused => 1,
            Status::BadWords => 2,
            Status::ReadFault => 3,
            Status::WriteFault => 4,
            Status::Memory => 5,
            Status::Differs => 6,
        }
    }
}
