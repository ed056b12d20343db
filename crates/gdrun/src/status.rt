// How a run ends.
ghost use Rattle.std.specs.Prelude.{◌≡◌};

/// How a run ends.
#[derive(Clone, Copy, Debug, PartialEq, Eq)]
pub enum Status {
    /// The script ran to its end.
    Done,
    /// A requested path is missing, or its load has faults.
    Refused,
    /// The words are no command.
    Usage,
    /// The run needs more steps than are allowed.
    StepsSpent,
    /// The folder could not be listed, or its project file could not be read.
    FolderFault,
    /// A write failed. What was written is a part of the front of the text.
    SinkFault,
    /// Memory ran out. What was written is a part of the front of the text.
    NoMemory,
    /// The folder has too many files, or too many bytes.
    FolderLimit,
}

impl Status {
    ghost use Rattle.gdrun.specs.Numbers.{number_of_status};

    /// The exit status.
    pub fn number(&self) -> u8
        ensures { result ≡ number_of_status self.now }
    {
        match self {
            Status::Done => 0,
            Status::Refused => 1,
            Status::Usage => 2,
            Status::StepsSpent => 4,
            Status::FolderFault => 5,
            Status::SinkFault => 6,
            Status::NoMemory => 7,
            Status::FolderLimit => 8,
        }
    }
}
