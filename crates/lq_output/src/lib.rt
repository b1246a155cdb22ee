//! What a script means: `specs/` defines its output and its status as a function of its bytes.
#![tactic(auto)]

ghost use Rattle.std.specs.Prelude.{◌≡◌};
ghost use Rattle.lq_output.specs.Numbers.{number_of};

/// How a run of the program ended. Its number is the program's exit status.
#[derive(Clone, Copy, Debug, PartialEq, Eq)]
pub enum Status {
    /// The source was read to its end, every sentence was accepted, and no proof is open.
    Done,
    /// A sentence has a fault, or the script ends inside a theorem.
    ScriptFault,
    /// The words are no command.
    Usage,
    /// The source failed.
    ReadFault,
    /// The sink failed.
    WriteFault,
    /// There was no memory.
    NoMemory,
    /// The script has more than 4,194,304 bytes.
    TooLong,
}

impl Status {
    /// The exit status of the program: 0 accepted, 1 a fault of the script, 2 wrong words, 3 a failed read, 4 a failed
    /// write, 5 no memory, 6 a script that is too long.
    pub fn number(self) -> u8
        ensures { result ≡ number_of self }
    {
        match self {
            Status::Done => 0,
            Status::ScriptFault => 1,
            Status::Usage => 2,
            Status::ReadFault => 3,
            Status::WriteFault => 4,
            Status::NoMemory => 5,
            Status::TooLong => 6,
        }
    }
}
