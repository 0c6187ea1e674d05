/// How the program ends.
#[derive(Clone, Copy, Debug, PartialEq, Eq)]
pub enum Status {
    /// All was done and written.
    Done,
    /// There was a fault, told in one line on standard error.
    Faulted,
    /// The words on the command line aren't understood.
    NotUnderstood,
}

impl Status {
    ghost use Rattle.std.specs.Prelude.{◌≡◌};
    ghost use Rattle.upsched_ends.specs.Status.{code_of};

    /// The exit status of the process.
    pub fn code(self) -> u8
        ensures { result ≡ code_of self }
    {
        match self {
            Status::Done => 0,
            Status::Faulted => 1,
            Status::NotUnderstood => 2,
        }
    }
}
