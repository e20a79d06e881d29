// How a tool ended.
ghost use Rattle.std.specs.Prelude.{◌≡◌};
ghost use Rattle.rnlp_cli.specs.Status.{status_number};

/// How a tool ended. Its number is the exit status of the program.
#[derive(Clone, Copy, Debug, PartialEq, Eq)]
pub enum ToolStatus {
    /// The whole output was written, and no device failed.
    Done = 0,
    /// The words are not right for this call; nothing was read and nothing written.
    Words = 2,
    /// The source failed; nothing was written.
    ReadFault = 3,
    /// The sink failed; a front part of the output was written, not all of it.
    WriteFault = 4,
    /// The input is not a script; its first fault was written, or a front part of its line if the sink failed.
    Script = 5,
    /// The input is longer than its limit; nothing was written.
    TooLong = 6,
    /// Memory ran out; nothing was written.
    NoMemory = 7,
    /// The input is not an event list or not a right report; its first fault was written, or a front part of its line
    /// if the sink failed.
    Trace = 8,
}

impl ToolStatus {
    /// The exit status of a program that ends this way.
    pub fn number(self) -> u8
        ensures { result ≡ status_number self }
    {
        self as u8
    }
}
