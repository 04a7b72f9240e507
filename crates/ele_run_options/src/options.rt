//! The options of a run.
//! A contract sees them as plain data.
ghost use Rattle.std.specs.Prelude.{◌≡◌};
ghost use Rattle.ele_run_options.specs.RunOptions.{plain, tells_reasons};

/// The options of a run. They never change the answer to a line, except to `why` and `ahead`.
#[derive(Clone, Copy, PartialEq, Eq)]
pub struct RunOptions {
    /// The run ends at the first line that is answered `no`, `bad` or `stop`.
    pub strict: bool,
    /// The line's number and a space precede each block. Unless the run is strict, the reason for each
    /// bad line is written beside it. All lines of the input count, also empty ones and remarks.
    pub numbers: bool,
    /// A line that begins with `#` is a remark, and gets no answer.
    pub remarks: bool,
    /// The lines `why T` and `ahead M` are answered too, from the current world. They make no entry in
    /// the history, and change nothing.
    pub explain: bool,
}

impl RunOptions {
    /// Returns the options with each one off.
    pub fn plain() -> RunOptions
        ensures { result ≡ plain }
    {
        RunOptions {
            strict: false,
            numbers: false,
            remarks: false,
            explain: false,
        }
    }

    /// Returns whether the reasons for bad lines are written beside their blocks.
    pub fn tells_reasons(self) -> bool
        ensures { result ≡ tells_reasons self }
    {
        self.numbers && !self.strict
    }
}
