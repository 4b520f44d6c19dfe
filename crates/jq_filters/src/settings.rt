// How a command runs its filter.
use jv_text::Style;

/// Which runs a command makes.
#[derive(Clone, Copy, Debug, PartialEq, Eq)]
pub enum Mode {
    /// One on each input.
    OnEach,
    /// One on null. If the filter has `inputs`, the command reads all of them before the run; else it reads nothing.
    OnNull { reads: bool },
    /// One on the array of all inputs.
    OnAll,
}

/// How a command runs its filter and prints the outputs.
#[derive(Clone, Copy, Debug, PartialEq, Eq)]
pub struct Settings {
    pub mode: Mode,
    pub style: Style,
    /// Whether the status depends on the last output.
    pub exit: bool,
}
