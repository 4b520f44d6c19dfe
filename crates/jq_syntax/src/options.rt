// The options of the command `jql` that say how a filter is compiled and run and how outputs are printed.

use jv_data::Val;
use jv_text::Style;

/// The options of one command. All but `--depth` are named as in the manual of jq 1.7, "Invoking jq".
#[derive(Drop)]
pub struct Options {
    /// `--null-input`: the filter runs once, on `null`, and reads its inputs by `inputs`.
    pub null: bool,
    /// `--slurp`: the filter runs once, on the array of all inputs.
    pub slurp: bool,
    /// `--exit-status`: the exit status depends on the last output.
    pub exit: bool,
    /// `--compact-output`, `--raw-output` and `--join-output`.
    pub style: Style,
    /// `--depth`: how deep calls of defined functions may nest, from 1 to 100,000 (jql's own option).
    pub depth: u32,
    /// `--arg` and `--argjson`: the variables that a filter may name, with their values. If a
    /// name occurs twice, its first value is used.
    pub vars: Vec<(String, Val)>,
}
