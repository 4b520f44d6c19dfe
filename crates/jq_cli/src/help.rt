//! The texts of help and of the version.

/// What `--help` writes: how the command is called, and a line for each option.
pub const HELP_TEXT: &str = r#"Usage: jql [options] FILTER [FILE...]

Runs FILTER once on each JSON text of the files, or of standard input, and
prints each output.

  -c, --compact-output     print each output on one line
  -r, --raw-output         print a string output as its own characters
  -j, --join-output        as -r, and print no newline after outputs
  -n, --null-input         run the filter once, on null
  -s, --slurp              run the filter once, on the array of all inputs
  -e, --exit-status        set the exit status by the last output
  -S, --sort-keys          accepted, without effect: keys are always sorted
  -M, --monochrome-output  accepted, without effect: nothing is coloured
      --arg NAME TEXT      bind the variable $NAME to the string TEXT
      --argjson NAME JSON  bind the variable $NAME to the value of the text JSON
      --depth D            allow D calls inside one another (without it 10,000)
      --live               serve a session: standard input is a script of edits
      --follow             with --live, answer with what each line changes
      --explain            write notes after error lines, which say where and why
  -h, --help               print this list of options and end
  -V, --version            print the version and end

For the language, the exit statuses and examples: man jql
"#;

/// What `--version` writes: the program's name and its version, which is that of the file `VERSION`.
pub const VERSION_TEXT: &str = "jql 0.9.0\n";
