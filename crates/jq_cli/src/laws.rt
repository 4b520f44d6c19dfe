// Laws of words that ask for help or for the version.
ghost use Rattle.std.specs.Prelude.{◌≡◌, ◌∷◌, List, [], codes};
ghost use Rattle.clap.specs.Words.{Text};
ghost use Rattle.clap.specs.declared.error.kind.ErrorKind.TheVariants.{DisplayHelp, DisplayVersion};
ghost use Rattle.jq_cli.specs.Command.{faults};

/// In words that `--arg` and `--argjson` have left, `clap` finds help if they begin with `-h` or `--help`, whatever follows.
pub fn help_comes_first()
    ensures short { (words : List Text) → faults (codes "-h" ∷ words) ≡ DisplayHelp ∷ [] }
    ensures long { (words : List Text) → faults (codes "--help" ∷ words) ≡ DisplayHelp ∷ [] }
{}

/// The same for the version, `-V` and `--version`.
pub fn version_comes_first()
    ensures short { (words : List Text) → faults (codes "-V" ∷ words) ≡ DisplayVersion ∷ [] }
    ensures long { (words : List Text) → faults (codes "--version" ∷ words) ≡ DisplayVersion ∷ [] }
{}
