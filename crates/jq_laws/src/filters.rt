// Equations between filters.

ghost use Rattle.jq_tree.specs.Tree.{Tree, identity, empty, pipe, comma};
ghost use Rattle.jq_laws.specs.laws.FilterLaws.{MeanTheSame};

/// `. | f` and `f | .` are `f`.
pub fn identity_changes_nothing()
    ensures before { (f : Tree) → MeanTheSame (pipe identity f) f }
    ensures after { (f : Tree) → MeanTheSame (pipe f identity) f }
{}

/// `(f | g) | h` is `f | (g | h)`.
pub fn pipes_group_freely()
    ensures { (f g h : Tree) → MeanTheSame (pipe (pipe f g) h) (pipe f (pipe g h)) }
{}

/// `(f, g), h` is `f, (g, h)`, and `empty` adds nothing.
pub fn commas_group_freely()
    ensures groups { (f g h : Tree) → MeanTheSame (comma (comma f g) h) (comma f (comma g h)) }
    ensures before { (f : Tree) → MeanTheSame (comma empty f) f }
    ensures after { (f : Tree) → MeanTheSame (comma f empty) f }
{}

/// `(f, g) | h` is `(f | h), (g | h)`.
pub fn commas_pass_through_pipes()
    ensures { (f g h : Tree) → MeanTheSame (pipe (comma f g) h) (comma (pipe f h) (pipe g h)) }
{}

/// `empty | f` is `empty`.
pub fn nothing_follows_empty()
    ensures { (f : Tree) → MeanTheSame (pipe empty f) empty }
{}
