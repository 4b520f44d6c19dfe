// Laws of the count of starts.
ghost use Rattle.std.specs.Prelude.{◌≤◌, ◌+◌, ℕ};
ghost use Rattle.jq_starts.specs.Starts.{HasStarted, HasStartedAtMost};
ghost use Rattle.jq_starts.specs.declared.starts.Starts.{Starts};

/// Counts over two parts of a call add up, a part that starts nothing counts 0, and an exact count is at most any greater one.
#[tactic(auto, using(crate::proofs::Counting::none, crate::proofs::Counting::both, crate::proofs::Counting::most))]
pub fn starts_add_up()
    ensures none { (s : Starts) → HasStarted 0 s s }
    ensures both { (m n : ℕ) (a b c : Starts) → HasStarted m a b → HasStarted n b c → HasStarted (m + n) a c }
    ensures most { (m n : ℕ) (a b : Starts) → HasStarted m a b → m ≤ n → HasStartedAtMost n a b }
{}
