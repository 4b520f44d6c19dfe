//! Where a text ends, in terms that its definition does not use. Nothing here runs.
ghost use Rattle.std.specs.Prelude.{◌≡◌, ◌↔◌, ◌||◌, ℕ, List, ◌∷◌, Bool, true};
ghost use Rattle.jv_cut.specs.Bytes.{opens, is_quote, is_bare};
ghost use Rattle.jv_cut.specs.laws.BareRuns.{bare_end};
ghost use Rattle.jv_cut.specs.laws.Fronts.{IsShortest, IsOpen, IsTooDeep, IsTooLong};
ghost use Rattle.jv_cut.specs.Text.{ends, unended, too_deep, too_long, text_end};

/// An array, an object or a string is the shortest prefix of the stream in which no string is open and, outside strings, the
/// closing brackets are as many as the opening ones.
pub fn a_text_is_the_shortest_closed_front()
    ensures { (ended : Bool) (x : ℕ) (xs : List ℕ) (n : ℕ) → (opens x || is_quote x) ≡ true → (text_end ended (x ∷ xs) ≡ ends n) ↔ IsShortest (x ∷ xs) n }
{}

/// An array, an object or a string goes on after the bytes that were fed exactly if no prefix of them is closed or too deep,
/// and they are not longer than a text may be.
pub fn an_open_text_has_no_closed_front()
    ensures { (ended : Bool) (x : ℕ) (xs : List ℕ) → (opens x || is_quote x) ≡ true → (text_end ended (x ∷ xs) ≡ unended) ↔ IsOpen (x ∷ xs) }
{}

/// An array or an object is too deep exactly if some prefix has 128 open brackets before it ends and before it is too long.
pub fn a_text_too_deep_has_a_front_too_deep()
    ensures { (ended : Bool) (x : ℕ) (xs : List ℕ) → (opens x || is_quote x) ≡ true → (text_end ended (x ∷ xs) ≡ too_deep) ↔ IsTooDeep (x ∷ xs) }
{}

/// An array, an object or a string is too long exactly if it is open after its first 67,108,864 bytes, and more follow.
pub fn a_text_too_long_is_open_for_longer()
    ensures { (ended : Bool) (x : ℕ) (xs : List ℕ) → (opens x || is_quote x) ≡ true → (text_end ended (x ∷ xs) ≡ too_long) ↔ IsTooLong (x ∷ xs) }
{}

/// Any other text is the longest prefix of the stream whose bytes are none of white space, `{ } [ ] , : "`.
pub fn any_other_text_is_the_longest_bare_front()
    ensures { (ended : Bool) (x : ℕ) (xs : List ℕ) → is_bare x ≡ true → text_end ended (x ∷ xs) ≡ bare_end ended (x ∷ xs) }
{}
