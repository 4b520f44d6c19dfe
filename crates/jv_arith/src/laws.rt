// Laws of the operators.
ghost use Rattle.std.specs.Prelude.{◌≡◌, ◌≢◌, ◌++◌, ◌∷◌, ◌<◌, ◌≤ℤ◌, ◌+ℤ◌, ◌*ℤ◌, ℕ, ℤ, pos, List, [], int_div, int_rem, unsigned_abs, option_map};
ghost use Rattle.std.specs.List.{AllByRecursion, Contains};
ghost use Rattle.std.specs.Str.Iter.{HasSubslice};
ghost use Rattle.jv_data.specs.Members.{IsInOrder, member_at, member_or_null};
ghost use Rattle.jv_data.specs.Value.{Value, Items, Members, item, no_items, values_of};
ghost use Rattle.jv_arith.specs.Arrays.{left_over};
ghost use Rattle.jv_arith.specs.Objects.{union, deep_union, united};
ghost use Rattle.jv_arith.specs.laws.Unions.{right_or_left};
ghost use Rattle.jv_arith.specs.Strings.{split_of};
ghost use Rattle.jv_arith.specs.laws.Splits.{join, StandsFirst};

/// The quotient rounded towards 0, times the divisor, plus the remainder is the dividend. The remainder is smaller than
/// the divisor in size and has the sign of the dividend.
pub fn remainder_completes_division()
    ensures whole { (m n : ℤ) → (int_div m n *ℤ n) +ℤ int_rem m n ≡ m }
    ensures smaller { (m n : ℤ) → 0 < unsigned_abs n → unsigned_abs (int_rem m n) < unsigned_abs n }
    ensures above { (m n : ℤ) → pos 0 ≤ℤ m → pos 0 ≤ℤ int_rem m n }
    ensures below { (m n : ℤ) → m ≤ℤ pos 0 → int_rem m n ≤ℤ pos 0 }
{}

/// The difference of two arrays has none of the items that the right one contains, and keeps all others in their order.
pub fn difference_leaves_what_the_other_lacks()
    ensures none { (ws : Items) → left_over no_items ws ≡ no_items }
    ensures gone { (v : Value) (vs ws : Items) → Contains (values_of ws) v → left_over (item v vs) ws ≡ left_over vs ws }
    ensures stays { (v : Value) (vs ws : Items) → (Contains (values_of ws) v → ⊥) → left_over (item v vs) ws ≡ item v (left_over vs ws) }
{}

/// The parts with the separator between them are the text again, and no part contains the separator.
pub fn split_is_undone_by_joining()
    ensures joined { (s sep : List ℕ) → join sep (split_of s sep) ≡ s }
    ensures apart { (s sep : List ℕ) → sep ≢ [] → AllByRecursion (λ p. HasSubslice p sep → ⊥) (split_of s sep) }
{}

/// A text is split from left to right: the first part ends at the first separator, and the others are the parts of the
/// text after it. A text that ends with that separator has one more, empty part. A text without the separator is its
/// only part.
pub fn split_is_from_left_to_right()
    ensures first { (sep p r : List ℕ) → sep ≢ [] → r ≢ [] → StandsFirst sep p r → split_of (p ++ (sep ++ r)) sep ≡ p ∷ split_of r sep }
    ensures last { (sep p : List ℕ) → sep ≢ [] → StandsFirst sep p [] → split_of (p ++ (sep ++ [])) sep ≡ p ∷ [] ∷ [] }
    ensures whole { (s sep : List ℕ) → s ≢ [] → sep ≢ [] → (HasSubslice s sep → ⊥) → split_of s sep ≡ s ∷ [] }
{}

/// A union has exactly the keys of both, in order, each with the value of the right, or else of the left.
pub fn union_has_the_keys_of_both()
    ensures found { (k : List ℕ) (ms ns : Members) → member_at k (union ms ns) ≡ right_or_left (member_at k ns) (member_at k ms) }
    ensures ordered { (ms ns : Members) → IsInOrder ms → IsInOrder (union ms ns) }
{}

/// A recursive union has exactly the keys of both, in order, each with the value of the right united with that of the left,
/// or else with that of the left.
pub fn deep_union_has_the_keys_of_both()
    ensures found { (k : List ℕ) (ms ns : Members) → member_at k (deep_union ms ns) ≡ right_or_left (option_map (united (member_or_null k ms)) (member_at k ns)) (member_at k ms) }
    ensures ordered { (ms ns : Members) → IsInOrder ms → IsInOrder (deep_union ms ns) }
{}
