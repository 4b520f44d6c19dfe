// Laws of the members of objects: of the definitions, and of an object of the code, whose keys are in order.
ghost use Rattle.std.specs.Prelude.{◌≡◌, ◌≢◌, ℕ, List, Some, None};
ghost use Rattle.jv_data.specs.Held.{members_in};
ghost use Rattle.jv_data.specs.Members.{IsInOrder, member_at, put, without};
ghost use Rattle.jv_data.specs.Value.{Value, Members};

use crate::{Object, Val};

/// The keys of an object are in the order of their code points, each key once.
pub fn keys_rise(object: &Object<Val>)
    ensures { IsInOrder (members_in object.now) }
{
    object.len();
}

/// A value that is put at a key is found there, each other key keeps its value, and keys in order stay in order.
pub fn put_changes_one_key()
    ensures found { (k : List ℕ) (v : Value) (ms : Members) → member_at k (put k v ms) ≡ Some v }
    ensures others { (j k : List ℕ) (v : Value) (ms : Members) → j ≢ k → member_at j (put k v ms) ≡ member_at j ms }
    ensures ordered { (k : List ℕ) (v : Value) (ms : Members) → IsInOrder ms → IsInOrder (put k v ms) }
{}

/// A removed key has no value, each other key keeps its value, and keys in order stay in order.
pub fn without_removes_one_key()
    ensures gone { (k : List ℕ) (ms : Members) → IsInOrder ms → member_at k (without k ms) ≡ None }
    ensures others { (j k : List ℕ) (ms : Members) → j ≢ k → member_at j (without k ms) ≡ member_at j ms }
    ensures ordered { (k : List ℕ) (ms : Members) → IsInOrder ms → IsInOrder (without k ms) }
{}
