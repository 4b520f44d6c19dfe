// Buckets, so that a name is compared with only a few others.
ghost use Rattle.std.specs.Prelude.{◌≡◌, ◌<◌, slice_index_or, string_bytes};
ghost use Rattle.jq_state.specs.Buckets.{bucket_of, bucket};

use crate::environments::ProgramBinding;

// The number of buckets.
pub(crate) const BUCKETS: usize = 128;

// Used for variables in place of a function's count of parameters.
pub(crate) const VARIABLE: usize = 7;

// The bucket of a name and a count of parameters.
#[inline]
pub(crate) fn bucket(name: &str, count: usize) -> usize
    ensures value { result ≡ bucket name.now count }
    ensures within { result < 128 }
{
    let bytes = name.as_bytes();
    let first = byte_at(bytes, 0);
    let last = byte_at(bytes, bytes.len().saturating_sub(1));
    (31 * (bytes.len() % BUCKETS) + 2 * first + 11 * last + 16 * (count % 8)) % BUCKETS
}

// The byte at an index, or 0 after the end.
#[inline(always)]
fn byte_at(bytes: &[u8], index: usize) -> usize
    ensures value { result ≡ slice_index_or bytes.now index 0 }
    ensures within { result < 256 }
{
    match bytes.get(index) {
        Some(byte) => *byte as usize,
        None => 0,
    }
}

// The bucket of a binding of the program.
pub(crate) fn bucket_of(binding: &ProgramBinding) -> usize
    ensures value { result ≡ bucket_of binding.now }
    ensures within { result < 128 }
{
    match binding {
        ProgramBinding::Value(name, _) => bucket(name.as_str(), VARIABLE),
        ProgramBinding::Function(function) => {
            bucket(function.name.as_str(), function.parameters.len())
        }
    }
}
