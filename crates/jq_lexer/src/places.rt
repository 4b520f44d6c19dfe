// Positions in a text.
ghost use Rattle.std.specs.Prelude.{◌≡◌, ◌<◌, ◌^◌, length, encode_utf8_all};

/// The length of the characters in UTF-8, in bytes.
pub(crate) fn byte_count(characters: &[char]) -> usize
    requires { length (encode_utf8_all characters.now) < 2 ^ 64 }
    ensures { result ≡ length (encode_utf8_all characters.now) }
{
    let mut count = 0;
    for c in characters {
        count += c.len_utf8();
    }
    count
}
