// Bytes before and after a byte.
ghost use Rattle.jq_script.specs.private.Reading.{IsAround};

use memchr::memchr;

/// The bytes before the first occurrence of `byte`, and all bytes after it.
pub(crate) fn around(byte: u8, bytes: &[u8]) -> Option<(&[u8], &[u8])>
    ensures { IsAround byte bytes.now result }
{
    let at = memchr(byte, bytes)?;
    Some((&bytes[..at], &bytes[at + 1..]))
}
