// The bytes that may change the nesting state of a text, looked for in blocks.
ghost use Rattle.std.specs.Prelude.{◌≡◌, ◌==◌, ◌+◌, ◌<◌, ◌≤◌, ℕ, cond, get_or, length};
ghost use Rattle.std.specs.Int.{bit_at};
ghost use Rattle.jv_cut.specs.private.Walk.{AreMarked, ArePassed};

use crate::nesting::Quote;
use std::simd::prelude::*;

/// How many bytes a block has.
pub(crate) const BLOCK: usize = 64;

/// The quotes, backslashes and brackets of the block at a position: bit k is set if byte k of the block is one.
pub(crate) fn marks(bytes: &[u8], at: usize) -> u64
    requires { at + 64 ≤ length bytes.now }
    ensures { AreMarked result bytes.now at }
{
    let block = u8x64::from_slice(&bytes[at..]);
    let strings = equal_to(block, b'"') | equal_to(block, b'\\');
    let arrays = equal_to(block, b'[') | equal_to(block, b']');
    let objects = equal_to(block, b'{') | equal_to(block, b'}');
    strings | arrays | objects
}

#[inline(always)]
fn equal_to(block: u8x64, byte: u8) -> u64
    ensures { (k : ℕ) → k < 64 → bit_at result k ≡ cond (get_or block k 0 == byte) 1 0 }
{
    block.simd_eq(u8x64::splat(byte)).to_bitmask()
}

/// The place in the block, at or after `from`, of the next byte that may change the nesting state, or 64.
#[inline(always)]
pub(crate) fn next_place(marks: u64, from: usize, quote: Quote) -> usize
    requires { from ≤ 64 }
    ensures from { from ≤ result }
    ensures within { result ≤ 64 }
    ensures passed { ArePassed marks quote from result }
{
    if from >= BLOCK {
        return BLOCK;
    }
    match quote {
        Quote::Escaped => from,
        Quote::Outside => first_mark(marks, from),
        Quote::Inside => first_mark(marks, from),
    }
}

#[inline(always)]
fn first_mark(marks: u64, from: usize) -> usize
    requires { from < 64 }
    ensures from { from ≤ result }
    ensures within { result ≤ 64 }
    ensures none { (k : ℕ) → from ≤ k → k < result → bit_at marks k ≡ 0 }
{
    let skipped = (marks >> from).trailing_zeros() as usize;
    (from + skipped).min(BLOCK)
}
