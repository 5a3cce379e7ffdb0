//! Which bytes are bases, and how many of them a text begins with.
ghost use Rattle.std.specs.Prelude.{◌≡◌, ◌<◌, ◌≤◌, ℕ, false, length, slice_index};
ghost use Rattle.iv_fasta.specs.Inside.Fasta.{is_no_base};

use std::simd::prelude::*;

/// How many bytes are looked at together.
const BLOCK: usize = 16;

/// Whether the byte is no base.
pub(crate) fn is_bad(byte: u8) -> bool
    ensures { result ≡ is_no_base byte }
{
    byte < 33 || byte > 126
}

/// How many bases a text begins with, among its first 16 bytes, which are looked at together.
#[inline(always)]
fn count_in_block(text: &[u8]) -> usize
    requires { 16 ≤ length text.now }
    ensures bases { (k : ℕ) → k < result → is_no_base (slice_index text.now k) ≡ false }
    ensures few { result ≤ 16 }
{
    let values = u8x16::from_slice(text) - u8x16::splat(33);
    let others = values.simd_gt(u8x16::splat(93)).to_bitmask();
    if others == 0 {
        return BLOCK;
    }
    others.trailing_zeros() as usize
}

/// How many bases a text begins with, looked at one by one.
fn count_slowly(text: &[u8]) -> usize
    ensures bases { (k : ℕ) → k < result → is_no_base (slice_index text.now k) ≡ false }
    ensures within { result ≤ length text.now }
{
    let mut count = 0;
    while count < text.len() && !is_bad(text[count]) {
        count += 1;
    }
    count
}

/// How many bases a text begins with, looked at block by block. Whole blocks don't wait for the count of those before them.
pub(crate) fn count_bases(text: &[u8]) -> usize
    ensures bases { (k : ℕ) → k < result → is_no_base (slice_index text.now k) ≡ false }
    ensures within { result ≤ length text.now }
{
    let mut count = 0;
    while text.len() - count >= BLOCK {
        let more = count_in_block(&text[count..]);
        if more < BLOCK {
            return count + more;
        }
        count += BLOCK;
    }
    count + count_slowly(&text[count..])
}
