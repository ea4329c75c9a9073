//! The three rounds over a block of 64 bytes, and the bytes of a digest (RFC 1320, sections 3.4 and 3.5).
//!
//! The rounds are twelve rows of four inlined steps, not a loop over tables, so that the four words stay in
//! registers.

ghost use Rattle.std.specs.Prelude.{◌≡◌, ℕ, ◌+◌, ◌%◌, ◌^◌, ◌<◌, List, [], ◌∷◌, length, fold, slice_index};
ghost use Rattle.md4.specs.Digest.{conditional, majority, parity, rotate_sum, first_round, second_round, third_round, four_steps, after_round, after_block, blocks_of, octets_of_words};
ghost use Rattle.md4.specs.Rows.{HasAdded};

use crate::BLOCK_SIZE;
use byteorder::{ByteOrder, LittleEndian};
use octets::places::put_u32;

/// The constant of the second round.
const SECOND_ADDED: u32 = 0x5a82_7999;

/// The constant of the third round.
const THIRD_ADDED: u32 = 0x6ed9_eba1;

/// Returns F of three words (RFC 1320, section 3.4).
#[inline(always)]
fn conditional(x: u32, y: u32, z: u32) -> u32
    ensures { result ≡ conditional x y z }
{
    (x & y) | (!x & z)
}

/// Returns G of three words (RFC 1320, section 3.4).
#[inline(always)]
fn majority(x: u32, y: u32, z: u32) -> u32
    ensures { result ≡ majority x y z }
{
    // A sum, because only its second part waits for `x`, which the previous step makes.
    (y & z).wrapping_add(x & (y ^ z))
}

/// Returns H of three words (RFC 1320, section 3.4).
#[inline(always)]
fn parity(x: u32, y: u32, z: u32) -> u32
    ensures { result ≡ parity x y z }
{
    x ^ y ^ z
}

/// Returns the new word of a step, whose constant is already in `word`.
#[inline(always)]
fn step_word(a: u32, mixed: u32, word: u32, shift: u32) -> u32
    ensures { result ≡ rotate_sum a mixed word 0 shift }
{
    // `mixed` waits for the previous step, so it is added last.
    a.wrapping_add(word).wrapping_add(mixed).rotate_left(shift)
}

/// Takes four steps of the first round.
#[inline(always)]
fn first_four(v: [u32; 4], row: [u32; 4]) -> [u32; 4]
    ensures { result ≡ four_steps first_round v row }
{
    let [a, b, c, d] = v;
    let a = step_word(a, conditional(b, c, d), row[0], 3);
    let d = step_word(d, conditional(a, b, c), row[1], 7);
    let c = step_word(c, conditional(d, a, b), row[2], 11);
    let b = step_word(b, conditional(c, d, a), row[3], 19);
    [a, b, c, d]
}

/// Takes four steps of the second round.
#[inline(always)]
fn second_four(v: [u32; 4], row: [u32; 4]) -> [u32; 4]
    ensures { (words : List ℕ) → HasAdded second_round words row → result ≡ four_steps second_round v words }
{
    let [a, b, c, d] = v;
    let a = step_word(a, majority(b, c, d), row[0], 3);
    let d = step_word(d, majority(a, b, c), row[1], 5);
    let c = step_word(c, majority(d, a, b), row[2], 9);
    let b = step_word(b, majority(c, d, a), row[3], 13);
    [a, b, c, d]
}

/// Takes four steps of the third round.
#[inline(always)]
fn third_four(v: [u32; 4], row: [u32; 4]) -> [u32; 4]
    ensures { (words : List ℕ) → HasAdded third_round words row → result ≡ four_steps third_round v words }
{
    let [a, b, c, d] = v;
    let a = step_word(a, parity(b, c, d), row[0], 3);
    let d = step_word(d, parity(a, b, c), row[1], 9);
    let c = step_word(c, parity(d, a, b), row[2], 11);
    let b = step_word(b, parity(c, d, a), row[3], 15);
    [a, b, c, d]
}

/// Returns the words of a block with a round's constant added. It is not inlined: otherwise the compiler
/// adds the constant last in each step, and the next step waits for it (about a sixth more time for a long
/// message).
#[inline(never)]
fn add_constant(w: &[u32; 16], added: u32) -> [u32; 16]
    ensures { (k : ℕ) → k < 16 → slice_index result k ≡ (slice_index w.now k + added) % 2 ^ 32 }
{
    let mut sums = [0u32; 16];
    'words: for i in 0..16 {
        sums[i] = w[i].wrapping_add(added);
    }
    sums
}

/// Takes the sixteen steps of the first round.
#[inline(always)]
fn after_first(w: &[u32; 16], v: [u32; 4]) -> [u32; 4]
    ensures { result ≡ after_round first_round w.now v }
{
    let v = first_four(v, [w[0], w[1], w[2], w[3]]);
    let v = first_four(v, [w[4], w[5], w[6], w[7]]);
    let v = first_four(v, [w[8], w[9], w[10], w[11]]);
    first_four(v, [w[12], w[13], w[14], w[15]])
}

/// Takes the sixteen steps of the second round.
#[inline(always)]
fn after_second(w: &[u32; 16], v: [u32; 4]) -> [u32; 4]
    ensures { result ≡ after_round second_round w.now v }
{
    let w = add_constant(w, SECOND_ADDED);
    let v = second_four(v, [w[0], w[4], w[8], w[12]]);
    let v = second_four(v, [w[1], w[5], w[9], w[13]]);
    let v = second_four(v, [w[2], w[6], w[10], w[14]]);
    second_four(v, [w[3], w[7], w[11], w[15]])
}

/// Takes the sixteen steps of the third round.
#[inline(always)]
fn after_third(w: &[u32; 16], v: [u32; 4]) -> [u32; 4]
    ensures { result ≡ after_round third_round w.now v }
{
    let w = add_constant(w, THIRD_ADDED);
    let v = third_four(v, [w[0], w[8], w[4], w[12]]);
    let v = third_four(v, [w[2], w[10], w[6], w[14]]);
    let v = third_four(v, [w[1], w[9], w[5], w[13]]);
    third_four(v, [w[3], w[11], w[7], w[15]])
}

/// Updates the four words with a block of 64 bytes.
pub fn take_in(words: &mut [u32; 4], block: &[u8])
    requires { length block.now ≡ 64 }
    // The new words are the sums of the old ones and the words after the three rounds over the block.
    ensures { words.new ≡ after_block words.old block.now }
{
    let mut w = [0u32; 16];
    LittleEndian::read_u32_into(block, &mut w);
    let v = after_third(&w, after_second(&w, after_first(&w, *words)));
    *words = [
        words[0].wrapping_add(v[0]),
        words[1].wrapping_add(v[1]),
        words[2].wrapping_add(v[2]),
        words[3].wrapping_add(v[3]),
    ];
}

/// Updates the four words with complete blocks, one after another.
#[inline(always)]
pub fn take_in_all(words: &mut [u32; 4], blocks: &[u8])
    requires { length blocks.now % 64 ≡ 0 }
    // The new words are the old ones after each block in order.
    ensures { words.new ≡ fold after_block words.old (blocks_of blocks.now) }
{
    'blocks: for i in 0..blocks.len() / BLOCK_SIZE {
        let at = BLOCK_SIZE * i;
        take_in(words, &blocks[at..at + BLOCK_SIZE]);
    }
}

/// Returns the four words as bytes.
pub fn bytes_of_words(words: [u32; 4]) -> [u8; 16]
    // The result is the four words in order, each least significant byte first.
    ensures { result ≡ octets_of_words words }
{
    let mut octets = [0; 16];
    put_u32(&mut octets, 0, words[0]);
    put_u32(&mut octets, 4, words[1]);
    put_u32(&mut octets, 8, words[2]);
    put_u32(&mut octets, 12, words[3]);
    octets
}
