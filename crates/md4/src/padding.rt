//! The last blocks of a message, which the padding fills (RFC 1320, sections 3.1 and 3.2).

ghost use Rattle.std.specs.Prelude.{◌≡◌, ℕ, ◌<◌, ◌∷◌, ◌++◌, ◌-◌, ◌*◌, ◌%◌, ◌^◌, List, length, take, replicate};
ghost use Rattle.byteorder.specs.Endian.{little_bytes};
ghost use Rattle.md4.specs.Digest.{digest, octets_of_words};
ghost use Rattle.md4.specs.Md4.{HasTaken};

use crate::{BLOCK_SIZE, block};

/// Returns a block of the last bytes of a message, followed by the byte 0x80 and zeros.
#[inline(always)]
fn begun(behind: &[u8]) -> [u8; BLOCK_SIZE]
    requires { length behind.now < 64 }
    ensures { result ≡ behind.now ++ 0x80 ∷ replicate (63 - length behind.now) 0 }
{
    let mut block = [0; BLOCK_SIZE];
    block[..behind.len()].copy_from_slice(behind);
    block[behind.len()] = 0x80;
    block
}

/// Returns the block with the number of the message's bits in its last 8 bytes.
#[inline(always)]
fn with_bit_count(mut block: [u8; BLOCK_SIZE], bits: u64) -> [u8; BLOCK_SIZE]
    ensures { result ≡ take 56 block ++ little_bytes 8 bits }
{
    block[BLOCK_SIZE - 8..].copy_from_slice(&bits.to_le_bytes());
    block
}

/// Returns the four words after the one or two last blocks: the bytes after the complete blocks, the byte
/// 0x80, zeros, and the number of the message's bits modulo 2^64.
#[inline(always)]
pub fn after_last_blocks(mut words: [u32; 4], behind: &[u8], bits: u64) -> [u32; 4]
    requires { length behind.now < 64 }
    // The result is the digest of each message whose complete blocks gave the words, and which ends so.
    ensures { (iv octets : List ℕ) → HasTaken words behind.now iv octets → length behind.now ≡ length octets % 64 →
        bits ≡ length octets * 8 % 2 ^ 64 → octets_of_words result ≡ digest iv octets }
{
    let block = begun(behind);
    if behind.len() < BLOCK_SIZE - 8 {
        block::take_in(&mut words, &with_bit_count(block, bits));
    } else {
        block::take_in(&mut words, &block);
        block::take_in(&mut words, &with_bit_count([0; BLOCK_SIZE], bits));
    }
    words
}
