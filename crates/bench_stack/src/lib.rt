//! MD4, the decoders and the layers as C functions, which `bench/` times and compares. No part of the stack uses
//! this crate.
#![tactic(auto)]

ghost use Rattle.std.specs.Prelude.{◌≡◌, ◌<◌, ◌≤◌, ◌++◌, length};
ghost use Rattle.md4.specs.Digest.{digest};

use md4::{INITIAL_VALUE, Md4};
use octets::places::put_octets;
use red_layer::{RedConfig, RedEvent, RedLayer, Upward};
use safe_pdu::{CodeLength, CodeRule};
use std::alloc::Global;

mod end;
mod machine;

/// Writes the MD4 digest of the bytes to a buffer of 16 bytes.
///
/// C: `bench_md4(const uint8_t *, size_t, uint8_t *, size_t)`.
#[unsafe(no_mangle)]
pub extern "C" fn bench_md4(octets: &[u8], out: &mut [u8])
    requires { length out.old ≡ 16 }
    // The buffer holds the MD4 digest of the bytes (RFC 1320).
    ensures { out.new ≡ digest INITIAL_VALUE octets.now }
{
    out.copy_from_slice(&md4::digest(INITIAL_VALUE, octets));
}

/// Writes the MD4 digest of two pieces, one after the other, to a buffer of 16 bytes.
#[unsafe(no_mangle)]
pub extern "C" fn bench_md4_pieces(first: &[u8], second: &[u8], out: &mut [u8])
    requires { length out.old ≡ 16 }
    // The buffer holds the digest of the first piece followed by the second.
    ensures { out.new ≡ digest INITIAL_VALUE (first.now ++ second.now) }
{
    let mut md4 = Md4::new(INITIAL_VALUE);
    md4.update(first);
    md4.update(second);
    out.copy_from_slice(&md4.finish());
}

/// Decodes a datagram: redundancy PDU, safety PDU, unit and telegrams. The safety code has 16 bytes if `code` is
/// 16, otherwise 8, with the initial value of RFC 1320. Returns the number of payload bytes, or 1,000,000 if a
/// decoder fails.
///
/// C: `bench_decode(const uint8_t *, size_t, uint32_t)`.
#[unsafe(no_mangle)]
pub extern "C" fn bench_decode(datagram: &[u8], code: u32) -> u32 {
    payload_octets(datagram, &rule_of(code)).unwrap_or(1_000_000)
}

/// Returns the settings of a safety code of 16 bytes if `code` is 16, otherwise of 8, with the initial value of RFC
/// 1320.
fn rule_of(code: u32) -> CodeRule {
    let length = if code == 16 {
        CodeLength::Sixteen
    } else {
        CodeLength::Eight
    };
    CodeRule {
        length,
        initial_value: INITIAL_VALUE,
    }
}

/// Decodes a datagram and returns the number of payload bytes in its telegrams.
fn payload_octets(datagram: &[u8], rule: &CodeRule) -> Option<u32> {
    let red = red_layer::pdu::decode(datagram).ok()?;
    let safe = safe_pdu::decode(red.upper, rule).ok()?;
    let messages = pdi_session::packing::unpack(safe.body).ok()?;
    let mut octets = 0u32;
    for message in messages.as_slice() {
        let telegram = pdi_session::telegram::decode(message).ok()?;
        octets = octets.wrapping_add(telegram.payload.len() as u32);
    }
    Some(octets)
}

/// Takes parts and discards them.
#[derive(Drop)]
struct Nowhere;

impl Upward for Nowhere {
    ghost passes = { λ _ _ _. Unit {0} };

    ghost ready = { λ _ _. Unit {0} };

    fn up(&mut self, _seq: u32, _upper: &[u8]) {}

    ghost later = { λ _ _ _ _ h. h };
}

/// Passes datagrams of one size to a new receiving half of the redundancy layer, all of them `times` times. Returns
/// how many were dropped as old.
///
/// C: `bench_repeats(const uint8_t *, size_t, size_t, uint32_t)`.
#[unsafe(no_mangle)]
pub extern "C" fn bench_repeats(alloc: Global, datagrams: &[u8], size: usize, times: u32) -> u32
    requires { 0 < size }
{
    let Ok(mut layer) = RedLayer::open(alloc, RedConfig { q: 4, t_seq: 50 }) else {
        return 0;
    };
    let mut dropped = 0u32;
    for _ in 0..times {
        for datagram in datagrams.chunks_exact(size) {
            if layer.arrive(datagram, 0, &mut Nowhere) == RedEvent::Old {
                dropped = dropped.wrapping_add(1);
            }
        }
    }
    dropped
}

/// Writes bytes after the filled part of a buffer, if there is room. Returns how many bytes are filled.
fn append(row: &mut [u8], filled: usize, more: &[u8]) -> usize
    requires { filled ≤ length row.old }
    ensures { result ≤ length row.new }
{
    if more.len() > row.len() - filled {
        return filled;
    }
    put_octets(row, filled, more);
    filled + more.len()
}
