//! The subcommands `show` and `md4`: the fields of a datagram, and the digest of a message.

ghost use Rattle.std.specs.Prelude.{◌≡◌, ◌≢◌, ◌⊎◌, true, false, None, Some, Err, IfOk, IfErr, IsErr, OnOk};
ghost use Rattle.std.specs.Io.KnownBytes.{Appends};
ghost use Rattle.std.specs.Option.{option_copied};
ghost use Rattle.pdu_text.specs.HexText.{initial_value_of, octets_of};
ghost use Rattle.rasta_run.specs.DigestMessage.{message_of};
ghost use Rattle.rasta_run.specs.ShowOutput.{HasDigested, HasShown, digest_line};
ghost use Rattle.rasta_words.specs.Status.{status_of};

use pdu_text::{HexFault, hex_octets, initial_value, show, write_hex};
use rasta_words::{Fault, Status, report};
use safe_pdu::{CodeLength, CodeRule};
use std::alloc::Global;
use std::io;
use std::io::Write;

/// Runs `show`: decodes the datagram that `hex` spells, with a safety code of this length over an initial value of
/// 32 hex digits (that of RFC 1320 if none is given), and prints its fields. A text that is not hex digits, or is
/// empty, is `fault: hex`.
pub fn run_show<O: Write, E: Write>(
    alloc: Global,
    code: CodeLength,
    iv: Option<&str>,
    hex: &str,
    out: &mut O,
    err: &mut E,
) -> Status
    // `run_show` returns `Done` only if it has written the whole text of the bytes that the hex text spells, and
    // no line names a fault.
    ensures done { result ≡ Status.Done
        → HasShown code (option_copied iv.entry) hex.now true (O.contents out.old) (O.contents out.new) }

    // `run_show` returns `Refused` only if it has written the whole text and a line names a fault, or has written
    // nothing.
    ensures refused { result ≡ Status.Refused
        → HasShown code (option_copied iv.entry) hex.now false (O.contents out.old) (O.contents out.new)
        ⊎ (out.new ≡ out.old) }
    // If the initial value is not 32 hex digits, `run_show` returns `Refused` and writes nothing.
    ensures no_value { initial_value_of (option_copied iv.entry) ≡ None
        → (result ≡ Status.Refused) × (out.new ≡ out.old) }
    // If the text is not hex digits, `run_show` returns `Refused` and writes nothing.
    ensures no_octets { octets_of hex.now ≡ None → (result ≡ Status.Refused) × (out.new ≡ out.old) }
    // `run_show` never returns `WrongWords`.
    ensures words { result ≢ Status.WrongWords }
{
    match show_hex(alloc, code, iv, hex, out) {
        Ok(true) => Status::Done,
        Ok(false) => Status::Refused,
        Err(fault) => report(err, fault),
    }
}

/// Runs `md4`: prints the MD4 digest (RFC 1320) of the bytes that `hex` spells, as 32 hex digits. The word `empty`
/// is the empty message. A text that is not hex digits, or is empty, is `fault: hex`.
pub fn run_md4<O: Write, E: Write>(alloc: Global, hex: &str, out: &mut O, err: &mut E) -> Status
    // `run_md4` returns `Done` only if it has written the digest of the bytes that the hex text spells, or of no
    // bytes for the word `empty`.
    ensures done { result ≡ Status.Done → HasDigested hex.now (O.contents out.old) (O.contents out.new) }
    // `run_md4` returns `Refused` only if it has written nothing.
    ensures refused { result ≡ Status.Refused → out.new ≡ out.old }
    // If the text is neither hex digits nor the word for an empty message, `run_md4` returns `Refused`.
    ensures no_octets { message_of hex.now ≡ None → result ≡ Status.Refused }
    // `run_md4` never returns `WrongWords`.
    ensures words { result ≢ Status.WrongWords }
{
    match digest_hex(alloc, hex, out) {
        Ok(()) => Status::Done,
        Err(fault) => report(err, fault),
    }
}

/// Writes the digest of the message that a text names.
fn digest_hex<O: Write>(alloc: Global, hex: &str, out: &mut O) -> Result<(), Fault>
    // If `digest_hex` succeeds, it has appended the line of the digest of the message.
    ensures ok { OnOk result (HasDigested hex.now (O.contents out.old) (O.contents out.new)) }
    // If `digest_hex` fails with a fault of status `Refused`, it has written nothing.
    ensures untouched { IfErr result (λ fault. status_of fault ≡ Status.Refused → out.new ≡ out.old) }
    // If the text names no message, `digest_hex` fails with `Hex` or `Memory`.
    ensures no_octets { message_of hex.now ≡ None → (result ≡ Err Fault.Hex) ⊎ (result ≡ Err Fault.Memory) }
    // `digest_hex` fails with `Hex` only if the text names no message.
    ensures hex { result ≡ Err Fault.Hex → message_of hex.now ≡ None }
{
    let octets = match message_octets(alloc, hex) {
        Ok(octets) => octets,
        Err(fault) => return Err(fault),
    };
    match write_digest(out, octets.as_slice()) {
        Ok(()) => Ok(()),
        Err(_) => Err(Fault::Output),
    }
}

/// Returns the bytes that a text names: those of its hex digits, or none for the word `empty`.
fn message_octets(alloc: Global, text: &str) -> Result<Vec<u8>, Fault>
    // If `message_octets` succeeds, its result is the message that the text names.
    ensures ok { IfOk result (λ octets. message_of text.now ≡ Some octets.items) }
    // If the text names no message, `message_octets` fails with `Hex` or `Memory`.
    ensures none { message_of text.now ≡ None → (result ≡ Err Fault.Hex) ⊎ (result ≡ Err Fault.Memory) }
    // `message_octets` fails only with `Hex` or `Memory`.
    ensures kinds { IsErr result → (result ≡ Err Fault.Hex) ⊎ (result ≡ Err Fault.Memory) }
    // `message_octets` fails with `Hex` only if the text names no message.
    ensures hex { result ≡ Err Fault.Hex → message_of text.now ≡ None }
{
    if text == "empty" {
        return Ok(Vec::new(alloc));
    }
    spelled_octets(alloc, text)
}

/// Writes the line of the digest of a message.
fn write_digest<O: Write>(out: &mut O, octets: &[u8]) -> io::Result<()>
    ensures { OnOk result (Appends (O.contents out.old) (O.contents out.new) (digest_line octets.now)) }
{
    let digest = md4::digest(md4::INITIAL_VALUE, octets);
    write_hex(out, &digest)?;
    out.write_all(b"\n")
}

/// Writes the text of the datagram that hex digits spell, and returns whether it has no fault.
fn show_hex<O: Write>(
    alloc: Global,
    code: CodeLength,
    iv: Option<&str>,
    hex: &str,
    out: &mut O,
) -> Result<bool, Fault>
    // If `show_hex` succeeds, it has appended the whole text of the bytes, and returns whether no line names a
    // fault.
    ensures ok { IfOk result
        (λ clean. HasShown code (option_copied iv.entry) hex.now clean (O.contents out.old) (O.contents out.new)) }
    // If `show_hex` fails with a fault of status `Refused`, it has written nothing.
    ensures untouched { IfErr result (λ fault. status_of fault ≡ Status.Refused → out.new ≡ out.old) }
    // If the initial value is not 32 hex digits, `show_hex` fails with `Hex`.
    ensures no_value { initial_value_of (option_copied iv.entry) ≡ None → result ≡ Err Fault.Hex }
    // If the text is not hex digits, `show_hex` fails with `Hex` or `Memory`.
    ensures no_octets { octets_of hex.now ≡ None → (result ≡ Err Fault.Hex) ⊎ (result ≡ Err Fault.Memory) }
    // `show_hex` fails with `Hex` only if the initial value or the text is not hex digits.
    ensures hex { result ≡ Err Fault.Hex
        → (initial_value_of (option_copied iv.entry) ≡ None) ⊎ (octets_of hex.now ≡ None) }
{
    let Some(words) = initial_value(iv) else {
        return Err(Fault::Hex);
    };
    let octets = match spelled_octets(alloc, hex) {
        Ok(octets) => octets,
        Err(fault) => return Err(fault),
    };
    let rule = CodeRule {
        length: code,
        initial_value: words,
    };
    match show(octets.as_slice(), &rule, out) {
        Ok(clean) => Ok(clean),
        Err(_) => Err(Fault::Output),
    }
}

/// Returns the bytes that hex digits spell, or the fault that the program prints.
fn spelled_octets(alloc: Global, text: &str) -> Result<Vec<u8>, Fault>
    // If `spelled_octets` succeeds, its result is the bytes that the text spells.
    ensures ok { IfOk result (λ octets. octets_of text.now ≡ Some octets.items) }
    // If the text is not hex digits, `spelled_octets` fails with `Hex` or `Memory`.
    ensures none { octets_of text.now ≡ None → (result ≡ Err Fault.Hex) ⊎ (result ≡ Err Fault.Memory) }
    // `spelled_octets` fails only with `Hex` or `Memory`.
    ensures kinds { IsErr result → (result ≡ Err Fault.Hex) ⊎ (result ≡ Err Fault.Memory) }
    // `spelled_octets` fails with `Hex` only if the text is not hex digits.
    ensures hex { result ≡ Err Fault.Hex → octets_of text.now ≡ None }
{
    match hex_octets(alloc, text) {
        Ok(octets) => Ok(octets),
        Err(HexFault::Hex) => Err(Fault::Hex),
        Err(HexFault::Memory) => Err(Fault::Memory),
    }
}
