//! The commands of a script's lines.

use crate::fault::ScriptLineFault;
use crate::label::Label;
use crate::settings::{Key, Setting};
use crate::words::Words;
use arrayvec::ArrayVec;
use end_settings::{Side, Versions};
use pdi_session::VERSIONS_MAX;
use std::alloc::{Allocator, Global};

/// Largest payload of `putlen`, in bytes.
pub const ZEROS_MAX: usize = 1000;

/// The command of a line.
#[derive(Drop)]
pub enum Command<A: Allocator = Global> {
    /// An empty line.
    Nothing,
    /// `set KEY N`: a setting of later openings.
    Set(Setting),
    /// `versions fe N ..`: the PDI versions of field elements opened later.
    Versions(Versions),
    /// `open END`.
    Open(Side),
    /// `close END`: the user closes the end.
    Close(Side),
    /// `clock END MS`: the end's clock from now on, in milliseconds.
    Clock(Side, u64),
    /// `tick END`: a tick at the end's clock.
    Tick(Side),
    /// `put END KIND HEX`: puts one telegram.
    Put(Side, u16, Vec<u8, A>),
    /// `putlen END KIND N`: puts one telegram with a payload of N zero bytes.
    PutZeros(Side, u16, usize),
    /// `puts END N KIND`: puts N telegrams; the payload of the k-th, from 0, is the byte k.
    PutCounted(Side, u64, u16),
    /// `done`: the field element's application has put its initial status.
    InitDone,
    /// `give LABEL CH`: delivers a datagram on a channel.
    Give(Label, u64),
    /// `hit LABEL CH PLACE XX`: the same, after the byte at a place is XORed with XX.
    Hit(Label, u64, u64, u8),
    /// `lose LABEL`: names a label without delivering it.
    Lose(Label),
    /// `flow CH ..`: delivers each datagram that no line has named yet, on each of these channels.
    Flow(Vec<u64, A>),
    /// `est`: opens both ends and establishes a session.
    Establish,
    /// `trace`, `trace off`: from now on each step is printed, or not.
    Trace(bool),
}

/// Reads a line.
///
/// # Errors
///
/// - `Unreadable` if the line is not in the language, or a number is too large for its place;
/// - `Memory` if an allocation fails.
pub fn read_line<A: Allocator + Copy>(alloc: A, line: &str) -> Result<Command<A>, ScriptLineFault> {
    let mut words = Words::new(line);
    let Some(first) = words.next() else {
        return Ok(Command::Nothing);
    };
    let found = match first {
        "give" | "hit" | "lose" | "flow" => delivery(alloc, first, &mut words)?,
        "put" | "putlen" | "puts" => read_put(alloc, first, &mut words)?,
        "set" => Command::Set(read_setting(&mut words)?),
        "versions" => versions(alloc, &mut words)?,
        "open" => Command::Open(words.side()?),
        "close" => Command::Close(words.side()?),
        "clock" => Command::Clock(words.side()?, words.number(u64::MAX)?),
        "tick" => Command::Tick(words.side()?),
        "done" => Command::InitDone,
        "est" => Command::Establish,
        "trace" => Command::Trace(trace(&mut words)?),
        _ => return Err(ScriptLineFault::Unreadable),
    };
    words.end()?;
    Ok(found)
}

/// Reads a line that names datagrams.
fn delivery<A: Allocator + Copy>(
    alloc: A,
    first: &str,
    words: &mut Words<'_>,
) -> Result<Command<A>, ScriptLineFault> {
    match first {
        "give" => Ok(Command::Give(words.label()?, words.number(u64::MAX)?)),
        "hit" => {
            let label = words.label()?;
            let channel = words.number(u64::MAX)?;
            let place = words.number(u64::MAX)?;
            Ok(Command::Hit(label, channel, place, words.octet()?))
        }
        "lose" => Ok(Command::Lose(words.label()?)),
        _ => {
            let channels = words.numbers(alloc, u64::MAX)?;
            if channels.is_empty() {
                return Err(ScriptLineFault::Unreadable);
            }
            Ok(Command::Flow(channels))
        }
    }
}

/// Reads a line that puts telegrams.
fn read_put<A: Allocator + Copy>(
    alloc: A,
    first: &str,
    words: &mut Words<'_>,
) -> Result<Command<A>, ScriptLineFault> {
    let side = words.side()?;
    match first {
        "put" => Ok(Command::Put(side, words.kind()?, words.octets(alloc)?)),
        "putlen" => {
            let kind = words.kind()?;
            let length = words.number(ZEROS_MAX as u64)?;
            Ok(Command::PutZeros(side, kind, length as usize))
        }
        _ => {
            let count = words.number(256)?;
            Ok(Command::PutCounted(side, count, words.kind()?))
        }
    }
}

/// Reads a setting: a key and a number.
fn read_setting(words: &mut Words<'_>) -> Result<Setting, ScriptLineFault> {
    let key = Key::of(words.word()?).ok_or(ScriptLineFault::Unreadable)?;
    let value = words.number(u64::from(key.greatest()))?;
    Ok(Setting {
        key,
        value: (value & 0xffff_ffff) as u32,
    })
}

/// Reads the versions of a field element; the interlocking has only one.
fn versions<A: Allocator + Copy>(
    alloc: A,
    words: &mut Words<'_>,
) -> Result<Command<A>, ScriptLineFault> {
    if words.side()? != Side::FieldElement {
        return Err(ScriptLineFault::Unreadable);
    }
    let mut list = ArrayVec::<u8, VERSIONS_MAX>::new();
    for version in words.numbers(alloc, u64::from(u8::MAX))?.iter() {
        if list.try_push((*version & 0xff) as u8).is_err() {
            return Err(ScriptLineFault::Unreadable);
        }
    }
    if list.is_empty() {
        return Err(ScriptLineFault::Unreadable);
    }
    match Versions::new(list.as_slice()) {
        Some(versions) => Ok(Command::Versions(versions)),
        None => Err(ScriptLineFault::Unreadable),
    }
}

/// Reads the rest of a `trace` line.
fn trace(words: &mut Words<'_>) -> Result<bool, ScriptLineFault> {
    match words.next() {
        None => Ok(true),
        Some("off") => Ok(false),
        Some(_) => Err(ScriptLineFault::Unreadable),
    }
}
