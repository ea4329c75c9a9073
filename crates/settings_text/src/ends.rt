//! The settings of ends, in the form of a settings file.

ghost use Rattle.std.specs.Prelude.{◌≡◌, OnOk, map, string_bytes};
ghost use Rattle.std.specs.Io.KnownBytes.{Appends};
ghost use Rattle.safe_pdu.specs.SafeText.{code_octets};
ghost use Rattle.end_settings.specs.ConfigValue.{code_of, settings_of};
ghost use Rattle.settings_file.specs.FileContents.{ends_seen, settings_seen};
ghost use Rattle.settings_text.specs.InForce.{address_lines, all_lines, beginning_lines, count_lines, end_lines, expected_lines, head_text, identity_lines, limit_lines, settings_text, time_lines};

use crate::lists::{write_addresses, write_puts, write_versions};
use crate::pieces::{write_bytes, write_first, write_initial_value, write_number, write_quoted};
use end_settings::{EndConfig, Side};
use pdu_text::write_text;
use settings_file::{Ends, Key, Settings};
use std::io;
use std::io::Write;

/// Writes the settings in force: first a comment with the words of the program that take such a file, then a line
/// `KEY = VALUE` for each key, with its default if the file does not have it. In a file for both ends the keys begin
/// with `il.` or `fe.`. What it writes is a settings file with the same settings.
///
/// # Errors
///
/// - The error of the writer.
#[tactic(auto, unfolding(crate::specs::InForce::settings_text))]
pub fn write_settings<W: Write>(writer: &mut W, ends: &Ends) -> io::Result<()>
    // If it succeeds, `write_settings` has appended the comment and the line of each key with its value.
    ensures { OnOk result (Appends (W.contents writer.old) (W.contents writer.new) (settings_text (ends_seen ends.now))) }
{
    write_head(writer, ends)?;
    write_ends(writer, ends)
}

/// Writes the words of the program that take such a file.
#[tactic(auto, unfolding(crate::specs::InForce::head_text))]
fn write_head<W: Write>(writer: &mut W, ends: &Ends) -> io::Result<()>
    ensures { OnOk result (Appends (W.contents writer.old) (W.contents writer.new) (head_text (ends_seen ends.now))) }
{
    match ends {
        Ends::Il(_) => write_text(writer, "# for il or fe\n"),
        Ends::Fe(_) => write_text(writer, "# for fe\n"),
        Ends::Pair(_, _) => write_text(writer, "# for pair\n"),
    }
}

/// Writes the lines of all ends.
#[tactic(auto, unfolding(crate::specs::InForce::all_lines))]
fn write_ends<W: Write>(writer: &mut W, ends: &Ends) -> io::Result<()>
    ensures { OnOk result (Appends (W.contents writer.old) (W.contents writer.new) (all_lines (ends_seen ends.now))) }
{
    match ends {
        Ends::Il(il) => write_end(writer, None, il),
        Ends::Fe(fe) => write_end(writer, None, fe),
        Ends::Pair(il, fe) => {
            write_end(writer, Some(Side::Interlocking), il)?;
            write_end(writer, Some(Side::FieldElement), fe)
        }
    }
}

/// Writes the lines of an end.
#[tactic(auto, unfolding(crate::specs::InForce::end_lines))]
fn write_end<W: Write>(writer: &mut W, named: Option<Side>, settings: &Settings) -> io::Result<()>
    ensures { OnOk result (Appends (W.contents writer.old) (W.contents writer.new) (end_lines named (settings_seen settings.now))) }
{
    write_identity(writer, named, &settings.config)?;
    write_beginning(writer, named, &settings.config, settings.first_sn)?;
    write_channels(
        writer,
        named,
        settings.local.as_slice(),
        settings.remote.as_slice(),
    )?;
    write_limits(writer, named, &settings.config)?;
    write_puts(writer, named, settings.puts.as_slice())
}

/// Writes what an end with these settings expects of its peer's telegrams, in the form of a settings file for both
/// ends: the keys from `id` to `versions`.
///
/// # Errors
///
/// - The error of the writer.
#[tactic(auto, unfolding(crate::specs::InForce::expected_lines))]
pub fn write_expected<W: Write>(writer: &mut W, side: Side, config: &EndConfig) -> io::Result<()>
    // If it succeeds, `write_expected` has appended the lines from `id` to `versions`, with the name of the end.
    ensures { OnOk result (Appends (W.contents writer.old) (W.contents writer.new) (expected_lines side (settings_of config.now))) }
{
    write_identity(writer, Some(side), config)?;
    write_versions(writer, Some(side), config.versions.as_slice())
}

/// Writes the lines of identifiers, names and protocol type.
#[tactic(auto, unfolding(crate::specs::InForce::identity_lines))]
fn write_identity<W: Write>(
    writer: &mut W,
    named: Option<Side>,
    config: &EndConfig,
) -> io::Result<()>
    ensures { OnOk result (Appends (W.contents writer.old) (W.contents writer.new) (identity_lines named (settings_of config.now))) }
{
    write_number(writer, named, Key::Id, u64::from(config.id))?;
    write_number(writer, named, Key::PeerId, u64::from(config.peer_id))?;
    write_quoted(writer, named, Key::Name, config.name.name().as_str())?;
    write_quoted(
        writer,
        named,
        Key::PeerName,
        config.peer_name.name().as_str(),
    )?;
    write_number(writer, named, Key::Protocol, u64::from(config.protocol))
}

/// Writes the lines of what an end uses to connect.
#[tactic(auto, unfolding(crate::specs::InForce::beginning_lines))]
fn write_beginning<W: Write>(
    writer: &mut W,
    named: Option<Side>,
    config: &EndConfig,
    first_sn: Option<u32>,
) -> io::Result<()>
    ensures { OnOk result (Appends (W.contents writer.old) (W.contents writer.new)
        (beginning_lines named (settings_of config.now) first_sn)) }
{
    write_versions(writer, named, config.versions.as_slice())?;
    write_number(writer, named, Key::Code, code_size(config.code))?;
    write_bytes(writer, named, Key::Checksum, config.checksum.as_slice())?;
    write_initial_value(writer, named, &config.initial_value)?;
    write_first(writer, named, first_sn)
}

/// Returns the size of the safety code that an end has with this setting.
fn code_size(code: u64) -> u64
    ensures { result ≡ code_octets (code_of code) }
{
    match code {
        8 => 8,
        16 => 16,
        _ => 0,
    }
}

/// Writes the lines of addresses.
#[tactic(auto, unfolding(crate::specs::InForce::address_lines))]
fn write_channels<W: Write>(
    writer: &mut W,
    named: Option<Side>,
    local: &[String],
    remote: &[String],
) -> io::Result<()>
    ensures { OnOk result (Appends (W.contents writer.old) (W.contents writer.new)
        (address_lines named (map string_bytes local.now) (map string_bytes remote.now))) }
{
    write_addresses(writer, named, Key::Local, local)?;
    write_addresses(writer, named, Key::Remote, remote)
}

/// Writes the lines of limits.
#[tactic(auto, unfolding(crate::specs::InForce::limit_lines))]
fn write_limits<W: Write>(writer: &mut W, named: Option<Side>, config: &EndConfig) -> io::Result<()>
    ensures { OnOk result (Appends (W.contents writer.old) (W.contents writer.new) (limit_lines named (settings_of config.now))) }
{
    write_counts(writer, named, config)?;
    write_times(writer, named, config)?;
    write_number(writer, named, Key::Mwa, config.mwa)?;
    write_number(writer, named, Key::PduLimit, config.pdu_limit)
}

/// Writes the lines of limits that count.
#[tactic(auto, unfolding(crate::specs::InForce::count_lines))]
fn write_counts<W: Write>(writer: &mut W, named: Option<Side>, config: &EndConfig) -> io::Result<()>
    ensures { OnOk result (Appends (W.contents writer.old) (W.contents writer.new) (count_lines named (settings_of config.now))) }
{
    write_number(writer, named, Key::NSendmax, config.n_sendmax)?;
    write_number(writer, named, Key::NMaxpacket, config.n_maxpacket)?;
    write_number(writer, named, Key::Deferral, config.q)
}

/// Writes the lines of times.
#[tactic(auto, unfolding(crate::specs::InForce::time_lines))]
fn write_times<W: Write>(writer: &mut W, named: Option<Side>, config: &EndConfig) -> io::Result<()>
    ensures { OnOk result (Appends (W.contents writer.old) (W.contents writer.new) (time_lines named (settings_of config.now))) }
{
    write_number(writer, named, Key::TMax, config.t_max)?;
    write_number(writer, named, Key::THeartbeat, config.t_h)?;
    write_number(writer, named, Key::TSeq, config.t_seq)
}
