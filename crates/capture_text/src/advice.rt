//! The settings that fit a recording, with their reasons, as lines.

ghost use Rattle.std.specs.Prelude.{◌≡◌, OnOk};
ghost use Rattle.std.specs.Io.KnownBytes.{Appends};
ghost use Rattle.capture_text.specs.Advice.{advice_lines, advice_text, advices_text, recording_advice_text, connection_text, delay_reason, delay_text, difference_reason, difference_text, few_word, from_text, load_text, advice_front, none_text, nothing_text, rule_text, settings_lines, settings_text, t_h_text, t_max_text, t_seq_text, three_text, units_text, units_word, window_text, within_delay};

use crate::distributions::write_measured;
use crate::settings_rule::{ChosenSettings, Delays, Network, choose, find_delays, observe};
use capture::{Connection, Entry};
use pdu_text::write_text;
use std::io;
use std::io::Write;

/// With fewer PDUs the settings are said to come from too few.
const ENOUGH: u64 = 300;

/// Writes the distributions of each connection, and the settings that fit it, if they are asked for.
///
/// # Errors
///
/// The error of the writer. What was written before it stays.
pub(crate) fn write_advice<W: Write>(
    writer: &mut W,
    asked: bool,
    connections: &[Entry],
) -> io::Result<()>
    ensures { OnOk result (Appends (W.contents writer.old) (W.contents writer.new)
        (advice_lines asked connections.now)) }
{
    if asked {
        return write_any(writer, connections);
    }
    Ok(())
}

/// Writes the lines of all connections. Without a connection, it writes that no PDU was recorded.
fn write_any<W: Write>(writer: &mut W, connections: &[Entry]) -> io::Result<()>
    ensures { OnOk result (Appends (W.contents writer.old) (W.contents writer.new)
        (recording_advice_text connections.now)) }
{
    match connections {
        [] => write_nothing(writer),
        [_, ..] => write_all(writer, connections),
    }
}

/// Writes that there is nothing to choose from.
fn write_nothing<W: Write>(writer: &mut W) -> io::Result<()>
    ensures { OnOk result (Appends (W.contents writer.old) (W.contents writer.new) nothing_text) }
{
    write_text(
        writer,
        "choose nothing: no PDU of RaSTA was recorded; record both ends, and look at --ports and --code\n",
    )
}

/// Writes the lines of all connections.
fn write_all<W: Write>(writer: &mut W, connections: &[Entry]) -> io::Result<()>
    ensures { OnOk result (Appends (W.contents writer.old) (W.contents writer.new)
        (advices_text connections.now)) }
{
    for entry in connections {
        write_connection(writer, &entry.connection)?;
    }
    Ok(())
}

/// Writes the lines of a connection.
#[tactic(auto, unfolding(crate::specs::Advice::connection_text))]
fn write_connection<W: Write>(writer: &mut W, connection: &Connection) -> io::Result<()>
    ensures { OnOk result (Appends (W.contents writer.old) (W.contents writer.new)
        (connection_text connection.now)) }
{
    let ends = (connection.low, connection.high);
    let back = (connection.high, connection.low);
    write_measured(writer, ends, &connection.measures.low)?;
    write_measured(writer, back, &connection.measures.high)?;
    write_network(writer, ends, &observe(connection))?;
    Ok(())
}

/// Writes what was seen of a network, and the settings that fit it.
#[tactic(auto, unfolding(crate::specs::Advice::advice_text))]
fn write_network<W: Write>(writer: &mut W, ends: (u32, u32), network: &Network) -> io::Result<()>
    ensures { OnOk result (Appends (W.contents writer.old) (W.contents writer.new)
        (advice_text ends.0 ends.1 network.now)) }
{
    let delays = find_delays(network);
    write_from(writer, ends, network)?;
    write_difference(writer, ends, network, delays)?;
    write_delay(writer, ends, network, delays)?;
    write_units(writer, ends, network, delays)?;
    write_chosen(writer, ends, delays, choose(delays))?;
    Ok(())
}

/// Writes the begin of a line about a connection.
#[tactic(auto, unfolding(crate::specs::Advice::advice_front))]
fn write_named<W: Write>(writer: &mut W, ends: (u32, u32)) -> io::Result<()>
    ensures { OnOk result (Appends (W.contents writer.old) (W.contents writer.new)
        (advice_front ends.0 ends.1)) }
{
    let low = ends.0;
    let high = ends.1;
    write!(writer, "choose {low}-{high}")
}

/// Writes how many PDUs there were, and the greatest loss.
#[tactic(auto, unfolding(crate::specs::Advice::from_text))]
fn write_from<W: Write>(writer: &mut W, ends: (u32, u32), network: &Network) -> io::Result<()>
    ensures { OnOk result (Appends (W.contents writer.old) (W.contents writer.new)
        (from_text ends.0 ends.1 network.now)) }
{
    let pdus = network.pdus;
    let lost = network.lost;
    let few = few(pdus);
    write_named(writer, ends)?;
    writeln!(
        writer,
        " from {pdus} PDUs{few}; p {lost} of 1000000: the most that a channel lost"
    )
}

/// Returns a remark on too few PDUs.
fn few(pdus: u64) -> &'static str
    ensures { result.now ≡ few_word pdus }
{
    if pdus < ENOUGH {
        ", too few to rely on: record some hundred with telegrams"
    } else {
        ""
    }
}

/// Writes the difference and its reason.
#[tactic(auto, unfolding(crate::specs::Advice::difference_text))]
fn write_difference<W: Write>(
    writer: &mut W,
    ends: (u32, u32),
    network: &Network,
    delays: Delays,
) -> io::Result<()>
    ensures { OnOk result (Appends (W.contents writer.old) (W.contents writer.new)
        (difference_text ends.0 ends.1 network.now delays)) }
{
    let difference = delays.difference;
    let reason = reason_of_difference(network.skew);
    write_named(writer, ends)?;
    writeln!(writer, " D {difference} ms: {reason}")
}

/// Returns where the difference comes from.
fn reason_of_difference(skew: Option<u64>) -> &'static str
    ensures { result.now ≡ difference_reason skew }
{
    match skew {
        None => "assumed to be the shortest time one way, since no copy came on another channel",
        Some(_) => "the greatest skew",
    }
}

/// Writes the longest time one way and its reason.
#[tactic(auto, unfolding(crate::specs::Advice::delay_text))]
fn write_delay<W: Write>(
    writer: &mut W,
    ends: (u32, u32),
    network: &Network,
    delays: Delays,
) -> io::Result<()>
    ensures { OnOk result (Appends (W.contents writer.old) (W.contents writer.new)
        (delay_text ends.0 ends.1 network.now delays)) }
{
    let delay = delays.delay;
    let reason = reason_of_delay(network.shortest);
    write_named(writer, ends)?;
    writeln!(writer, " d {delay} ms: D and {reason}")
}

/// Returns where the shortest time one way comes from.
fn reason_of_delay(shortest: Option<u64>) -> &'static str
    ensures { result.now ≡ delay_reason shortest }
{
    match shortest {
        None => "5 ms, assumed since an end has no round trip",
        Some(_) => "half of the shortest round trips of both ends",
    }
}

/// Writes the units of the busiest second, and how many of them are on their way at once.
#[tactic(auto, unfolding(crate::specs::Advice::units_text))]
fn write_units<W: Write>(
    writer: &mut W,
    ends: (u32, u32),
    network: &Network,
    delays: Delays,
) -> io::Result<()>
    ensures { OnOk result (Appends (W.contents writer.old) (W.contents writer.new)
        (units_text ends.0 ends.1 network.now delays)) }
{
    let within = within(network.units, delays.delay);
    write_named(writer, ends)?;
    write_load(writer, network.units, within, remark_on_units(within))?;
    Ok(())
}

/// Writes the units of a second, and how many of them come within two times one way.
#[tactic(auto, unfolding(crate::specs::Advice::load_text))]
fn write_load<W: Write>(writer: &mut W, units: u16, within: u64, remark: &str) -> io::Result<()>
    ensures { OnOk result (Appends (W.contents writer.old) (W.contents writer.new)
        (load_text units within remark.now)) }
{
    writeln!(
        writer,
        " busiest second {units} units one way, {within} within 2 d{remark}"
    )
}

/// Returns how many units of the busiest second come within two times one way.
fn within(units: u16, delay: u64) -> u64
    ensures { result ≡ within_delay units delay }
{
    let twice = delay.saturating_mul(2);
    let units = twice.saturating_mul(units as u64);
    units.saturating_add(999) / 1_000
}

/// Returns a remark on units that a window does not hold.
fn remark_on_units(within: u64) -> &'static str
    ensures { result.now ≡ units_word within }
{
    if within > 7 {
        ": more than the window holds, so telegrams wait"
    } else {
        ""
    }
}

/// Writes the lines of the settings, or that none fit.
fn write_chosen<W: Write>(
    writer: &mut W,
    ends: (u32, u32),
    delays: Delays,
    chosen: Option<ChosenSettings>,
) -> io::Result<()>
    ensures { OnOk result (Appends (W.contents writer.old) (W.contents writer.new)
        (settings_lines ends.0 ends.1 delays chosen)) }
{
    match chosen {
        None => write_none(writer, ends),
        Some(settings) => write_settings(writer, ends, delays, settings),
    }
}

/// Writes that no settings fit.
#[tactic(auto, unfolding(crate::specs::Advice::none_text))]
fn write_none<W: Write>(writer: &mut W, ends: (u32, u32)) -> io::Result<()>
    ensures { OnOk result (Appends (W.contents writer.old) (W.contents writer.new) (none_text ends.0 ends.1)) }
{
    write_named(writer, ends)?;
    write_text(
        writer,
        " no settings: D may be 800 ms and d 8000 ms at most, for T_seq and T_max in their ranges\n",
    )
}

/// Writes the lines of settings, each with its reason.
#[tactic(auto, unfolding(crate::specs::Advice::settings_text))]
fn write_settings<W: Write>(
    writer: &mut W,
    ends: (u32, u32),
    delays: Delays,
    settings: ChosenSettings,
) -> io::Result<()>
    ensures { OnOk result (Appends (W.contents writer.old) (W.contents writer.new)
        (settings_text ends.0 ends.1 delays settings)) }
{
    write_window(writer, ends, settings)?;
    write_t_seq(writer, ends, delays, settings)?;
    write_t_h(writer, ends, settings)?;
    write_t_max(writer, ends, settings)?;
    Ok(())
}

/// Writes the window, mwa and q.
#[tactic(auto, unfolding(crate::specs::Advice::window_text))]
fn write_window<W: Write>(
    writer: &mut W,
    ends: (u32, u32),
    settings: ChosenSettings,
) -> io::Result<()>
    ensures { OnOk result (Appends (W.contents writer.old) (W.contents writer.new)
        (window_text ends.0 ends.1 settings)) }
{
    write_named(writer, ends)?;
    write_three(writer, settings)?;
    write_rule(writer, settings)?;
    Ok(())
}

/// Writes the values of the window, mwa and q.
#[tactic(auto, unfolding(crate::specs::Advice::three_text))]
fn write_three<W: Write>(writer: &mut W, settings: ChosenSettings) -> io::Result<()>
    ensures { OnOk result (Appends (W.contents writer.old) (W.contents writer.new) (three_text settings)) }
{
    let window = settings.window;
    let mwa = settings.mwa;
    let q = settings.q;
    write!(writer, " n_sendmax {window} mwa {mwa} q {q}")
}

/// Writes the rule that the window, mwa and q obey, and ends the line.
#[tactic(auto, unfolding(crate::specs::Advice::rule_text))]
fn write_rule<W: Write>(writer: &mut W, settings: ChosenSettings) -> io::Result<()>
    ensures { OnOk result (Appends (W.contents writer.old) (W.contents writer.new) (rule_text settings)) }
{
    let window = settings.window;
    let mwa = settings.mwa;
    let q = settings.q;
    writeln!(writer, ": {window} - 1 + {window}/{mwa} is at most {q}")
}

/// Writes T_seq.
#[tactic(auto, unfolding(crate::specs::Advice::t_seq_text))]
fn write_t_seq<W: Write>(
    writer: &mut W,
    ends: (u32, u32),
    delays: Delays,
    settings: ChosenSettings,
) -> io::Result<()>
    ensures { OnOk result (Appends (W.contents writer.old) (W.contents writer.new)
        (t_seq_text ends.0 ends.1 delays settings)) }
{
    let t_seq = settings.t_seq;
    let difference = delays.difference;
    write_named(writer, ends)?;
    writeln!(
        writer,
        " T_seq {t_seq} ms: above D, {difference} ms, by a quarter and at least 5 ms"
    )
}

/// Writes T_h.
#[tactic(auto, unfolding(crate::specs::Advice::t_h_text))]
fn write_t_h<W: Write>(writer: &mut W, ends: (u32, u32), settings: ChosenSettings) -> io::Result<()>
    ensures { OnOk result (Appends (W.contents writer.old) (W.contents writer.new)
        (t_h_text ends.0 ends.1 settings)) }
{
    let t_h = settings.t_h;
    write_named(writer, ends)?;
    writeln!(writer, " T_h {t_h} ms: twice T_seq, and at least 100 ms")
}

/// Writes T_max.
#[tactic(auto, unfolding(crate::specs::Advice::t_max_text))]
fn write_t_max<W: Write>(
    writer: &mut W,
    ends: (u32, u32),
    settings: ChosenSettings,
) -> io::Result<()>
    ensures { OnOk result (Appends (W.contents writer.old) (W.contents writer.new)
        (t_max_text ends.0 ends.1 settings)) }
{
    let t_max = settings.t_max;
    write_named(writer, ends)?;
    writeln!(
        writer,
        " T_max {t_max} ms: 4 T_h + 2 T_seq + 6 d, for two repairs in a row"
    )
}
