//! The distributions and the settings that fit a recording, as JSON.

ghost use Rattle.std.specs.Prelude.{◌≡◌, OnOk};
ghost use Rattle.std.specs.Io.KnownBytes.{Appends};
ghost use Rattle.capture_text.specs.AdviceJson.{advice_json, advices_json, chosen_settings_json, delays_json, end_json, list_json, next_advice_json, name_json, network_json, rest_json, seen_times_json, settings_json, sides_json, truth_word, units_json, window_json};

use crate::distributions::write_measured_json;
use crate::settings_rule::{ChosenSettings, Delays, Network, choose, find_delays, observe};
use capture::{Connection, Entry, Measures};
use pdu_text::write_text;
use std::io;
use std::io::Write;

/// Ends the list of connections and the object of all sums. If it is asked for, the list of what is chosen comes
/// before the end.
pub(crate) fn write_end<W: Write>(
    writer: &mut W,
    asked: bool,
    connections: &[Entry],
) -> io::Result<()>
    ensures { OnOk result (Appends (W.contents writer.old) (W.contents writer.new)
        (end_json asked connections.now)) }
{
    if asked {
        return write_advices(writer, connections);
    }
    write_text(writer, "]}\n")
}

/// Writes the list of what is chosen for each connection, and ends the object of all sums.
#[tactic(auto, unfolding(crate::specs::AdviceJson::advices_json))]
fn write_advices<W: Write>(writer: &mut W, connections: &[Entry]) -> io::Result<()>
    ensures { OnOk result (Appends (W.contents writer.old) (W.contents writer.new)
        (advices_json connections.now)) }
{
    write_text(writer, "],\"choosing\":[")?;
    write_list(writer, connections)?;
    write_text(writer, "]}\n")?;
    Ok(())
}

/// Writes what is chosen for each connection, with a comma between two.
fn write_list<W: Write>(writer: &mut W, connections: &[Entry]) -> io::Result<()>
    ensures { OnOk result (Appends (W.contents writer.old) (W.contents writer.new) (list_json connections.now)) }
{
    match connections {
        [] => Ok(()),
        [first, rest @ ..] => {
            write_connection(writer, &first.connection)?;
            write_rest(writer, rest)?;
            Ok(())
        }
    }
}

/// Writes what is chosen for each connection, each after a comma.
fn write_rest<W: Write>(writer: &mut W, connections: &[Entry]) -> io::Result<()>
    ensures { OnOk result (Appends (W.contents writer.old) (W.contents writer.new) (rest_json connections.now)) }
{
    for entry in connections {
        write_listed(writer, &entry.connection)?;
    }
    Ok(())
}

/// Writes what is chosen for a connection, after a comma.
#[tactic(auto, unfolding(crate::specs::AdviceJson::next_advice_json))]
fn write_listed<W: Write>(writer: &mut W, connection: &Connection) -> io::Result<()>
    ensures { OnOk result (Appends (W.contents writer.old) (W.contents writer.new) (next_advice_json connection.now)) }
{
    write_text(writer, ",")?;
    write_connection(writer, connection)
}

/// Writes the object of a connection.
#[tactic(auto, unfolding(crate::specs::AdviceJson::advice_json))]
fn write_connection<W: Write>(writer: &mut W, connection: &Connection) -> io::Result<()>
    ensures { OnOk result (Appends (W.contents writer.old) (W.contents writer.new) (advice_json connection.now)) }
{
    let network = observe(connection);
    let delays = find_delays(&network);
    write_name(writer, connection.low, connection.high)?;
    write_sides(writer, &connection.measures)?;
    write_network(writer, &network)?;
    write_delays(writer, delays)?;
    write_chosen(writer, choose(delays))?;
    Ok(())
}

/// Writes the identifiers of a connection, and begins its distributions.
#[tactic(auto, unfolding(crate::specs::AdviceJson::name_json))]
fn write_name<W: Write>(writer: &mut W, low: u32, high: u32) -> io::Result<()>
    ensures { OnOk result (Appends (W.contents writer.old) (W.contents writer.new) (name_json low high)) }
{
    write!(writer, "{{\"low\":{low},\"high\":{high},\"times\":[")
}

/// Writes the distributions of both ends.
#[tactic(auto, unfolding(crate::specs::AdviceJson::sides_json))]
fn write_sides<W: Write>(writer: &mut W, measures: &Measures) -> io::Result<()>
    ensures { OnOk result (Appends (W.contents writer.old) (W.contents writer.new) (sides_json measures.now)) }
{
    write_measured_json(writer, &measures.low)?;
    write_text(writer, ",")?;
    write_measured_json(writer, &measures.high)?;
    write_text(writer, "]")?;
    Ok(())
}

/// Writes what was seen of a network.
#[tactic(auto, unfolding(crate::specs::AdviceJson::network_json))]
fn write_network<W: Write>(writer: &mut W, network: &Network) -> io::Result<()>
    ensures { OnOk result (Appends (W.contents writer.old) (W.contents writer.new) (network_json network.now)) }
{
    write_units(writer, network)?;
    write_seen(writer, truth(network.shortest), truth(network.skew))?;
    Ok(())
}

/// Writes which times were seen.
#[tactic(auto, unfolding(crate::specs::AdviceJson::seen_times_json))]
fn write_seen<W: Write>(writer: &mut W, round_trips: &str, skews: &str) -> io::Result<()>
    ensures { OnOk result (Appends (W.contents writer.old) (W.contents writer.new)
        (seen_times_json round_trips.now skews.now)) }
{
    write!(
        writer,
        ",\"round_trips_seen\":{round_trips},\"skews_seen\":{skews}"
    )
}

/// Writes the PDUs, the losses and the units.
#[tactic(auto, unfolding(crate::specs::AdviceJson::units_json))]
fn write_units<W: Write>(writer: &mut W, network: &Network) -> io::Result<()>
    ensures { OnOk result (Appends (W.contents writer.old) (W.contents writer.new) (units_json network.now)) }
{
    let pdus = network.pdus;
    let lost = network.lost;
    let units = network.units;
    write!(writer, ",\"PDUs\":{pdus},\"lost\":{lost},\"units\":{units}")
}

/// Returns the word of JSON for whether a time was seen.
fn truth(time: Option<u64>) -> &'static str
    ensures { result.now ≡ truth_word time }
{
    match time {
        None => "false",
        Some(_) => "true",
    }
}

/// Writes the times by which settings are chosen.
#[tactic(auto, unfolding(crate::specs::AdviceJson::delays_json))]
fn write_delays<W: Write>(writer: &mut W, delays: Delays) -> io::Result<()>
    ensures { OnOk result (Appends (W.contents writer.old) (W.contents writer.new) (delays_json delays)) }
{
    let difference = delays.difference;
    let delay = delays.delay;
    write!(writer, ",\"difference\":{difference},\"delay\":{delay}")
}

/// Writes the settings, or null, and ends the object of the connection.
fn write_chosen<W: Write>(writer: &mut W, chosen: Option<ChosenSettings>) -> io::Result<()>
    ensures { OnOk result (Appends (W.contents writer.old) (W.contents writer.new) (chosen_settings_json chosen)) }
{
    match chosen {
        None => write_text(writer, ",\"settings\":null}"),
        Some(settings) => write_settings(writer, settings),
    }
}

/// Writes the object of settings.
#[tactic(auto, unfolding(crate::specs::AdviceJson::settings_json))]
fn write_settings<W: Write>(writer: &mut W, settings: ChosenSettings) -> io::Result<()>
    ensures { OnOk result (Appends (W.contents writer.old) (W.contents writer.new) (settings_json settings)) }
{
    let t_seq = settings.t_seq;
    let t_h = settings.t_h;
    let t_max = settings.t_max;
    write_window(writer, settings)?;
    write!(
        writer,
        ",\"t_seq\":{t_seq},\"t_h\":{t_h},\"t_max\":{t_max}}}}}"
    )
}

/// Writes the window, mwa and q.
#[tactic(auto, unfolding(crate::specs::AdviceJson::window_json))]
fn write_window<W: Write>(writer: &mut W, settings: ChosenSettings) -> io::Result<()>
    ensures { OnOk result (Appends (W.contents writer.old) (W.contents writer.new) (window_json settings)) }
{
    let window = settings.window;
    let mwa = settings.mwa;
    let q = settings.q;
    write!(
        writer,
        ",\"settings\":{{\"n_sendmax\":{window},\"mwa\":{mwa},\"q\":{q}"
    )
}
