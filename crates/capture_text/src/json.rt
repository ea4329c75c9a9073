//! The sums as one JSON object.

ghost use Rattle.std.specs.Prelude.{◌≡◌, ◌<◌, OnOk, None, Some};
ghost use Rattle.std.specs.Fmt.{decimal};
ghost use Rattle.std.specs.Io.KnownBytes.{Appends};
ghost use Rattle.capture.specs.WholeCapture.{totals_of};
ghost use Rattle.capture_text.specs.Json.{ages_json, all_json, both_json, datagrams_json, channel_json, channels_json, up_time_json, comma, connection_json, connections_json, counts_json, damaged_count_json, direction_json, directions_json, ends_json, greatest_json, high_json, kinds_json, known_channel_json, leaving_json, next_channel_json, next_connection_json, losses_json, connection_losses_json, low_json, more_json, name_json, near_json, numbers_json, opening_time_json, opening_type_json, opening_json, openings_json, others_json, last_and_disconnect_json, place_json, place_number_json, reasons_json, route_json, scale_json, sums_json, time_json, times_json, totals_in, up_json, whole_json, window_json};

use crate::advice_json::write_end;
use crate::pieces::write_address;
use crate::sentence::{longest, oldest, on_all, up};
use crate::skips::write_passed_json;
use crate::summary::{CaptureCounts, Scale, datagrams};
use crate::table_json::write_sessions_json;
use capture::{
    Address, CHANNELS, Connection, Direction, Entry, Route, SessionOpening, Tally, Totals, Window,
    add_up_sessions, silence, sum_up,
};
use pdu_text::write_text;
use safe_pdu::{Identifier, Leaving};
use std::io;
use std::io::Write;

/// Writes the sums as one JSON object in one line: those of all connections, then of each connection, with both
/// directions and their channels; and what is chosen for each, if that is asked for (`choose`).
///
/// Times are microseconds since 1970, ages and waits milliseconds. A value that was not recorded is `null`.
///
/// # Errors
///
/// The error of the writer. What was written before it stays.
#[tactic(auto, unfolding(crate::specs::Json::sums_json))]
pub fn write_json<W: Write>(
    writer: &mut W,
    scale: Scale,
    gone: Totals,
    connections: &[Entry],
    counts: CaptureCounts,
    choose: bool,
) -> io::Result<()>
    // On success one object is appended: first time and T_max, the sums of all with the `counts`, a list of the
    // connections, and if `choose` is true what is chosen for each (`sums_json`).
    ensures { OnOk result (Appends (W.contents writer.old) (W.contents writer.new)
        (sums_json scale connections.now (totals_of gone connections.now) counts choose)) }
{
    write_scale(writer, scale)?;
    write_all(writer, sum_up(gone, connections), counts)?;
    write_connections(writer, connections)?;
    write_end(writer, choose, connections)?;
    Ok(())
}

/// Writes the sums of all connections, ends their object and opens the list of connections.
#[tactic(auto, unfolding(crate::specs::Json::all_json))]
fn write_all<W: Write>(writer: &mut W, totals: Totals, counts: CaptureCounts) -> io::Result<()>
    ensures { OnOk result (Appends (W.contents writer.old) (W.contents writer.new) (all_json totals counts)) }
{
    write_count(writer, counts.datagrams)?;
    write_numbers(writer, totals)?;
    write_counts(writer, counts)?;
    write_passed_json(writer, &counts.passed)?;
    write_text(writer, "},\"connections\":[")?;
    Ok(())
}

/// Writes a number.
fn write_count<W: Write>(writer: &mut W, count: u64) -> io::Result<()>
    ensures { OnOk result (Appends (W.contents writer.old) (W.contents writer.new) (decimal count)) }
{
    write!(writer, "{count}")
}

/// Writes the first time and T_max, and opens the object of all sums.
#[tactic(auto, unfolding(crate::specs::Json::scale_json))]
fn write_scale<W: Write>(writer: &mut W, scale: Scale) -> io::Result<()>
    ensures { OnOk result (Appends (W.contents writer.old) (W.contents writer.new) (scale_json scale)) }
{
    let t_max = scale.t_max;
    write_text(writer, "{\"first\":")?;
    write_time(writer, scale.clock.first)?;
    write!(writer, ",\"t_max\":{t_max},\"all\":{{\"datagrams\":")
}

/// Writes a time in microseconds; 0 is an unknown time.
fn write_time<W: Write>(writer: &mut W, time: u64) -> io::Result<()>
    ensures { OnOk result (Appends (W.contents writer.old) (W.contents writer.new) (time_json time)) }
{
    if time == 0 {
        return write_text(writer, "null");
    }
    write!(writer, "{time}")
}

/// Writes the sums of redundancy numbers.
#[tactic(auto, unfolding(crate::specs::Json::numbers_json))]
fn write_numbers<W: Write>(writer: &mut W, totals: Totals) -> io::Result<()>
    ensures { OnOk result (Appends (W.contents writer.old) (W.contents writer.new) (numbers_json totals)) }
{
    let heard = totals.heard;
    let missing = totals.missing;
    let repeats = totals.repeats;
    write!(
        writer,
        ",\"PDUs\":{heard},\"missing\":{missing},\"repeats\":{repeats}"
    )?;
    write_others(writer, totals)
}

/// Writes the rarer sums of redundancy numbers.
#[tactic(auto, unfolding(crate::specs::Json::others_json))]
fn write_others<W: Write>(writer: &mut W, totals: Totals) -> io::Result<()>
    ensures { OnOk result (Appends (W.contents writer.old) (W.contents writer.new) (others_json totals)) }
{
    let late = totals.late;
    let differing = totals.differing;
    let stale = totals.stale;
    write!(
        writer,
        ",\"late\":{late},\"differs\":{differing},\"stale\":{stale}"
    )
}

/// Writes the counts over the whole capture.
#[tactic(auto, unfolding(crate::specs::Json::counts_json))]
fn write_counts<W: Write>(writer: &mut W, counts: CaptureCounts) -> io::Result<()>
    ensures { OnOk result (Appends (W.contents writer.old) (W.contents writer.new) (counts_json counts)) }
{
    let damaged = counts.damaged;
    let forgotten = counts.forgotten;
    let unreadable = counts.unreadable;
    let frames = counts.frames;
    write!(
        writer,
        ",\"damaged\":{damaged},\"forgotten\":{forgotten},\"unreadable\":{unreadable},\"frames\":{frames}"
    )
}

/// Writes connections with a comma between two.
fn write_connections<W: Write>(writer: &mut W, connections: &[Entry]) -> io::Result<()>
    ensures { OnOk result (Appends (W.contents writer.old) (W.contents writer.new)
        (connections_json connections.now)) }
{
    match connections {
        [] => Ok(()),
        [first, rest @ ..] => {
            write_connection(writer, &first.connection)?;
            write_more(writer, rest)?;
            Ok(())
        }
    }
}

/// Writes connections, each after a comma.
fn write_more<W: Write>(writer: &mut W, connections: &[Entry]) -> io::Result<()>
    ensures { OnOk result (Appends (W.contents writer.old) (W.contents writer.new) (more_json connections.now)) }
{
    for entry in connections {
        write_listed(writer, &entry.connection)?;
    }
    Ok(())
}

/// Writes a connection after a comma.
#[tactic(auto, unfolding(crate::specs::Json::next_connection_json))]
fn write_listed<W: Write>(writer: &mut W, connection: &Connection) -> io::Result<()>
    ensures { OnOk result (Appends (W.contents writer.old) (W.contents writer.new) (next_connection_json connection.now)) }
{
    write_text(writer, ",")?;
    write_connection(writer, connection)
}

/// Writes the object of a connection.
#[tactic(auto, unfolding(crate::specs::Json::connection_json))]
fn write_connection<W: Write>(writer: &mut W, connection: &Connection) -> io::Result<()>
    ensures { OnOk result (Appends (W.contents writer.old) (W.contents writer.new)
        (connection_json connection.now)) }
{
    let ends = (connection.low, connection.high);
    write_whole(writer, connection)?;
    write_sessions_json(writer, ends, &connection.sessions)?;
    write_directions(writer, connection)?;
    Ok(())
}

/// Writes what holds for a whole connection.
#[tactic(auto, unfolding(crate::specs::Json::whole_json))]
fn write_whole<W: Write>(writer: &mut W, connection: &Connection) -> io::Result<()>
    ensures { OnOk result (Appends (W.contents writer.old) (W.contents writer.new) (whole_json connection.now)) }
{
    write_name(writer, connection)?;
    write_coming(writer, connection)?;
    write_lost(writer, connection)?;
    write_greatest(writer, connection)?;
    Ok(())
}

/// Writes the two directions of a connection, and ends its object.
#[tactic(auto, unfolding(crate::specs::Json::directions_json))]
fn write_directions<W: Write>(writer: &mut W, connection: &Connection) -> io::Result<()>
    ensures { OnOk result (Appends (W.contents writer.old) (W.contents writer.new)
        (directions_json connection.now)) }
{
    let ends = (connection.low, connection.high);
    let back = (connection.high, connection.low);
    write_text(writer, ",\"directions\":[")?;
    write_direction(writer, ends, connection, &connection.from_low)?;
    write_text(writer, ",")?;
    write_direction(writer, back, connection, &connection.from_high)?;
    write_text(writer, "]}")?;
    Ok(())
}

/// Writes the identifiers of a connection.
#[tactic(auto, unfolding(crate::specs::Json::name_json))]
fn write_name<W: Write>(writer: &mut W, connection: &Connection) -> io::Result<()>
    ensures { OnOk result (Appends (W.contents writer.old) (W.contents writer.new) (name_json connection.now)) }
{
    let low = connection.low;
    let high = connection.high;
    write!(writer, "{{\"low\":{low},\"high\":{high},\"up\":")
}

/// Writes when a connection came up.
fn write_coming<W: Write>(writer: &mut W, connection: &Connection) -> io::Result<()>
    ensures { OnOk result (Appends (W.contents writer.old) (W.contents writer.new)
        (up_time_json connection.now)) }
{
    write_up(writer, up(&connection.from_low, &connection.from_high))
}

/// Writes a time of coming up.
fn write_up<W: Write>(writer: &mut W, up: Option<u64>) -> io::Result<()>
    ensures { OnOk result (Appends (W.contents writer.old) (W.contents writer.new) (up_json up)) }
{
    match up {
        None => write_text(writer, "null"),
        Some(time) => write!(writer, "{time}"),
    }
}

/// Writes the losses of a connection.
#[tactic(auto, unfolding(crate::specs::Json::connection_losses_json))]
fn write_lost<W: Write>(writer: &mut W, connection: &Connection) -> io::Result<()>
    ensures { OnOk result (Appends (W.contents writer.old) (W.contents writer.new) (connection_losses_json connection.now)) }
{
    let totals = add_up_sessions(&connection.sessions);
    write_losses(writer, connection.last, on_all(connection), totals.alone)
}

/// Writes the time of the last PDU, and both losses.
#[tactic(auto, unfolding(crate::specs::Json::losses_json))]
fn write_losses<W: Write>(writer: &mut W, last: u64, everywhere: u64, alone: u64) -> io::Result<()>
    ensures { OnOk result (Appends (W.contents writer.old) (W.contents writer.new)
        (losses_json last everywhere alone)) }
{
    write!(
        writer,
        ",\"last\":{last},\"lost_on_every_channel\":{everywhere},\"lost_on_one_channel\":{alone}"
    )
}

/// Writes the greatest age and the longest wait of a connection.
fn write_greatest<W: Write>(writer: &mut W, connection: &Connection) -> io::Result<()>
    ensures { OnOk result (Appends (W.contents writer.old) (W.contents writer.new)
        (greatest_json connection.now)) }
{
    write_both(writer, oldest(connection), longest(connection))
}

/// Writes an age and a wait in milliseconds.
#[tactic(auto, unfolding(crate::specs::Json::both_json))]
fn write_both<W: Write>(writer: &mut W, age: u32, waits: u32) -> io::Result<()>
    ensures { OnOk result (Appends (W.contents writer.old) (W.contents writer.new) (both_json age waits)) }
{
    write!(writer, ",\"age\":{age},\"waits\":{waits}")
}

/// Writes what one end sent; `ends` are the sender and the receiver.
#[tactic(auto, unfolding(crate::specs::Json::direction_json))]
fn write_direction<W: Write>(
    writer: &mut W,
    ends: (u32, u32),
    connection: &Connection,
    direction: &Direction,
) -> io::Result<()>
    ensures { OnOk result (Appends (W.contents writer.old) (W.contents writer.new)
        (direction_json ends.0 ends.1 connection.now direction.now)) }
{
    write_ends(writer, ends.0, ends.1)?;
    write_openings(writer, direction.opening, &direction.tally)?;
    write_window(writer, &direction.together)?;
    write_kinds(writer, &direction.tally)?;
    write_near(writer, connection.last, &direction.tally)?;
    write_parting(writer, &direction.tally)?;
    write_channels(writer, &connection.routes, direction)?;
    Ok(())
}

/// Writes the sender and the receiver.
#[tactic(auto, unfolding(crate::specs::Json::ends_json))]
fn write_ends<W: Write>(writer: &mut W, sender: Identifier, receiver: Identifier) -> io::Result<()>
    ensures { OnOk result (Appends (W.contents writer.old) (W.contents writer.new) (ends_json sender receiver)) }
{
    write!(writer, "{{\"from\":{sender},\"to\":{receiver}")
}

/// Writes the openings of an end.
#[tactic(auto, unfolding(crate::specs::Json::openings_json))]
fn write_openings<W: Write>(
    writer: &mut W,
    opening: Option<SessionOpening>,
    tally: &Tally,
) -> io::Result<()>
    ensures { OnOk result (Appends (W.contents writer.old) (W.contents writer.new)
        (openings_json opening tally.now)) }
{
    write_opened(writer, opening)?;
    write_times(writer, tally.openings)?;
    write_opened_at(writer, tally.opened)?;
    Ok(())
}

/// Writes the type of the last opening.
#[tactic(auto, unfolding(crate::specs::Json::opening_type_json))]
fn write_opened<W: Write>(writer: &mut W, opening: Option<SessionOpening>) -> io::Result<()>
    ensures { OnOk result (Appends (W.contents writer.old) (W.contents writer.new) (opening_type_json opening)) }
{
    write_text(writer, ",\"opening\":")?;
    write_opening(writer, opening)?;
    Ok(())
}

/// Writes how often an end opened.
#[tactic(auto, unfolding(crate::specs::Json::times_json))]
fn write_times<W: Write>(writer: &mut W, times: u64) -> io::Result<()>
    ensures { OnOk result (Appends (W.contents writer.old) (W.contents writer.new) (times_json times)) }
{
    write!(writer, ",\"openings\":{times}")
}

/// Writes the time of the last opening.
#[tactic(auto, unfolding(crate::specs::Json::opening_time_json))]
fn write_opened_at<W: Write>(writer: &mut W, time: u64) -> io::Result<()>
    ensures { OnOk result (Appends (W.contents writer.old) (W.contents writer.new) (opening_time_json time)) }
{
    write_text(writer, ",\"opened\":")?;
    write_time(writer, time)?;
    Ok(())
}

/// Writes the type of an opening, or null.
fn write_opening<W: Write>(writer: &mut W, opening: Option<SessionOpening>) -> io::Result<()>
    ensures { OnOk result (Appends (W.contents writer.old) (W.contents writer.new) (opening_json opening)) }
{
    match opening {
        None => write_text(writer, "null"),
        Some(opening) => {
            let name = opening.kind.name();
            write!(writer, "\"{name}\"")
        }
    }
}

/// Writes the sums of a window.
fn write_window<W: Write>(writer: &mut W, window: &Window) -> io::Result<()>
    ensures { OnOk result (Appends (W.contents writer.old) (W.contents writer.new) (window_json window.now)) }
{
    write_numbers(writer, totals(window))
}

/// Returns the counts of a window as sums.
fn totals(window: &Window) -> Totals
    ensures { result ≡ totals_in window.now }
{
    Totals {
        heard: window.heard,
        missing: window.missing,
        late: window.late,
        repeats: window.repeats,
        differing: window.differing,
        stale: window.stale,
    }
}

/// Writes the counts of types.
#[tactic(auto, unfolding(crate::specs::Json::kinds_json))]
fn write_kinds<W: Write>(writer: &mut W, tally: &Tally) -> io::Result<()>
    ensures { OnOk result (Appends (W.contents writer.old) (W.contents writer.new) (kinds_json tally.now)) }
{
    let heartbeats = tally.heartbeats;
    let requests = tally.requests;
    let resent = tally.resent;
    let disconnects = tally.disconnects;
    write!(
        writer,
        ",\"heartbeats\":{heartbeats},\"requests\":{requests},\"resent\":{resent},\"disconnects\":{disconnects}"
    )
}

/// Writes the longest silence, the greatest age and the longest wait.
fn write_near<W: Write>(writer: &mut W, until: u64, tally: &Tally) -> io::Result<()>
    ensures { OnOk result (Appends (W.contents writer.old) (W.contents writer.new) (near_json until tally.now)) }
{
    write_ages(writer, silence(tally, until), tally.oldest, tally.longest)
}

/// Writes a silence in microseconds, an age and a wait in milliseconds.
#[tactic(auto, unfolding(crate::specs::Json::ages_json))]
fn write_ages<W: Write>(writer: &mut W, silence: u64, age: u32, waits: u32) -> io::Result<()>
    ensures { OnOk result (Appends (W.contents writer.old) (W.contents writer.new) (ages_json silence age waits)) }
{
    write!(
        writer,
        ",\"silence\":{silence},\"age\":{age},\"waits\":{waits}"
    )
}

/// Writes the time of the last PDU, and the disconnect.
#[tactic(auto, unfolding(crate::specs::Json::last_and_disconnect_json))]
fn write_parting<W: Write>(writer: &mut W, tally: &Tally) -> io::Result<()>
    ensures { OnOk result (Appends (W.contents writer.old) (W.contents writer.new) (last_and_disconnect_json tally.now)) }
{
    write_text(writer, ",\"last\":")?;
    write_time(writer, tally.last)?;
    write_text(writer, ",\"left\":")?;
    write_leaving(writer, tally.left, tally.leaving)?;
    Ok(())
}

/// Writes a disconnect, or null.
fn write_leaving<W: Write>(writer: &mut W, left: u64, leaving: Option<Leaving>) -> io::Result<()>
    ensures { OnOk result (Appends (W.contents writer.old) (W.contents writer.new) (leaving_json left leaving)) }
{
    match leaving {
        None => write_text(writer, "null"),
        Some(leaving) => write_reasons(writer, left, leaving),
    }
}

/// Writes the object of a disconnect.
#[tactic(auto, unfolding(crate::specs::Json::reasons_json))]
fn write_reasons<W: Write>(writer: &mut W, left: u64, leaving: Leaving) -> io::Result<()>
    ensures { OnOk result (Appends (W.contents writer.old) (W.contents writer.new) (reasons_json left leaving)) }
{
    let Leaving { detail, reason } = leaving;
    write!(
        writer,
        "{{\"time\":{left},\"reason\":{reason},\"detail\":{detail}}}"
    )
}

/// Writes what one end sent on each channel, and ends its object.
#[tactic(auto, unfolding(crate::specs::Json::channels_json))]
fn write_channels<W: Write>(
    writer: &mut W,
    routes: &[Option<Route>; CHANNELS],
    direction: &Direction,
) -> io::Result<()>
    ensures { OnOk result (Appends (W.contents writer.old) (W.contents writer.new)
        (channels_json routes.now direction.now)) }
{
    write_text(writer, ",\"channels\":[")?;
    write_place(writer, routes, direction, 0)?;
    write_place(writer, routes, direction, 1)?;
    write_place(writer, routes, direction, 2)?;
    write_place(writer, routes, direction, 3)?;
    write_text(writer, "]}")?;
    Ok(())
}

/// Writes the channel at a place.
#[tactic(auto, unfolding(crate::specs::Json::place_json))]
fn write_place<W: Write>(
    writer: &mut W,
    routes: &[Option<Route>; CHANNELS],
    direction: &Direction,
    place: usize,
) -> io::Result<()>
    requires { place < CHANNELS }
    ensures { OnOk result (Appends (W.contents writer.old) (W.contents writer.new)
        (place_json routes.now direction.now place)) }
{
    write_maybe_channel(
        writer,
        place,
        routes[place],
        &direction.channels[place],
        direction.damaged[place],
    )
}

/// Writes a channel, if there is one.
fn write_maybe_channel<W: Write>(
    writer: &mut W,
    place: usize,
    route: Option<Route>,
    window: &Window,
    damaged: u64,
) -> io::Result<()>
    requires { place < CHANNELS }
    ensures { OnOk result (Appends (W.contents writer.old) (W.contents writer.new)
        (channel_json place route window.now damaged)) }
{
    match route {
        None => Ok(()),
        Some(route) => write_listed_channel(writer, place, route, window, damaged),
    }
}

/// Writes a channel, after a comma if it is not the first.
#[tactic(auto, unfolding(crate::specs::Json::next_channel_json))]
fn write_listed_channel<W: Write>(
    writer: &mut W,
    place: usize,
    route: Route,
    window: &Window,
    damaged: u64,
) -> io::Result<()>
    requires { place < CHANNELS }
    ensures { OnOk result (Appends (W.contents writer.old) (W.contents writer.new)
        (next_channel_json place route window.now damaged)) }
{
    write_text(writer, comma_before(place))?;
    write_channel(writer, place, route, window, damaged)
}

/// Returns the comma before a channel.
fn comma_before(place: usize) -> &'static str
    ensures { result.now ≡ comma place }
{
    if place == 0 { "" } else { "," }
}

/// Writes the object of a channel.
#[tactic(auto, unfolding(crate::specs::Json::known_channel_json))]
fn write_channel<W: Write>(
    writer: &mut W,
    place: usize,
    route: Route,
    window: &Window,
    damaged: u64,
) -> io::Result<()>
    requires { place < CHANNELS }
    ensures { OnOk result (Appends (W.contents writer.old) (W.contents writer.new)
        (known_channel_json place route window.now damaged)) }
{
    write_route(writer, place, route)?;
    write_came(writer, datagrams(window, damaged))?;
    write_window(writer, window)?;
    write_damaged(writer, damaged)
}

/// Writes the number and the addresses of a channel.
#[tactic(auto, unfolding(crate::specs::Json::route_json))]
fn write_route<W: Write>(writer: &mut W, place: usize, route: Route) -> io::Result<()>
    requires { place < CHANNELS }
    ensures { OnOk result (Appends (W.contents writer.old) (W.contents writer.new) (route_json place route)) }
{
    write_place_number(writer, place)?;
    write_low(writer, route.low)?;
    write_high(writer, route.high)?;
    Ok(())
}

/// Writes the number of a channel.
#[tactic(auto, unfolding(crate::specs::Json::place_number_json))]
fn write_place_number<W: Write>(writer: &mut W, place: usize) -> io::Result<()>
    requires { place < CHANNELS }
    ensures { OnOk result (Appends (W.contents writer.old) (W.contents writer.new) (place_number_json place)) }
{
    let number = place + 1;
    write!(writer, "{{\"channel\":{number}")
}

/// Writes the address of the end with the lower identifier.
#[tactic(auto, unfolding(crate::specs::Json::low_json))]
fn write_low<W: Write>(writer: &mut W, address: Address) -> io::Result<()>
    ensures { OnOk result (Appends (W.contents writer.old) (W.contents writer.new) (low_json address)) }
{
    write_text(writer, ",\"low\":\"")?;
    write_address(writer, address)?;
    write_text(writer, "\"")
}

/// Writes the address of the end with the higher identifier.
#[tactic(auto, unfolding(crate::specs::Json::high_json))]
fn write_high<W: Write>(writer: &mut W, address: Address) -> io::Result<()>
    ensures { OnOk result (Appends (W.contents writer.old) (W.contents writer.new) (high_json address)) }
{
    write_text(writer, ",\"high\":\"")?;
    write_address(writer, address)?;
    write_text(writer, "\"")
}

/// Writes how many datagrams came on a channel.
#[tactic(auto, unfolding(crate::specs::Json::datagrams_json))]
fn write_came<W: Write>(writer: &mut W, datagrams: u64) -> io::Result<()>
    ensures { OnOk result (Appends (W.contents writer.old) (W.contents writer.new) (datagrams_json datagrams)) }
{
    write!(writer, ",\"datagrams\":{datagrams}")
}

/// Writes the damaged datagrams of a channel, and ends its object.
#[tactic(auto, unfolding(crate::specs::Json::damaged_count_json))]
fn write_damaged<W: Write>(writer: &mut W, damaged: u64) -> io::Result<()>
    ensures { OnOk result (Appends (W.contents writer.old) (W.contents writer.new) (damaged_count_json damaged)) }
{
    write!(writer, ",\"damaged\":{damaged}}}")
}
