//! The sums as lines.

ghost use Rattle.std.specs.Prelude.{◌≡◌, ◌<◌, OnOk};
ghost use Rattle.std.specs.Io.KnownBytes.{Appends};
ghost use Rattle.capture.specs.WholeCapture.{totals_of};
ghost use Rattle.capture_text.specs.SummaryText.{all_text, datagram_count_text, connection_text, connections_text, is_ambiguous, telling_route, counts_text, damaged_count_text, date_text, datagrams_of, datagrams_text, direction_text, disconnect_text, first_lines, half_text, kinds_text, known_channel_text, last_text, longest_text, maybe_channel_text, numbers_text, oldest_text, opening_text, other_totals_text, others_text, place_text, places_text, route_text, silence_text, sum_text, summary_text, tally_text, totals_text};

use crate::pieces::{
    Clock, channel_name, remark_on_limit, write_address, write_duration, write_ends, write_since,
    write_utc,
};
use crate::reasons::write_reasons;
use crate::sentence::write_sentence;
use crate::skips::{SkipCounts, write_passed};
use crate::table::write_sessions;
use capture::{
    CHANNELS, Connection, Direction, Entry, Route, SessionOpening, Tally, Totals, Window,
    has_identifiers, silence, sum_up,
};
use pdu_text::write_text;
use safe_pdu::Leaving;
use std::io;
use std::io::Write;

/// The values that times and ages are measured by.
#[derive(Clone, Copy, Debug, PartialEq, Eq)]
pub struct Scale {
    /// How times are printed.
    pub clock: Clock,
    /// T_max in milliseconds.
    pub t_max: u32,
}

/// The counts over the whole capture.
#[derive(Clone, Copy, Debug, PartialEq, Eq)]
pub struct CaptureCounts {
    /// Datagrams of all connections.
    pub datagrams: u64,
    /// Datagrams that were not a PDU.
    pub damaged: u64,
    /// Connections that were forgotten for lack of room.
    pub forgotten: u64,
    /// Lines or frames that were not a datagram.
    pub unreadable: u64,
    /// Lines or frames that were read.
    pub frames: u64,
    /// Lines or frames that were passed over, by kind.
    pub passed: SkipCounts,
}

/// Writes the sums: the date of the first datagram; for each connection a line for each direction, with one for each of
/// its channels, one for each of its last sessions, and a sentence; then one for what was passed over, if anything was, and a line for all, with the
/// forgotten ones (`gone`).
///
/// # Errors
///
/// The error of the writer. What was written before it stays.
pub fn write_summary<W: Write>(
    writer: &mut W,
    scale: Scale,
    gone: Totals,
    connections: &[Entry],
    counts: CaptureCounts,
) -> io::Result<()>
    // On success the date of the first datagram is appended, then the lines of each connection, with its directions,
    // channels, sessions and sentence, what was passed over, and one line for all (`summary_text`).
    ensures { OnOk result (Appends (W.contents writer.old) (W.contents writer.new)
        (summary_text scale connections.now (totals_of gone connections.now) counts)) }
{
    write_first(writer, scale.clock.first)?;
    write_connections(writer, scale, connections)?;
    write_passed(writer, &counts.passed)?;
    write_all(writer, sum_up(gone, connections), counts)?;
    Ok(())
}

/// Writes when the first datagram came.
fn write_first<W: Write>(writer: &mut W, first: u64) -> io::Result<()>
    ensures { OnOk result (Appends (W.contents writer.old) (W.contents writer.new) (first_lines first)) }
{
    if first == 0 {
        return Ok(());
    }
    write_date(writer, first)
}

/// Writes the line of the date and time of the first datagram.
#[tactic(auto, unfolding(crate::specs::SummaryText::date_text))]
fn write_date<W: Write>(writer: &mut W, first: u64) -> io::Result<()>
    ensures { OnOk result (Appends (W.contents writer.old) (W.contents writer.new) (date_text first)) }
{
    write_text(writer, "sum first datagram at ")?;
    write_utc(writer, first)?;
    write_text(writer, "\n")?;
    Ok(())
}

/// Writes the lines of all connections.
fn write_connections<W: Write>(
    writer: &mut W,
    scale: Scale,
    connections: &[Entry],
) -> io::Result<()>
    ensures { OnOk result (Appends (W.contents writer.old) (W.contents writer.new)
        (connections_text scale connections.now connections.now)) }
{
    for entry in connections {
        write_listed(writer, scale, connections, &entry.connection)?;
    }
    Ok(())
}

/// Writes the lines of one of these connections.
fn write_listed<W: Write>(
    writer: &mut W,
    scale: Scale,
    connections: &[Entry],
    connection: &Connection,
) -> io::Result<()>
    ensures { OnOk result (Appends (W.contents writer.old) (W.contents writer.new)
        (connection_text scale (telling_route connections.now connection.now) connection.now)) }
{
    let at = telling_route(connections, connection);
    write_connection(writer, scale, at, connection)
}

/// Returns the addresses of a connection's first channel, if several connections have its identifiers.
fn telling_route(connections: &[Entry], connection: &Connection) -> Option<Route>
    ensures { result ≡ telling_route connections.now connection.now }
{
    if is_ambiguous(connections, connection) {
        return connection.routes[0];
    }
    None
}

/// Returns `true` if several connections have the identifiers of this one.
fn is_ambiguous(connections: &[Entry], connection: &Connection) -> bool
    ensures { result ≡ is_ambiguous connections.now connection.now }
{
    let low = connection.low;
    let high = connection.high;
    let same = connections
        .iter()
        .filter(|entry| has_identifiers(&entry.connection, low, high))
        .count();
    same > 1
}

/// Writes the lines of a connection.
#[tactic(auto, unfolding(crate::specs::SummaryText::connection_text))]
fn write_connection<W: Write>(
    writer: &mut W,
    scale: Scale,
    at: Option<Route>,
    connection: &Connection,
) -> io::Result<()>
    ensures { OnOk result (Appends (W.contents writer.old) (W.contents writer.new)
        (connection_text scale at connection.now)) }
{
    let ends = (connection.low, connection.high);
    let back = (connection.high, connection.low);
    write_half(writer, scale, ends, connection, &connection.from_low)?;
    write_half(writer, scale, back, connection, &connection.from_high)?;
    write_sessions(writer, scale.clock, ends, at, &connection.sessions)?;
    write_sentence(writer, scale, connection)?;
    Ok(())
}

/// Writes what one end sent, and its channels; `ends` are the sender and the receiver.
#[tactic(auto, unfolding(crate::specs::SummaryText::half_text))]
fn write_half<W: Write>(
    writer: &mut W,
    scale: Scale,
    ends: (u32, u32),
    connection: &Connection,
    direction: &Direction,
) -> io::Result<()>
    ensures { OnOk result (Appends (W.contents writer.old) (W.contents writer.new)
        (half_text scale ends.0 ends.1 connection.now direction.now)) }
{
    write_direction(writer, scale, connection.last, ends, direction)?;
    write_places(writer, ends, &connection.routes, direction)?;
    Ok(())
}

/// Writes what one end sent on each channel.
#[tactic(auto, unfolding(crate::specs::SummaryText::places_text))]
fn write_places<W: Write>(
    writer: &mut W,
    ends: (u32, u32),
    routes: &[Option<Route>; CHANNELS],
    direction: &Direction,
) -> io::Result<()>
    ensures { OnOk result (Appends (W.contents writer.old) (W.contents writer.new)
        (places_text ends.0 ends.1 routes.now direction.now)) }
{
    write_place(writer, ends, routes, direction, 0)?;
    write_place(writer, ends, routes, direction, 1)?;
    write_place(writer, ends, routes, direction, 2)?;
    write_place(writer, ends, routes, direction, 3)?;
    Ok(())
}

/// Writes the line of a direction; `until` is the time up to which silence lasts.
#[tactic(auto, unfolding(crate::specs::SummaryText::direction_text))]
fn write_direction<W: Write>(
    writer: &mut W,
    scale: Scale,
    until: u64,
    ends: (u32, u32),
    direction: &Direction,
) -> io::Result<()>
    ensures { OnOk result (Appends (W.contents writer.old) (W.contents writer.new)
        (direction_text scale until ends.0 ends.1 direction.now)) }
{
    write_text(writer, "sum ")?;
    write_ends(writer, ends.0, ends.1)?;
    write_opening(writer, direction.opening, direction.tally.openings)?;
    write_numbers(writer, &direction.together)?;
    write_tally(writer, scale, until, &direction.tally)?;
    write_text(writer, "\n")?;
    Ok(())
}

/// Writes how often an end opened, and by what.
fn write_opening<W: Write>(
    writer: &mut W,
    opening: Option<SessionOpening>,
    times: u64,
) -> io::Result<()>
    ensures { OnOk result (Appends (W.contents writer.old) (W.contents writer.new) (opening_text opening times)) }
{
    match opening {
        None => write_text(writer, " opening not seen"),
        Some(opening) => {
            let name = opening.kind.name();
            write!(writer, " opened by {name} times {times}")
        }
    }
}

/// Writes the counts of a window.
#[tactic(auto, unfolding(crate::specs::SummaryText::numbers_text))]
fn write_numbers<W: Write>(writer: &mut W, window: &Window) -> io::Result<()>
    ensures { OnOk result (Appends (W.contents writer.old) (W.contents writer.new) (numbers_text window.now)) }
{
    let heard = window.heard;
    let missing = window.missing;
    write!(writer, " PDUs {heard} missing {missing}")?;
    write_others(writer, window)
}

/// Writes how many numbers were repeated, late, differing or stale.
#[tactic(auto, unfolding(crate::specs::SummaryText::others_text))]
fn write_others<W: Write>(writer: &mut W, window: &Window) -> io::Result<()>
    ensures { OnOk result (Appends (W.contents writer.old) (W.contents writer.new) (others_text window.now)) }
{
    let repeats = window.repeats;
    let late = window.late;
    let differing = window.differing;
    let stale = window.stale;
    write!(
        writer,
        " repeats {repeats} late {late} differs {differing} stale {stale}"
    )
}

/// Writes the tally of a direction.
#[tactic(auto, unfolding(crate::specs::SummaryText::tally_text))]
fn write_tally<W: Write>(writer: &mut W, scale: Scale, until: u64, tally: &Tally) -> io::Result<()>
    ensures { OnOk result (Appends (W.contents writer.old) (W.contents writer.new) (tally_text scale until tally.now)) }
{
    write_kinds(writer, tally)?;
    write_silence(writer, silence(tally, until))?;
    write_oldest(writer, scale.t_max, tally.oldest)?;
    write_longest(writer, scale.t_max, tally.longest)?;
    write_last(writer, scale.clock, tally.last)?;
    write_ending(writer, tally.leaving)?;
    Ok(())
}

/// Writes the counts of types.
#[tactic(auto, unfolding(crate::specs::SummaryText::kinds_text))]
fn write_kinds<W: Write>(writer: &mut W, tally: &Tally) -> io::Result<()>
    ensures { OnOk result (Appends (W.contents writer.old) (W.contents writer.new) (kinds_text tally.now)) }
{
    let heartbeats = tally.heartbeats;
    let requests = tally.requests;
    let resent = tally.resent;
    let disconnects = tally.disconnects;
    write!(
        writer,
        " heartbeats {heartbeats} requests {requests} resent {resent} disconnects {disconnects}"
    )
}

/// Writes the longest silence.
#[tactic(auto, unfolding(crate::specs::SummaryText::silence_text))]
fn write_silence<W: Write>(writer: &mut W, silence: u64) -> io::Result<()>
    ensures { OnOk result (Appends (W.contents writer.old) (W.contents writer.new) (silence_text silence)) }
{
    write_text(writer, " silence ")?;
    write_duration(writer, silence)
}

/// Writes the greatest age beside T_max.
#[tactic(auto, unfolding(crate::specs::SummaryText::oldest_text))]
fn write_oldest<W: Write>(writer: &mut W, t_max: u32, oldest: u32) -> io::Result<()>
    ensures { OnOk result (Appends (W.contents writer.old) (W.contents writer.new) (oldest_text t_max oldest)) }
{
    let reached = remark_on_limit(t_max, oldest);
    write!(writer, " age {oldest} of {t_max}{reached}")
}

/// Writes the longest wait beside T_max.
#[tactic(auto, unfolding(crate::specs::SummaryText::longest_text))]
fn write_longest<W: Write>(writer: &mut W, t_max: u32, longest: u32) -> io::Result<()>
    ensures { OnOk result (Appends (W.contents writer.old) (W.contents writer.new) (longest_text t_max longest)) }
{
    let reached = remark_on_limit(t_max, longest);
    write!(writer, " waits {longest} of {t_max}{reached}")
}

/// Writes the time of the last PDU.
fn write_last<W: Write>(writer: &mut W, clock: Clock, last: u64) -> io::Result<()>
    ensures { OnOk result (Appends (W.contents writer.old) (W.contents writer.new) (last_text clock last)) }
{
    if last == 0 {
        return write_text(writer, " not heard");
    }
    write_text(writer, " last ")?;
    write_since(writer, clock, last)
}

/// Writes the disconnect of a direction.
fn write_ending<W: Write>(writer: &mut W, leaving: Option<Leaving>) -> io::Result<()>
    ensures { OnOk result (Appends (W.contents writer.old) (W.contents writer.new) (disconnect_text leaving)) }
{
    match leaving {
        None => write_text(writer, " no DiscReq"),
        Some(leaving) => {
            write_text(writer, " DiscReq")?;
            write_reasons(writer, leaving)
        }
    }
}

/// Writes what one end sent on the channel at a place.
#[tactic(auto, unfolding(crate::specs::SummaryText::place_text))]
fn write_place<W: Write>(
    writer: &mut W,
    ends: (u32, u32),
    routes: &[Option<Route>; CHANNELS],
    direction: &Direction,
    place: usize,
) -> io::Result<()>
    requires { place < CHANNELS }
    ensures { OnOk result (Appends (W.contents writer.old) (W.contents writer.new)
        (place_text ends.0 ends.1 routes.now direction.now place)) }
{
    write_maybe_channel(
        writer,
        ends,
        place,
        routes[place],
        &direction.channels[place],
        direction.damaged[place],
    )
}

/// Writes the line of a channel, if there is one.
fn write_maybe_channel<W: Write>(
    writer: &mut W,
    ends: (u32, u32),
    place: usize,
    route: Option<Route>,
    window: &Window,
    damaged: u64,
) -> io::Result<()>
    ensures { OnOk result (Appends (W.contents writer.old) (W.contents writer.new)
        (maybe_channel_text ends.0 ends.1 place route window.now damaged)) }
{
    match route {
        None => Ok(()),
        Some(route) => write_channel(writer, ends, place, route, window, damaged),
    }
}

/// Writes the line of a channel.
#[tactic(auto, unfolding(crate::specs::SummaryText::known_channel_text))]
fn write_channel<W: Write>(
    writer: &mut W,
    ends: (u32, u32),
    place: usize,
    route: Route,
    window: &Window,
    damaged: u64,
) -> io::Result<()>
    ensures { OnOk result (Appends (W.contents writer.old) (W.contents writer.new)
        (known_channel_text ends.0 ends.1 place route window.now damaged)) }
{
    write_sum(writer, ends, place)?;
    write_route(writer, route)?;
    write_datagrams(writer, window, damaged)?;
    write_numbers(writer, window)?;
    write_damaged(writer, damaged)
}

/// Writes how many datagrams on a channel were not a PDU, and ends the line.
#[tactic(auto, unfolding(crate::specs::SummaryText::damaged_count_text))]
fn write_damaged<W: Write>(writer: &mut W, damaged: u64) -> io::Result<()>
    ensures { OnOk result (Appends (W.contents writer.old) (W.contents writer.new) (damaged_count_text damaged)) }
{
    writeln!(writer, " damaged {damaged}")
}

/// Writes the addresses of a channel.
#[tactic(auto, unfolding(crate::specs::SummaryText::route_text))]
fn write_route<W: Write>(writer: &mut W, route: Route) -> io::Result<()>
    ensures { OnOk result (Appends (W.contents writer.old) (W.contents writer.new) (route_text route)) }
{
    write_text(writer, " ")?;
    write_address(writer, route.low)?;
    write_text(writer, "-")?;
    write_address(writer, route.high)
}

/// Writes the ends and the number of a channel.
#[tactic(auto, unfolding(crate::specs::SummaryText::sum_text))]
fn write_sum<W: Write>(writer: &mut W, ends: (u32, u32), place: usize) -> io::Result<()>
    ensures { OnOk result (Appends (W.contents writer.old) (W.contents writer.new) (sum_text ends.0 ends.1 place)) }
{
    write_text(writer, "sum ")?;
    write_ends(writer, ends.0, ends.1)?;
    write_text(writer, channel_name(place))
}

/// Writes how many datagrams came on a channel.
#[tactic(auto, unfolding(crate::specs::SummaryText::datagrams_text))]
fn write_datagrams<W: Write>(writer: &mut W, window: &Window, damaged: u64) -> io::Result<()>
    ensures { OnOk result (Appends (W.contents writer.old) (W.contents writer.new)
        (datagrams_text window.now damaged)) }
{
    let count = datagrams(window, damaged);
    write!(writer, " datagrams {count}")
}

/// Returns how many datagrams came on a channel: in order, late, repeated, differing, stale or damaged.
pub(crate) fn datagrams(window: &Window, damaged: u64) -> u64
    ensures { result ≡ datagrams_of window.now damaged }
{
    window
        .heard
        .saturating_add(window.repeats)
        .saturating_add(window.late)
        .saturating_add(window.differing)
        .saturating_add(window.stale)
        .saturating_add(damaged)
}

/// Writes the line of sums over all connections.
#[tactic(auto, unfolding(crate::specs::SummaryText::all_text))]
fn write_all<W: Write>(writer: &mut W, totals: Totals, counts: CaptureCounts) -> io::Result<()>
    ensures { OnOk result (Appends (W.contents writer.old) (W.contents writer.new) (all_text totals counts)) }
{
    write_came(writer, counts.datagrams)?;
    write_totals(writer, totals)?;
    write_counts(writer, counts)?;
    write_text(writer, "\n")?;
    Ok(())
}

/// Writes how many datagrams came.
#[tactic(auto, unfolding(crate::specs::SummaryText::datagram_count_text))]
fn write_came<W: Write>(writer: &mut W, datagrams: u64) -> io::Result<()>
    ensures { OnOk result (Appends (W.contents writer.old) (W.contents writer.new) (datagram_count_text datagrams)) }
{
    write!(writer, "sum all datagrams {datagrams}")
}

/// Writes the sums over all connections.
#[tactic(auto, unfolding(crate::specs::SummaryText::totals_text))]
fn write_totals<W: Write>(writer: &mut W, totals: Totals) -> io::Result<()>
    ensures { OnOk result (Appends (W.contents writer.old) (W.contents writer.new) (totals_text totals)) }
{
    let heard = totals.heard;
    let missing = totals.missing;
    write!(writer, " PDUs {heard} missing {missing}")?;
    write_other_totals(writer, totals)
}

/// Writes how many numbers of all connections were repeated, late, differing or stale.
#[tactic(auto, unfolding(crate::specs::SummaryText::other_totals_text))]
fn write_other_totals<W: Write>(writer: &mut W, totals: Totals) -> io::Result<()>
    ensures { OnOk result (Appends (W.contents writer.old) (W.contents writer.new) (other_totals_text totals)) }
{
    let repeats = totals.repeats;
    let late = totals.late;
    let differing = totals.differing;
    let stale = totals.stale;
    write!(
        writer,
        " repeats {repeats} late {late} differs {differing} stale {stale}"
    )
}

/// Writes the counts over the whole capture.
#[tactic(auto, unfolding(crate::specs::SummaryText::counts_text))]
fn write_counts<W: Write>(writer: &mut W, counts: CaptureCounts) -> io::Result<()>
    ensures { OnOk result (Appends (W.contents writer.old) (W.contents writer.new) (counts_text counts)) }
{
    let damaged = counts.damaged;
    let forgotten = counts.forgotten;
    let unreadable = counts.unreadable;
    write!(
        writer,
        " damaged {damaged} forgotten {forgotten} unreadable {unreadable}"
    )
}
