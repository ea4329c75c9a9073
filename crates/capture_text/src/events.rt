//! The events of a recording as JSON, one object a line.

ghost use Rattle.std.specs.Prelude.{◌≡◌, OnOk};
ghost use Rattle.std.specs.Io.KnownBytes.{Appends};
ghost use Rattle.capture_text.specs.EventText.{channel_event, channel_number, damage_json, event_json, event_line, event_lines, event_name, fault_json, head_json, late_json, disconnect_event, new_disconnect_event, disconnect_json, line_json, losses_json, maybe_line, event_name_json, no_red_line, no_safe_line, number_event, opening_event, order_lines, other_lines, pdu_lines, quote_of, address_json, resent_event, spot_of, wait_event, waits_json, way_json, when_json};

use crate::choice::is_half_of;
use crate::pieces::{Clock, TimeForm, write_address, write_since};
use crate::summary::Scale;
use crate::table_json::name_truth;
use capture::{Address, Header, NumberOrder, Record, Remark, Remarks, is_first_copy};
use pdu_text::write_text;
use red_layer::pdu::RedFault;
use safe_pdu::{Identifier, Kind, Leaving, SafeFault};
use std::io;
use std::io::Write;

/// An event that a PDU shows.
#[derive(Clone, Copy, Debug, PartialEq, Eq)]
pub(crate) enum Event {
    /// A ConnReq asks for a session.
    Opens,
    /// A ConnResp brings a session up.
    Up,
    /// Numbers before it are missing.
    Lost {
        /// How many numbers.
        missing: u32,
        /// They came on no channel, not only not on its own one.
        everywhere: bool,
    },
    /// Its number was missing.
    Late {
        /// On every channel, not only on its own one.
        everywhere: bool,
    },
    /// It carries a unit that was sent before.
    Resent,
    /// Its end has waited long for a confirmation.
    Waits {
        /// The wait in milliseconds.
        waits: u32,
    },
    /// Its end leaves.
    Left {
        /// Reason and detail.
        leaving: Leaving,
    },
}

/// Where an event was recorded.
#[derive(Clone, Copy, Debug, PartialEq, Eq)]
pub(crate) struct Spot {
    /// How its time is printed.
    pub clock: Clock,
    /// When its PDU was recorded, in microseconds since 1970.
    pub time: u64,
    /// The number of its line or frame.
    pub line: u64,
    /// The end that sent its PDU.
    pub sender: Identifier,
    /// The end that the PDU is for.
    pub receiver: Identifier,
    /// The number of the channel, from 0; `CHANNELS` for any further channel.
    pub route: usize,
}

/// Writes the events of a datagram as JSON, one object a line.
///
/// # Errors
///
/// The error of the writer. What was written before it stays.
pub fn write_events<W: Write>(
    writer: &mut W,
    scale: Scale,
    line: u64,
    record: &Record,
    remark: &Remark,
) -> io::Result<()>
    // On success a line is appended for each event of the datagram. A PDU may have an opening, missing or late numbers
    // on its channel and on all, a unit that is sent again, a wait of at least half of T_max, and a leaving; a copy has
    // only those of its channel. Any other datagram is one damaged datagram (`event_lines`).
    ensures { OnOk result (Appends (W.contents writer.old) (W.contents writer.new)
        (event_lines scale line «record».now remark.now)) }
{
    match *remark {
        Remark::Pdu(_, header, remarks) => {
            let spot = place(scale.clock, line, record, &header, &remarks);
            write_pdu(writer, spot, scale.t_max, header.kind, &remarks)
        }
        Remark::NoSafe(_, fault) => write_no_safe(writer, scale.clock, line, record, fault),
        Remark::NoRed(fault) => write_no_red(writer, scale.clock, line, record, fault),
    }
}

/// Returns where a PDU was recorded.
fn place(clock: Clock, line: u64, record: &Record, header: &Header, remarks: &Remarks) -> Spot
    ensures { result ≡ spot_of clock line «record».now header.now remarks.now }
{
    Spot {
        clock,
        time: record.time,
        line,
        sender: header.sender,
        receiver: header.receiver,
        route: remarks.route,
    }
}

/// Writes the events of a PDU.
#[tactic(auto, unfolding(crate::specs::EventText::pdu_lines))]
fn write_pdu<W: Write>(
    writer: &mut W,
    spot: Spot,
    t_max: u32,
    kind: Kind,
    remarks: &Remarks,
) -> io::Result<()>
    ensures { OnOk result (Appends (W.contents writer.old) (W.contents writer.new)
        (pdu_lines spot t_max kind remarks.now)) }
{
    write_order(writer, spot, kind, remarks)?;
    write_others(writer, spot, t_max, remarks)
}

/// Writes the events of an opening and of the numbers of a PDU.
#[tactic(auto, unfolding(crate::specs::EventText::order_lines))]
fn write_order<W: Write>(
    writer: &mut W,
    spot: Spot,
    kind: Kind,
    remarks: &Remarks,
) -> io::Result<()>
    ensures { OnOk result (Appends (W.contents writer.old) (W.contents writer.new)
        (order_lines spot kind remarks.now)) }
{
    write_maybe(writer, spot, open(remarks.opens, kind))?;
    write_maybe(writer, spot, miss_on_channel(remarks.channel))?;
    write_maybe(writer, spot, miss(true, remarks.together))
}

/// Writes the other events of a PDU.
#[tactic(auto, unfolding(crate::specs::EventText::other_lines))]
fn write_others<W: Write>(
    writer: &mut W,
    spot: Spot,
    t_max: u32,
    remarks: &Remarks,
) -> io::Result<()>
    ensures { OnOk result (Appends (W.contents writer.old) (W.contents writer.new)
        (other_lines spot t_max remarks.now)) }
{
    write_maybe(writer, spot, resend(remarks))?;
    write_maybe(writer, spot, wait(t_max, remarks.waits))?;
    write_maybe(writer, spot, leave(remarks))
}

/// Returns the event of an opening.
fn open(opens: bool, kind: Kind) -> Option<Event>
    ensures { result ≡ opening_event opens kind }
{
    if !opens {
        return None;
    }
    if matches!(kind, Kind::ConnReq) {
        Some(Event::Opens)
    } else {
        Some(Event::Up)
    }
}

/// Returns the event of a number on its channel, if it was judged there.
fn miss_on_channel(channel: Option<NumberOrder>) -> Option<Event>
    ensures { result ≡ channel_event channel }
{
    match channel {
        None => None,
        Some(judged) => miss(false, judged),
    }
}

/// Returns the event of a number on every channel or on its own one.
fn miss(everywhere: bool, judged: NumberOrder) -> Option<Event>
    ensures { result ≡ number_event everywhere judged }
{
    match judged {
        NumberOrder::Ahead(missing) => Some(Event::Lost {
            missing,
            everywhere,
        }),
        NumberOrder::Late => Some(Event::Late { everywhere }),
        NumberOrder::First
        | NumberOrder::Next
        | NumberOrder::Repeat(_)
        | NumberOrder::Differs(_)
        | NumberOrder::Stale
        | NumberOrder::Anew => None,
    }
}

/// Returns the event of a unit that is sent again.
fn resend(remarks: &Remarks) -> Option<Event>
    ensures { result ≡ resent_event remarks.now }
{
    if is_first_copy(remarks.together) && remarks.resent {
        Some(Event::Resent)
    } else {
        None
    }
}

/// Returns the event of a wait.
fn wait(t_max: u32, waits: Option<u32>) -> Option<Event>
    ensures { result ≡ wait_event t_max waits }
{
    match waits {
        None => None,
        Some(waits) => {
            if is_half_of(t_max, waits) {
                Some(Event::Waits { waits })
            } else {
                None
            }
        }
    }
}

/// Returns the event of a DiscReq.
fn leave(remarks: &Remarks) -> Option<Event>
    ensures { result ≡ new_disconnect_event remarks.now }
{
    if is_first_copy(remarks.together) {
        leave_by(remarks.leaving)
    } else {
        None
    }
}

/// Returns the event of a reason.
fn leave_by(leaving: Option<Leaving>) -> Option<Event>
    ensures { result ≡ disconnect_event leaving }
{
    match leaving {
        None => None,
        Some(leaving) => Some(Event::Left { leaving }),
    }
}

/// Writes the line of an event, if there is one.
fn write_maybe<W: Write>(writer: &mut W, spot: Spot, event: Option<Event>) -> io::Result<()>
    ensures { OnOk result (Appends (W.contents writer.old) (W.contents writer.new) (maybe_line spot event)) }
{
    match event {
        None => Ok(()),
        Some(event) => write_event(writer, spot, event),
    }
}

/// Writes the line of an event.
#[tactic(auto, unfolding(crate::specs::EventText::event_line))]
fn write_event<W: Write>(writer: &mut W, spot: Spot, event: Event) -> io::Result<()>
    ensures { OnOk result (Appends (W.contents writer.old) (W.contents writer.new) (event_line spot event)) }
{
    write_head(
        writer,
        name_of_event(event),
        spot.clock,
        spot.time,
        spot.line,
    )?;
    write_way(writer, spot.sender, spot.receiver, spot.route)?;
    write_rest(writer, event)?;
    write_text(writer, "}\n")
}

/// Returns the name of an event.
fn name_of_event(event: Event) -> &'static str
    ensures { result.now ≡ event_name event }
{
    match event {
        Event::Opens => "opens",
        Event::Up => "up",
        Event::Lost { .. } => "lost",
        Event::Late { .. } => "late",
        Event::Resent => "resent",
        Event::Waits { .. } => "waits",
        Event::Left { .. } => "left",
    }
}

/// Writes name, time and line of an event.
#[tactic(auto, unfolding(crate::specs::EventText::head_json))]
fn write_head<W: Write>(
    writer: &mut W,
    name: &str,
    clock: Clock,
    time: u64,
    line: u64,
) -> io::Result<()>
    ensures { OnOk result (Appends (W.contents writer.old) (W.contents writer.new)
        (head_json name.now clock time line)) }
{
    write_name(writer, name)?;
    write_when(writer, clock, time)?;
    write_line(writer, line)
}

/// Writes the name of an event.
#[tactic(auto, unfolding(crate::specs::EventText::event_name_json))]
fn write_name<W: Write>(writer: &mut W, name: &str) -> io::Result<()>
    ensures { OnOk result (Appends (W.contents writer.old) (W.contents writer.new) (event_name_json name.now)) }
{
    write!(writer, "{{\"event\":\"{name}\",\"time\":")
}

/// Writes a time: seconds as a number, a date in quotes.
#[tactic(auto, unfolding(crate::specs::EventText::when_json))]
fn write_when<W: Write>(writer: &mut W, clock: Clock, time: u64) -> io::Result<()>
    ensures { OnOk result (Appends (W.contents writer.old) (W.contents writer.new) (when_json clock time)) }
{
    let quote = quote(clock.form);
    write_text(writer, quote)?;
    write_since(writer, clock, time)?;
    write_text(writer, quote)
}

/// Returns the quote around a time.
fn quote(form: TimeForm) -> &'static str
    ensures { result.now ≡ quote_of form }
{
    match form {
        TimeForm::Utc => "\"",
        TimeForm::Since | TimeForm::Epoch => "",
    }
}

/// Writes the number of a line.
#[tactic(auto, unfolding(crate::specs::EventText::line_json))]
fn write_line<W: Write>(writer: &mut W, line: u64) -> io::Result<()>
    ensures { OnOk result (Appends (W.contents writer.old) (W.contents writer.new) (line_json line)) }
{
    write!(writer, ",\"line\":{line}")
}

/// Writes the ends and the channel of a PDU.
#[tactic(auto, unfolding(crate::specs::EventText::way_json))]
fn write_way<W: Write>(
    writer: &mut W,
    sender: Identifier,
    receiver: Identifier,
    route: usize,
) -> io::Result<()>
    ensures { OnOk result (Appends (W.contents writer.old) (W.contents writer.new) (way_json sender receiver route)) }
{
    let channel = name_of_channel(route);
    write!(
        writer,
        ",\"from\":{sender},\"to\":{receiver},\"channel\":{channel}"
    )
}

/// Returns the number of a channel from 1.
fn name_of_channel(route: usize) -> &'static str
    ensures { result.now ≡ channel_number route }
{
    match route {
        0 => "1",
        1 => "2",
        2 => "3",
        3 => "4",
        _ => "null",
    }
}

/// Writes what an event has besides its place.
fn write_rest<W: Write>(writer: &mut W, event: Event) -> io::Result<()>
    ensures { OnOk result (Appends (W.contents writer.old) (W.contents writer.new) (event_json event)) }
{
    match event {
        Event::Opens | Event::Up | Event::Resent => Ok(()),
        Event::Lost {
            missing,
            everywhere,
        } => write_lost(writer, missing, everywhere),
        Event::Late { everywhere } => write_late(writer, everywhere),
        Event::Waits { waits } => write_waits(writer, waits),
        Event::Left { leaving } => write_left(writer, leaving),
    }
}

/// Writes how many numbers are missing, and where.
#[tactic(auto, unfolding(crate::specs::EventText::losses_json))]
fn write_lost<W: Write>(writer: &mut W, missing: u32, everywhere: bool) -> io::Result<()>
    ensures { OnOk result (Appends (W.contents writer.old) (W.contents writer.new) (losses_json missing everywhere)) }
{
    let on_all = name_truth(everywhere);
    write!(
        writer,
        ",\"on_every_channel\":{on_all},\"missing\":{missing}"
    )
}

/// Writes where a number was missing.
#[tactic(auto, unfolding(crate::specs::EventText::late_json))]
fn write_late<W: Write>(writer: &mut W, everywhere: bool) -> io::Result<()>
    ensures { OnOk result (Appends (W.contents writer.old) (W.contents writer.new) (late_json everywhere)) }
{
    let on_all = name_truth(everywhere);
    write!(writer, ",\"on_every_channel\":{on_all}")
}

/// Writes a wait.
#[tactic(auto, unfolding(crate::specs::EventText::waits_json))]
fn write_waits<W: Write>(writer: &mut W, waits: u32) -> io::Result<()>
    ensures { OnOk result (Appends (W.contents writer.old) (W.contents writer.new) (waits_json waits)) }
{
    write!(writer, ",\"waits\":{waits}")
}

/// Writes reason and detail.
#[tactic(auto, unfolding(crate::specs::EventText::disconnect_json))]
fn write_left<W: Write>(writer: &mut W, leaving: Leaving) -> io::Result<()>
    ensures { OnOk result (Appends (W.contents writer.old) (W.contents writer.new) (disconnect_json leaving)) }
{
    let reason = leaving.reason;
    let detail = leaving.detail;
    write!(writer, ",\"reason\":{reason},\"detail\":{detail}")
}

/// Writes the line of a datagram that is not a safety PDU.
#[tactic(auto, unfolding(crate::specs::EventText::no_safe_line))]
fn write_no_safe<W: Write>(
    writer: &mut W,
    clock: Clock,
    line: u64,
    record: &Record,
    fault: SafeFault,
) -> io::Result<()>
    ensures { OnOk result (Appends (W.contents writer.old) (W.contents writer.new)
        (no_safe_line clock line «record».now fault)) }
{
    write_damaged(writer, clock, line, record)?;
    write_fault(writer, "safe", fault.number(), fault.name())
}

/// Writes the line of a datagram that is not a redundancy PDU.
#[tactic(auto, unfolding(crate::specs::EventText::no_red_line))]
fn write_no_red<W: Write>(
    writer: &mut W,
    clock: Clock,
    line: u64,
    record: &Record,
    fault: RedFault,
) -> io::Result<()>
    ensures { OnOk result (Appends (W.contents writer.old) (W.contents writer.new)
        (no_red_line clock line «record».now fault)) }
{
    write_damaged(writer, clock, line, record)?;
    write_fault(writer, "red", fault.number(), fault.name())
}

/// Writes the line of a damaged datagram up to its fault.
#[tactic(auto, unfolding(crate::specs::EventText::damage_json))]
fn write_damaged<W: Write>(
    writer: &mut W,
    clock: Clock,
    line: u64,
    record: &Record,
) -> io::Result<()>
    ensures { OnOk result (Appends (W.contents writer.old) (W.contents writer.new)
        (damage_json clock line «record».now)) }
{
    write_head(writer, "damaged", clock, record.time, line)?;
    write_quoted(writer, ",\"source\":\"", record.source)?;
    write_quoted(writer, ",\"destination\":\"", record.destination)
}

/// Writes an address in quotes, after what names it.
#[tactic(auto, unfolding(crate::specs::EventText::address_json))]
fn write_quoted<W: Write>(writer: &mut W, front: &str, address: Address) -> io::Result<()>
    ensures { OnOk result (Appends (W.contents writer.old) (W.contents writer.new) (address_json front.now address)) }
{
    write_text(writer, front)?;
    write_address(writer, address)?;
    write_text(writer, "\"")
}

/// Writes the fault of a layer, and ends the object.
#[tactic(auto, unfolding(crate::specs::EventText::fault_json))]
fn write_fault<W: Write>(writer: &mut W, layer: &str, number: u8, name: &str) -> io::Result<()>
    ensures { OnOk result (Appends (W.contents writer.old) (W.contents writer.new)
        (fault_json layer.now number name.now)) }
{
    write!(
        writer,
        ",\"layer\":\"{layer}\",\"fault\":{number},\"name\":\"{name}\"}}\n"
    )
}
