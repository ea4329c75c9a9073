//! The recorder of an end: the events for its log, and what it does not count itself.

ghost use Rattle.std.specs.Prelude.{◌≡◌, ◌≤◌, ◌%◌, ◌||◌, length, ℕ, List, None, Option, true, false, slice_set};
ghost use Rattle.pdi_session.specs.declared.Phase.{Phase};
ghost use Rattle.pdu_text.specs.declared.lines.EndEvent.TheVariants as happening;
ghost use Rattle.red_layer.specs.declared.RedEvent.{RedEvent};
ghost use Rattle.safe_machine.specs.declared.ConnectionState.{ConnectionState};
ghost use Rattle.safe_machine.specs.declared.Step.{Step};
ghost use Rattle.rasta_run.specs.Counters as counting;
ghost use Rattle.rasta_run.specs.Headers.{header_seen, kind_seen};
ghost use Rattle.rasta_run.specs.Recorders.{expected_header_of};
ghost use Rattle.rasta_run.specs.Recorders as recording;
ghost use Rattle.rasta_run.specs.LogEvents as telling;
ghost use Rattle.stack_end.specs.Statistics.{one_more};

use crate::counts::{ChannelCounts, count_dropped, count_sent};
use crate::events::is_repeat;
use crate::header::{Header, header_of, kind_of};
use arrayvec::ArrayVec;
use channels::Note;
use end_settings::EndConfig;
use octets::limits::CHANNELS_MAX;
use pdu_text::{Cause, EndEvent};
use red_layer::RedEvent;
use safe_machine::{DropCause, Step};
use safe_pdu::{Identifier, Kind, Reason, SafeFault};

/// The greatest number of events that are kept. A turn receives at most 64 datagrams, and few of them make more
/// than two events.
const KEPT: usize = 256;

/// The longest datagram, in bytes.
const DATAGRAM_MAX: usize = 1_258;

/// What an end expects in the datagrams of its peer.
#[derive(Clone, Copy, Debug, PartialEq, Eq)]
pub struct ExpectedHeader {
    /// The identifier of the peer, as the sender.
    pub peer_id: Identifier,
    /// The identifier of the end, as the receiver.
    pub id: Identifier,
    /// The length of the safety code, in bytes.
    pub code: u64,
}

impl ExpectedHeader {
    /// Returns what an end with these settings expects.
    pub fn of(config: &EndConfig) -> Self
        // `of` returns both identifiers and the length of the safety code of the settings.
        ensures { result ≡ expected_header_of config.now }
    {
        ExpectedHeader {
            peer_id: config.peer_id,
            id: config.id,
            code: config.code,
        }
    }
}

/// The recorder of an end. If it does not listen, it keeps nothing, and costs one test a datagram.
#[derive(Drop)]
pub struct Recorder {
    /// Whether it listens.
    pub listens: bool,
    /// What its end expects.
    wanted: ExpectedHeader,
    /// The counts of each channel, the first one first.
    pub channels: [ChannelCounts; CHANNELS_MAX],
    /// The number of parts that ended a connection or came after its end, modulo 2^64.
    pub closing: u64,
    /// Why the last datagram was dropped. A copy of an earlier datagram does not change it.
    pub last_cause: Option<Cause>,
    /// The channel of the last datagram received, and the fields of its header.
    came: (usize, Option<Header>),
    /// Whether a datagram with the type of a ConnReq came.
    pub has_request: bool,
    /// The version of RaSTA in the last ConnReq or ConnResp for whose version the end disconnected.
    pub version: Option<u32>,
    /// The last datagram with the type of a Data.
    pub last_data: ArrayVec<u8, DATAGRAM_MAX>,
    /// The events, each at the place of its number.
    pub kept: [EndEvent; KEPT],
    /// The number of events so far, modulo 2^64.
    pub happened: u64,
}

impl Recorder {
    /// Returns a recorder that has recorded nothing.
    pub fn new(listens: bool, wanted: ExpectedHeader) -> Self
        // A new recorder listens if and only if `listens` is true.
        ensures listens { result.listens ≡ listens }
        // The end of a new recorder expects what is given.
        ensures wanted { result.wanted ≡ wanted }
        // A new recorder has no events.
        ensures happened { result.happened ≡ 0 }
        // In a new recorder nothing is counted of any channel.
        ensures channels { result.channels ≡ counting.no_channels }
        // In a new recorder no part has ended a connection.
        ensures closing { result.closing ≡ 0 }
        // In a new recorder no datagram was dropped.
        ensures last_cause { result.last_cause ≡ None }
        // In a new recorder no ConnReq has come.
        ensures request { result.has_request ≡ false }
        // In a new recorder no version of a peer was refused.
        ensures version { result.version ≡ None }
    {
        Recorder {
            listens,
            wanted,
            channels: [ChannelCounts::none(); CHANNELS_MAX],
            closing: 0,
            last_cause: None,
            came: (0, None),
            has_request: false,
            version: None,
            last_data: ArrayVec::new(),
            kept: [EndEvent::Asked; KEPT],
            happened: 0,
        }
    }

    /// Returns the event with this number, from 0. Returns `None` if it is forgotten, or has not happened.
    pub fn event(&self, number: u64) -> Option<EndEvent>
        // `event` returns each of the last 256 events by its number, and `None` for any other.
        ensures { result ≡ telling.event_at self.now.kept self.now.happened number }
    {
        if number >= self.happened || self.happened - number > KEPT as u64 {
            return None;
        }
        Some(self.kept[(number % KEPT as u64) as usize])
    }

    /// Records a datagram that was to be sent on a channel, and whether it was. Its event counts only on the first
    /// channel, since all channels carry the same.
    pub(crate) fn record_sent(&mut self, channel: usize, datagram: &[u8], went: bool)
        // If the recorder listens, the datagram is counted at its channel, by whether it was sent.
        ensures channels { self.old.listens ≡ true
            → self.new.channels ≡ counting.count_sent_on channel went self.old.channels }
        // `record_sent` does not change the number of parts that ended a connection.
        ensures closing { self.new.closing ≡ self.old.closing }
        // If the recorder listens, it also keeps the event of a datagram of the first channel; it changes nothing else.
        ensures kept { self.old.listens ≡ true → self.new ≡ recording.after_send channel datagram.now went self.old }
        // A recorder that does not listen counts nothing that is sent.
        ensures off { self.old.listens ≡ false → self.new ≡ self.old }
    {
        if !self.listens {
            return;
        }
        count_sent(&mut self.channels, channel, went);
        self.keep_some(sent_event(channel, datagram));
    }

    /// Records a datagram that was received on a channel.
    pub(crate) fn record_received(&mut self, channel: usize, datagram: &[u8])
        // If the recorder listens, it keeps the channel and the header of the datagram, and whether it is a ConnReq, and
        // changes nothing else.
        ensures came { self.old.listens ≡ true → self.new ≡ record self.old {
          came = (channel, header_seen datagram.now);
          has_request = self.old.has_request || recording.is_request (kind_seen datagram.now);
          last_data = self.new.last_data;
        } }
        // If the recorder listens and the datagram is a Data, it keeps it whole.
        ensures last_data { self.old.listens ≡ true → length datagram.now ≤ 1_258
            → self.new.last_data.items ≡ recording.data_after (kind_seen datagram.now) datagram.now self.old.last_data.items }
        // A recorder that does not listen keeps nothing of what comes.
        ensures off { self.old.listens ≡ false → self.new ≡ self.old }
    {
        if self.listens {
            self.came = (channel, header_of(datagram));
            let kind = kind_of(datagram);
            self.has_request = self.has_request || is_request(kind);
            keep_data(&mut self.last_data, kind, datagram);
        }
    }

    /// Records a note of the end.
    pub(crate) fn record_note(&mut self, note: &Note<'_>)
        // If the recorder listens and the note is a step that dropped the part of the last datagram, it counts at
        // the datagram's channel.
        ensures channels { self.old.listens ≡ true → (number : ℕ) (step : Step) → note.now ≡ Note.Step number step
            → self.new.channels
            ≡ counting.count_step_on step number self.old.came.0 self.old.came.1 self.old.channels }
        // If the recorder listens and the note is a step that ended the connection, or did nothing, it counts.
        ensures closing { self.old.listens ≡ true → (number : ℕ) (step : Step) → note.now ≡ Note.Step number step
            → self.new.closing ≡ counting.closing_count_after step self.old.closing }
        // If the recorder listens and the note is of the redundancy layer, it keeps that the last datagram was dropped
        // and why, if it was.
        ensures event { self.old.listens ≡ true → (number : Option ℕ) (event : RedEvent) → note.now ≡ Note.Redundancy number event
            → self.new ≡ recording.after_event event self.old }
        // If the recorder listens and the note is of a new state, it keeps that state.
        ensures state { self.old.listens ≡ true → (state : ConnectionState) → note.now ≡ Note.State state
            → self.new ≡ recording.with_event (happening.State state) self.old }
        // If the recorder listens and the note is of a new phase, it keeps that phase.
        ensures phase { self.old.listens ≡ true → (phase : Phase) → note.now ≡ Note.Phase phase
            → self.new ≡ recording.with_event (happening.Phase phase) self.old }
        // A recorder that does not listen keeps nothing of a note.
        ensures off { self.old.listens ≡ false → self.new ≡ self.old }
    {
        if !self.listens {
            return;
        }
        match note {
            Note::Redundancy(_, event) => self.record_event(*event),
            Note::Step(number, step) => self.record_step(*number, *step),
            Note::State(state) => self.keep(EndEvent::State(*state)),
            Note::Phase(phase) => self.keep(EndEvent::Phase(*phase)),
            Note::Take(_, _) => {}
        }
    }

    /// Records how the redundancy layer handled a datagram.
    fn record_event(&mut self, event: RedEvent)
        ensures { self.new ≡ recording.after_event event self.old }
    {
        let (channel, _) = self.came;
        if let Some(cause) = event_cause(event) {
            self.drop_for(channel, cause);
        }
    }

    /// Records how the safety machine handled a part.
    fn record_step(&mut self, number: u32, step: Step)
        // A dropped part of the last datagram counts at its channel; no other step changes the counts of channels.
        ensures channels { self.new.channels
            ≡ counting.count_step_on step number self.old.came.0 self.old.came.1 self.old.channels }
        // A part that ended the connection or came after its end is counted, and no other.
        ensures closing { self.new.closing ≡ counting.closing_count_after step self.old.closing }
        // `record_step` also keeps that a part was dropped and why, and a version for which the end disconnected; it changes
        // nothing else.
        ensures kept { self.new ≡ recording.after_step number step self.old }
    {
        match step {
            Step::Dropped(cause) => self.record_drop(number, cause),
            Step::Left(reason, _) => self.record_departure(number, reason),
            Step::Nothing => self.closing = self.closing.wrapping_add(1),
            Step::Taken | Step::Gap => {}
        }
    }

    /// Records that the end disconnected because of a part.
    fn record_departure(&mut self, number: u32, reason: Reason)
        ensures { self.new ≡ record self.old {
          closing = one_more self.old.closing;
          version = recording.version_after reason (recording.header_under number self.old.came.1) self.old.version;
        } }
    {
        let (_, header) = under(self.came, number);
        self.closing = self.closing.wrapping_add(1);
        self.version = version_after(reason, header, self.version);
    }

    /// Records a part that was dropped. If it is not that of the last datagram, it was deferred, and its channel
    /// is not known.
    fn record_drop(&mut self, number: u32, cause: DropCause)
        // `record_drop` counts the part at the channel of the last datagram, if it is its part.
        ensures channels { self.new.channels ≡ counting.count_dropped_on
            (counting.channel_under number self.old.came.0 self.old.came.1) cause self.old.channels }
        // `record_drop` does not change the number of parts that ended a connection.
        ensures closing { self.new.closing ≡ self.old.closing }
        // `record_drop` also keeps the channel and the cause, with the identifiers of a stranger or another length of
        // the safety code, and what was expected, if they are known; it changes nothing else.
        ensures kept { self.new ≡ recording.after_part number cause self.old }
    {
        let (channel, header) = under(self.came, number);
        count_dropped(&mut self.channels, channel, cause);
        self.drop_for(channel, drop_cause(cause, header, self.wanted));
    }

    /// Records a dropped datagram with its cause.
    fn drop_for(&mut self, channel: usize, cause: Cause)
        // `drop_for` does not change the counts of channels.
        ensures channels { self.new.channels ≡ self.old.channels }
        // `drop_for` does not change the number of parts that ended a connection.
        ensures closing { self.new.closing ≡ self.old.closing }
        // `drop_for` keeps the cause as the last one, but no copy of an earlier datagram.
        ensures last_cause { self.new.last_cause ≡ Some (telling.last_of self.old.last_cause cause) }
        // `drop_for` keeps the event, and changes nothing else.
        ensures kept { self.new ≡ recording.after_drop channel cause self.old }
    {
        self.last_cause = Some(last_of(self.last_cause, cause));
        self.keep(EndEvent::Dropped(channel, cause));
    }

    /// Keeps an event, if there is one.
    fn keep_some(&mut self, happening: Option<EndEvent>)
        ensures { self.new ≡ recording.with_some happening self.old }
    {
        if let Some(happening) = happening {
            self.keep(happening);
        }
    }

    /// Keeps an event, in place of the oldest if there is no room.
    fn keep(&mut self, happening: EndEvent)
        ensures { self.new ≡ record self.old {
          kept = slice_set self.old.kept (self.old.happened % 256) happening;
          happened = one_more self.old.happened;
        } }
    {
        self.kept[(self.happened % KEPT as u64) as usize] = happening;
        self.happened = self.happened.wrapping_add(1);
    }
}

/// Keeps a datagram of this type in place of the last one, if it is a Data.
fn keep_data(last: &mut ArrayVec<u8, DATAGRAM_MAX>, kind: Option<Kind>, datagram: &[u8])
    ensures { length datagram.now ≤ 1_258 → last.new.items ≡ recording.data_after kind datagram.now last.old.items }
{
    if kind == Some(Kind::Data) {
        last.clear();
        let _ = last.try_extend_from_slice(datagram);
    }
}

/// Returns whether a datagram of this type requests a connection.
fn is_request(kind: Option<Kind>) -> bool
    ensures { result ≡ recording.is_request kind }
{
    match kind {
        Some(Kind::ConnReq) => true,
        _ => false,
    }
}

/// Returns the event of a datagram that was to be sent on a channel.
fn sent_event(channel: usize, datagram: &[u8]) -> Option<EndEvent>
    ensures { result ≡ recording.sent_event channel datagram.now }
{
    match channel {
        1 => event_of_made(kind_of(datagram)),
        _ => None,
    }
}

/// Returns the channel and the header of the part with this number, if it is that of the last datagram.
fn under(came: (usize, Option<Header>), number: u32) -> (usize, Option<Header>)
    // `under` returns the channel of the last datagram if the part is its, and else 0.
    ensures channel { result.0 ≡ counting.channel_under number came.0 came.1 }
    // `under` returns the header of the last datagram if the part is its, and else `None`.
    ensures header { result.1 ≡ recording.header_under number came.1 }
{
    match came {
        (channel, Some(header)) if header.number == number => (channel, Some(header)),
        _ => (0, None),
    }
}

/// Returns the version for which the end last disconnected, after it disconnected for this reason because of a part
/// with this header.
fn version_after(reason: Reason, header: Option<Header>, before: Option<u32>) -> Option<u32>
    ensures { result ≡ recording.version_after reason header before }
{
    match (reason, header) {
        (Reason::WrongVersion, Some(header)) => header.version,
        _ => before,
    }
}

/// Returns why the redundancy layer dropped a datagram.
fn event_cause(event: RedEvent) -> Option<Cause>
    ensures { result ≡ telling.event_cause event }
{
    match event {
        RedEvent::Passed | RedEvent::Wait => None,
        _ => Some(Cause::Early(event)),
    }
}

/// Returns which of two causes explains that nothing was taken.
fn last_of(before: Option<Cause>, cause: Cause) -> Cause
    ensures { result ≡ telling.last_of before cause }
{
    match before {
        Some(before) if is_repeat(cause) => before,
        _ => cause,
    }
}

/// Returns why the safety machine dropped a part, with what its header shows and what was expected, if that is known.
fn drop_cause(cause: DropCause, header: Option<Header>, wanted: ExpectedHeader) -> Cause
    ensures { result ≡ telling.drop_cause cause header wanted }
{
    match (cause, header) {
        (DropCause::Stranger, Some(header)) => Cause::Stranger {
            sender: header.sender,
            receiver: header.receiver,
            peer_id: wanted.peer_id,
            id: wanted.id,
        },
        (DropCause::Fault(fault), Some(header)) => fault_cause(fault, header.code, wanted.code),
        (cause, _) => Cause::Part(cause),
    }
}

/// Returns the cause of a part with a fault, whose safety code has the length `found`, if that is known.
fn fault_cause(fault: SafeFault, found: Option<u64>, own: u64) -> Cause
    ensures { result ≡ telling.fault_cause fault found own }
{
    match found {
        Some(found) if found != own => Cause::OtherCode { found, own },
        _ => Cause::Part(DropCause::Fault(fault)),
    }
}

/// Returns the event of a PDU that the end made, by its type.
fn event_of_made(kind: Option<Kind>) -> Option<EndEvent>
    ensures { result ≡ telling.made_event kind }
{
    match kind {
        Some(Kind::RetrReq) => Some(EndEvent::Asked),
        Some(Kind::RetrResp) => Some(EndEvent::Resent),
        _ => None,
    }
}
