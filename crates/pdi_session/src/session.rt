//! The session of one end.

ghost use Rattle.std.specs.Prelude.{◌≡◌, ◌≢◌, ◌<◌, ◌≤◌, ℕ, List, [], ◌∷◌, ◌++◌, drop, length, option_map, take, None, Some, Ok, IfSome, MatchResult, OnErr};
ghost use Rattle.std.specs.List.{FoldsTo};
ghost use Rattle.pdi_session.specs.telegram.Pairs.{HasNames};
ghost use Rattle.pdi_session.specs.telegram.Places.{tele_seen};
ghost use Rattle.pdi_session.specs.telegram.Tele.{owned_characters, tele_of};
ghost use Rattle.pdi_session.specs.telegram.TeleText.{tele_text};
ghost use Rattle.octets.specs.declared.limits.TheConstants.{WAITING_MAX};
ghost use Rattle.pdi_session.specs.declared.TheConstants.{CHECKSUM_MAX};
ghost use Rattle.pdi_session.specs.Settings.{AreSettings, AreVersions, Interlocking, Field, addressing_of, are_different, are_versions};
ghost use Rattle.pdi_session.specs.Tables.{may_put, is_initialising, table};
ghost use Rattle.pdi_session.specs.Telegrams.{form_of, is_addressed, IsNamed};
ghost use Rattle.pdi_session.specs.Histories.{History, StandsFor, add_event};
ghost use Rattle.pdi_session.specs.SessionStep.{Event, FewWait, HasRoom, added_by, after, agreed_by, agreement_of, end_of, init_refusal, judge_telegram, notice_tele, new_session, phase_by, put_refusal, sent_by, taken_by, texts, with_agreed, with_phase};

use super::{
    Agreed, Agreement, CHECKSUM_MAX, FieldConfig, InitFault, InterlockingConfig, Notice, OwnSide,
    Parties, Phase, PutFault, SessionDetail, SessionEnd, Taker, VERSIONS_MAX, Verdict,
};
use crate::MessageType;
use crate::forms::{form_of, is_reserved};
use crate::messages::{add_notice, add_telegram};
use crate::packing::Waiting;
use crate::tables::{field_up, field_verdict, interlocking_up, interlocking_verdict};
use crate::telegram::{KnownPair, Telegram};
use arrayvec::ArrayVec;
use octets::limits::{PAYLOAD_MAX, WAITING_MAX};
use std::alloc::Allocator;
use std::cmp::min;
use std::marker::Model;

/// The session of one end: its settings and its phase. No call allocates.
///
/// Messages to send are appended to the `Waiting` passed to a call; accepted commands and status go to a `Taker`.
/// `up` and `arrive` cannot refuse, so the caller must keep room for one message in the phases before
/// Initialising. At most two messages wait in those phases (clauses `few`), so there is room if the caller adds
/// none itself.
///
/// Each call is exactly one event of the rules in docs/protocol.md. What two sessions do together is in
/// `session_law`.
#[derive(Drop)]
pub struct Session {
    /// Protocol type and names of both ends.
    parties: Parties,
    /// The names in telegrams from the peer.
    names: KnownPair,
    /// Which end this is, with its versions.
    side: OwnSide,
    /// The phase.
    phase: Phase,
    /// What was agreed, if anything.
    agreed: Option<Agreement>,
}

impl Model for Session {
    ghost use Rattle.std.specs.Prelude.{◌<◌, option_map};
    ghost use Rattle.pdi_session.specs.Settings.{addressing_of, role_of, IsSide};
    ghost use Rattle.pdi_session.specs.Agreements.{kept_agreement};
    ghost use Rattle.pdi_session.specs.SessionStep.{SessionState};
    ghost use Rattle.pdi_session.specs.telegram.Pairs.{HasNames};
    ghost use Rattle.pdi_session.specs.telegram.Tele.{owned_characters};

    ghost Value = { SessionState };

    ghost view = { λ a. record {
      addressing = addressing_of a.parties;
      role = role_of a.side;
      phase = a.phase;
      agreed = option_map kept_agreement a.agreed;
    } };

    ghost invariant = { λ a. (a.parties.protocol < 256) × IsSide a.side
        × HasNames a.names (owned_characters a.parties.peer) (owned_characters a.parties.own) };
}

impl Session {
    /// Creates the session of an interlocking.
    pub fn interlocking(config: InterlockingConfig) -> Self
        // A new interlocking session is Idle, and has the protocol type, names and version of `config`.
        ensures opened { result ≡ new_session (addressing_of config.parties) (Interlocking config.version) }
        // The settings of an interlocking are in range (`AreSettings`): a protocol type below 256, two valid
        // names, and an empty checksum.
        ensures settings { AreSettings result.addressing result.role }
    {
        Session {
            parties: config.parties,
            names: names_of(&config.parties),
            side: OwnSide::Interlocking(config.version),
            phase: Phase::Idle,
            agreed: None,
        }
    }

    /// Creates the session of a field element. The caller must pass one to four different versions: test them with
    /// `are_versions`. Names and checksums that are too long do not fit their types.
    pub fn field(config: FieldConfig) -> Self
        requires { AreVersions config.versions.items }
        // A new field element session is Idle, and has the protocol type, names, versions and checksum of
        // `config`.
        ensures opened { result ≡ new_session (addressing_of config.parties)
            (Field config.versions.items config.checksum.items) }
        // The settings of a field element are in range (`AreSettings`): a protocol type below 256, two valid
        // names, and a checksum of at most 16 bytes.
        ensures settings { AreSettings result.addressing result.role }
    {
        Session {
            parties: config.parties,
            names: names_of(&config.parties),
            side: OwnSide::Field(config.versions, config.checksum),
            phase: Phase::Idle,
            agreed: None,
        }
    }

    /// Begins again with the same settings, as a session just created.
    pub fn reopen(&mut self)
        // After `reopen` the session is Idle, with the protocol type, names and role that it has.
        ensures { self.new ≡ new_session self.old.addressing self.old.role }
    {
        self.phase = Phase::Idle;
        self.agreed = None;
    }

    /// Returns the phase.
    pub fn phase(&self) -> Phase
        // `phase` returns the phase that the session is in.
        ensures phase { result ≡ self.now.phase }
    {
        let Session { phase, .. } = self;
        *phase
    }

    /// Returns what the two ends agreed on in the version check, or `None` before that. It is known from Requesting
    /// (interlocking) or AwaitRequest (field element) on, and stays until the session is reopened.
    pub fn agreed(&self) -> Option<Agreed<'_>>
        // `agreed` returns the version and checksum that the arrivals have recorded.
        ensures agreed { option_map agreement_of result ≡ self.now.agreed }
        // The checksum has at most 16 bytes.
        ensures short { IfSome result (λ a. length a.checksum.now ≤ CHECKSUM_MAX) }
    {
        match &self.agreed {
            Some(kept) => Some(Agreed {
                version: kept.version,
                checksum: kept.checksum.as_slice(),
            }),
            None => None,
        }
    }

    /// States the bounds that hold of a session at any time. It does nothing.
    pub fn bounds(&self)
        // The protocol type is below 256, both names are valid, and the checksum has at most 16 bytes
        // (`AreSettings`).
        ensures { AreSettings self.now.addressing self.now.role }
    {
        let _phase = &self.phase;
    }

    /// Starts the session when the connection is up: an interlocking sends its version, a field element waits for
    /// one. If the session is not Idle, nothing happens.
    #[tactic(auto, using(crate::proofs::one::Growth::stands_on))]
    pub fn up<A: Allocator>(&mut self, waiting: &mut Waiting<A>)
        requires room { HasRoom self.old waiting.old }
        // `up` changes only the phase, and only of an idle session: an interlocking goes to Checking, a field
        // element to AwaitCheck.
        ensures left { self.new ≡ after Event.Up self.old }
        // An idle interlocking appends a version check with its version to the waiting messages; otherwise `up`
        // appends nothing.
        ensures added { waiting.new ≡ waiting.old ++ texts (added_by Event.Up self.old) }
        // If session and waiting messages fit a history (`StandsFor`), they fit it with `Up` appended when the
        // call returns.
        ensures stands { (h : History) → StandsFor self.old waiting.old h
            → StandsFor self.new waiting.new (add_event Event.Up h) }
        // If the waiting messages are within the bound of the old phase before `up`, they are within that of the
        // new one (`FewWait`).
        ensures few { FewWait self.old waiting.old → FewWait self.new waiting.new }
    {
        let verdict = match self.side {
            OwnSide::Interlocking(version) => interlocking_up(version, self.phase),
            OwnSide::Field(_, _) => field_up(self.phase),
        };
        self.carry_out(verdict, waiting);
    }

    /// Processes a telegram from the peer, of any message type and payload. A command or status that the session
    /// accepts goes to `taker`.
    ///
    /// # Errors
    ///
    /// The session is over then. The first that applies is returned:
    ///
    /// - `NotOfThisPair` if the protocol type, the sender or the receiver is another;
    /// - `VersionDiffers` if an interlocking in Checking receives the reply with result 1;
    /// - `OutOfOrder` if the table has no row for the phase and the telegram.
    #[tactic(auto, using(crate::proofs::one::Growth::stands_on))]
    pub fn arrive<A: Allocator, T: Taker>(
        &mut self,
        telegram: &Telegram<'_>,
        waiting: &mut Waiting<A>,
        taker: &mut T,
    ) -> Result<(), SessionEnd>
        requires room { HasRoom self.old waiting.old }
        // `arrive` fails if and only if the telegram ends the session, and then returns the detail that the rules
        // give (`judge_telegram`).
        ensures answer { MatchResult result (λ _. end_of (judge_telegram self.old (tele_of telegram.now)) ≡ None)
            (λ end. end_of (judge_telegram self.old (tele_of telegram.now)) ≡ Some end.detail) }
        // `arrive` changes only the phase: it goes to the next one of the table's row, stays if the telegram is
        // taken, and is Ended if the session ends.
        ensures left { self.new ≡ after (Event.Arrives (tele_of telegram.now)) self.old }
        // If the table replies with a notice, `arrive` appends that message to the waiting ones; otherwise it
        // appends nothing.
        ensures added { waiting.new ≡ waiting.old ++ texts (added_by (Event.Arrives (tele_of telegram.now)) self.old) }
        // If session and waiting messages fit a history (`StandsFor`), they fit it with the arrival of this
        // telegram appended when the call returns.
        ensures stands { (h : History) → StandsFor self.old waiting.old h
            → StandsFor self.new waiting.new (add_event (Event.Arrives (tele_of telegram.now)) h) }
        // The taker receives this telegram's message type and payload if the table takes it, and otherwise
        // nothing.
        ensures taken { FoldsTo T.takes taker.old (taken_by (Event.Arrives (tele_of telegram.now)) self.old) taker.new }
        // Waiting messages within the bound before `arrive` are within the bound of the phase that it leaves
        // (`FewWait`).
        ensures few { FewWait self.old waiting.old → FewWait self.new waiting.new }
    {
        let verdict = self.judge(telegram);
        self.agree(telegram.payload, verdict);
        self.carry_out(verdict, waiting);
        match verdict {
            Verdict::Takes => {
                taker.take(telegram.kind, telegram.payload);
                Ok(())
            }
            Verdict::Goes(_) | Verdict::Answers(_, _) => Ok(()),
            Verdict::Ends(detail) => Err(SessionEnd { detail }),
        }
    }

    /// Decodes a message that has the names of the peer and of this end. Returns `None` if it has other names, or
    /// is too short or too long.
    #[inline(always)]
    pub fn decode_known<'a>(&self, message: &'a [u8]) -> Option<Telegram<'a>>
        // A telegram that `decode_known` returns is the one read from the message field by field (`tele_seen`).
        ensures exact { IfSome result (λ t. tele_seen message.now ≡ Ok (tele_of t)) }
        // A telegram that `decode_known` returns has the peer as sender and this end as receiver.
        ensures named { IfSome result (λ t. IsNamed self.now.addressing (tele_of t)) }
    {
        self.names.decode_known(message)
    }

    /// Processes a telegram as `arrive` does. The caller has it from `decode_known`, so the names are not compared again.
    ///
    /// # Errors
    ///
    /// Those of `arrive`.
    #[tactic(auto, using(crate::proofs::one::Growth::stands_on))]
    pub fn arrive_known<A: Allocator, T: Taker>(
        &mut self,
        telegram: &Telegram<'_>,
        waiting: &mut Waiting<A>,
        taker: &mut T,
    ) -> Result<(), SessionEnd>
        requires named { IsNamed self.old.addressing (tele_of telegram.now) }
        requires room { HasRoom self.old waiting.old }
        // `arrive_known` fails if and only if the rules end the session at this telegram, and returns their detail
        // (`judge_telegram`).
        ensures answer { MatchResult result (λ _. end_of (judge_telegram self.old (tele_of telegram.now)) ≡ None)
            (λ end. end_of (judge_telegram self.old (tele_of telegram.now)) ≡ Some end.detail) }
        // `arrive_known` changes only the phase, to the one that the rules give for a telegram with these names
        // (`after`).
        ensures left { self.new ≡ after (Event.Arrives (tele_of telegram.now)) self.old }
        // `arrive_known` appends the notice that the table replies with, if any, to the waiting messages.
        ensures added { waiting.new ≡ waiting.old ++ texts (added_by (Event.Arrives (tele_of telegram.now)) self.old) }
        // If session and waiting messages fit a history before `arrive_known` (`StandsFor`), they fit it with this
        // arrival appended afterwards.
        ensures stands { (h : History) → StandsFor self.old waiting.old h
            → StandsFor self.new waiting.new (add_event (Event.Arrives (tele_of telegram.now)) h) }
        // If the table takes the telegram, `arrive_known` passes its message type and payload to the taker, and
        // otherwise nothing.
        ensures taken { FoldsTo T.takes taker.old (taken_by (Event.Arrives (tele_of telegram.now)) self.old) taker.new }
        // `arrive_known` keeps the bound on waiting messages: that of the new phase holds if that of the old one
        // did (`FewWait`).
        ensures few { FewWait self.old waiting.old → FewWait self.new waiting.new }
    {
        let verdict = self.judge_known(telegram);
        match verdict {
            Verdict::Takes => {
                taker.take(telegram.kind, telegram.payload);
                Ok(())
            }
            Verdict::Goes(_) | Verdict::Answers(_, _) => {
                self.agree(telegram.payload, verdict);
                self.carry_out(verdict, waiting);
                Ok(())
            }
            Verdict::Ends(detail) => {
                self.carry_out(verdict, waiting);
                Err(SessionEnd { detail })
            }
        }
    }

    /// Appends a command or status to the waiting messages. The session itself does not change.
    ///
    /// # Errors
    ///
    /// Returns the first that applies, and changes nothing:
    ///
    /// - `NotEstablished` if the phase is not Established, nor Initialising at a field element;
    /// - `Full` if 64 messages wait;
    /// - `ReservedType` if the message type is one of the establishment;
    /// - `TooLong` if the payload has more than 357 bytes.
    #[tactic(auto, using(crate::proofs::one::Growth::stands_on))]
    pub fn put<A: Allocator>(
        &self,
        kind: MessageType,
        payload: &[u8],
        waiting: &mut Waiting<A>,
    ) -> Result<(), PutFault>
        // `put` accepts the telegram if and only if nothing in `put_refusal` applies; otherwise it returns the
        // first that does.
        ensures answer { MatchResult result (λ _. put_refusal self.now kind payload.now (length waiting.old) ≡ None)
            (λ fault. put_refusal self.now kind payload.now (length waiting.old) ≡ Some fault) }
        // An accepted `put` appends one message: the telegram with this session's protocol type and names, this
        // message type and payload.
        ensures added { waiting.new
            ≡ waiting.old ++ texts (added_by (Event.Puts kind payload.now (length waiting.old)) self.now) }
        // A refused `put` leaves the waiting messages unchanged.
        ensures refused { OnErr result (waiting.new ≡ waiting.old) }
        // If session and waiting messages fit a history (`StandsFor`), they fit it with this put appended when the
        // call returns, even if it is refused.
        ensures stands { (h : History) → StandsFor self.now waiting.old h
            → StandsFor self.now waiting.new (add_event (Event.Puts kind payload.now (length waiting.old)) h) }
        // The bound on waiting messages of the phase still holds after `put` if it held before (`FewWait`).
        ensures few { FewWait self.now waiting.old → FewWait self.now waiting.new }
    {
        if !self.may_put() {
            return Err(PutFault::NotEstablished);
        }
        if waiting.len() >= WAITING_MAX {
            return Err(PutFault::Full);
        }
        if is_reserved(kind) {
            return Err(PutFault::ReservedType);
        }
        if payload.len() > PAYLOAD_MAX {
            return Err(PutFault::TooLong);
        }
        add_telegram(&self.parties, kind, payload, waiting);
        Ok(())
    }

    /// Completes the initialisation of a field element: its end is sent after the initial status.
    ///
    /// # Errors
    ///
    /// Returns the first that applies, and changes nothing:
    ///
    /// - `NotInitialising` if this is not a field element in Initialising;
    /// - `Full` if 64 messages wait.
    #[tactic(auto, using(crate::proofs::one::Growth::stands_on))]
    pub fn init_done<A: Allocator>(&mut self, waiting: &mut Waiting<A>) -> Result<(), InitFault>
        // `init_done` succeeds if and only if nothing in `init_refusal` applies; otherwise it returns the first
        // that does.
        ensures answer { MatchResult result (λ _. init_refusal self.old (length waiting.old) ≡ None)
            (λ fault. init_refusal self.old (length waiting.old) ≡ Some fault) }
        // An accepted `init_done` goes to Established; nothing else of the session changes.
        ensures left { self.new ≡ after (Event.InitDone (length waiting.old)) self.old }
        // An accepted `init_done` appends the notice InitialisationCompleted to the waiting messages.
        ensures added { waiting.new ≡ waiting.old ++ texts (added_by (Event.InitDone (length waiting.old)) self.old) }
        // A refused `init_done` changes neither the session nor the waiting messages.
        ensures refused { OnErr result ((self.new ≡ self.old) × (waiting.new ≡ waiting.old)) }
        // If session and waiting messages fit a history (`StandsFor`), they fit it with `InitDone` appended when
        // the call returns.
        ensures stands { (h : History) → StandsFor self.old waiting.old h
            → StandsFor self.new waiting.new (add_event (Event.InitDone (length waiting.old)) h) }
        // If the bound on waiting messages holds before `init_done`, it holds after it: at most 64 in Established
        // (`FewWait`).
        ensures few { FewWait self.old waiting.old → FewWait self.new waiting.new }
    {
        if !self.is_initialising() {
            return Err(InitFault::NotInitialising);
        }
        if waiting.len() >= WAITING_MAX {
            return Err(InitFault::Full);
        }
        let done = Verdict::Answers(Phase::Established, Notice::InitialisationCompleted);
        self.carry_out(done, waiting);
        Ok(())
    }

    /// Ends the session when the connection is closed.
    #[tactic(auto, using(crate::proofs::one::Growth::stands_on))]
    pub fn end(&mut self)
        // `end` sets the phase to Ended and keeps the settings.
        ensures left { self.new ≡ after Event.Closes self.old }
        // If session and waiting messages fit a history (`StandsFor`), they fit it with `Closes` appended when
        // `end` returns.
        ensures stands { (waiting : List (List ℕ)) (h : History) → StandsFor self.old waiting h
            → StandsFor self.new waiting (add_event Event.Closes h) }
        // Waiting messages within the bound before `end` are within that of Ended, 64 (`FewWait`).
        ensures few { (waiting : List (List ℕ)) → FewWait self.old waiting → FewWait self.new waiting }
    {
        self.phase = Phase::Ended;
    }

    /// Decides on a telegram.
    fn judge(&self, telegram: &Telegram<'_>) -> Verdict
        ensures { result ≡ judge_telegram self.now (tele_of telegram.now) }
    {
        if !is_addressed(&self.parties, telegram) {
            return Verdict::Ends(SessionDetail::NotOfThisPair);
        }
        self.judge_form(telegram)
    }

    /// Decides on a telegram that is from the peer and for this end.
    #[inline(always)]
    fn judge_known(&self, telegram: &Telegram<'_>) -> Verdict
        requires { IsNamed self.now.addressing (tele_of telegram.now) }
        ensures { result ≡ judge_telegram self.now (tele_of telegram.now) }
    {
        if telegram.protocol != self.parties.protocol {
            return Verdict::Ends(SessionDetail::NotOfThisPair);
        }
        self.judge_form(telegram)
    }

    /// Looks up the verdict of this end's table.
    #[inline(always)]
    fn judge_form(&self, telegram: &Telegram<'_>) -> Verdict
        ensures { result ≡ table self.now.role self.now.phase (form_of telegram.now.kind telegram.now.payload.now) }
    {
        let form = form_of(telegram.kind, telegram.payload);
        match &self.side {
            OwnSide::Interlocking(version) => interlocking_verdict(*version, self.phase, form),
            OwnSide::Field(versions, _) => field_verdict(versions, self.phase, form),
        }
    }

    /// Records what a verdict agrees on, if it agrees on anything.
    fn agree(&mut self, payload: &[u8], verdict: Verdict)
        ensures { self.new ≡ with_agreed (agreed_by self.old.role payload.now verdict self.old.agreed) self.old }
    {
        match (&self.side, verdict) {
            (OwnSide::Interlocking(version), Verdict::Answers(_, Notice::InitialisationRequest)) =>
                {
                    self.agreed = Some(Agreement {
                        version: *version,
                        checksum: checksum_in(payload),
                    });
                }
            (OwnSide::Field(_, checksum), Verdict::Answers(_, Notice::VersionEqual(version))) => {
                self.agreed = Some(Agreement {
                    version,
                    checksum: copy_of(checksum.as_slice()),
                });
            }
            _ => {}
        }
    }

    /// Applies a verdict, except that it does not call the taker.
    fn carry_out<A: Allocator>(&mut self, verdict: Verdict, waiting: &mut Waiting<A>)
        requires room { sent_by self.old verdict ≢ [] → length waiting.old < WAITING_MAX }
        // The phase becomes the one that the verdict gives (`phase_by`); the settings stay.
        ensures left { self.new ≡ with_phase (phase_by self.old.phase verdict) self.old }
        // If the verdict replies with a notice, its message is appended to the waiting ones (`sent_by`).
        ensures added { waiting.new ≡ waiting.old ++ texts (sent_by self.old verdict) }
    {
        match verdict {
            Verdict::Takes => {}
            Verdict::Goes(next) => self.phase = next,
            Verdict::Answers(next, notice) => {
                self.send(notice, waiting);
                self.phase = next;
            }
            Verdict::Ends(_) => self.phase = Phase::Ended,
        }
    }

    /// Appends a telegram of the establishment to the waiting messages.
    fn send<A: Allocator>(&self, notice: Notice, waiting: &mut Waiting<A>)
        requires room { length waiting.old < WAITING_MAX }
        ensures { waiting.new ≡ waiting.old ++ tele_text (notice_tele self.now notice) ∷ [] }
    {
        match &self.side {
            OwnSide::Interlocking(_) => add_notice(&self.parties, &[], notice, waiting),
            OwnSide::Field(_, checksum) => add_notice(&self.parties, checksum, notice, waiting),
        }
    }

    /// Returns true if the application may put telegrams.
    fn may_put(&self) -> bool
        ensures { result ≡ may_put self.now.role self.now.phase }
    {
        match (&self.side, self.phase) {
            (_, Phase::Established) | (OwnSide::Field(_, _), Phase::Initialising) => true,
            _ => false,
        }
    }

    /// Returns true if this is a field element in Initialising.
    fn is_initialising(&self) -> bool
        ensures { result ≡ is_initialising self.now.role self.now.phase }
    {
        match (&self.side, self.phase) {
            (OwnSide::Field(_, _), Phase::Initialising) => true,
            _ => false,
        }
    }
}

/// Returns a copy of a checksum.
fn copy_of(checksum: &[u8]) -> ArrayVec<u8, CHECKSUM_MAX>
    requires { length checksum.now ≤ CHECKSUM_MAX }
    ensures { result.items ≡ checksum.now }
{
    let mut copy = ArrayVec::new();
    copy.try_extend_from_slice(checksum).unwrap();
    copy
}

/// Returns the checksum in the payload of a reply: what follows result, version and length.
fn checksum_in(payload: &[u8]) -> ArrayVec<u8, CHECKSUM_MAX>
    ensures { result.items ≡ take CHECKSUM_MAX (drop 3 payload.now) }
{
    match payload {
        [_, _, _, checksum @ ..] => copy_of(&checksum[..min(checksum.len(), CHECKSUM_MAX)]),
        _ => ArrayVec::new(),
    }
}

/// Returns the pair of names that telegrams from the peer have.
fn names_of(parties: &Parties) -> KnownPair
    ensures { HasNames result (owned_characters parties.now.peer) (owned_characters parties.now.own) }
{
    KnownPair::new(parties.peer.name(), parties.own.name())
}

/// Returns true if a telegram is from the peer to this end.
fn is_addressed(parties: &Parties, telegram: &Telegram<'_>) -> bool
    ensures { result ≡ is_addressed (addressing_of parties.now) (tele_of telegram.now) }
{
    telegram.protocol == parties.protocol
        && telegram.sender.as_str() == parties.peer.name().as_str()
        && telegram.receiver.as_str() == parties.own.name().as_str()
}

/// Returns true if these are one to four versions, no two of them equal.
pub fn are_versions(versions: &[u8]) -> bool
    // `are_versions` is true if and only if there are 1 to 4 versions and no two are equal.
    ensures { result ≡ are_versions versions.now }
{
    1 <= versions.len() && versions.len() <= VERSIONS_MAX && are_different(versions)
}

/// Returns true if no two versions are equal.
fn are_different(versions: &[u8]) -> bool
    ensures { result ≡ are_different versions.now }
{
    match versions {
        [] => true,
        [version, others @ ..] => !others.contains(version) && are_different(others),
    }
}
