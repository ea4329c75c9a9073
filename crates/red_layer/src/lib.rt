//! The redundancy layer. The receiving half (`RedLayer`) brings the PDUs of several channels back into
//! order, drops repeats and defers early parts for at most T_seq; `Numbers` numbers what is sent.
//!
//! The redundancy layer of DIN VDE V 0831-200:2015, in this project's profile. The rules are in
//! `specs/Redundancy.antt`, whose state is `Receiver`. `crates/layer_tests/src/red_layer_tests.rt` has a caller.
//!
//! The deadline is tried once by every call of `arrive` (even with bytes that are not a PDU) and of `tick`,
//! and by nothing else. A datagram is judged by the state that the deadline leaves.
//!
//! Contracts: a deferral queue is a finite map from numbers to parts, with a fixed number of places.
#![tactic(auto)]

ghost use Rattle.std.specs.Prelude.{◌≡◌, ℕ, ◌+◌, ◌*◌, ◌%◌, ◌^◌, ◌<◌, ◌≤◌, List, [], ◌∷◌, length, IfOk, IsSome, Ok, Err, MatchResult};
ghost use Rattle.std.specs.List.{FoldsTo};
ghost use Rattle.octets.specs.declared.limits.TheConstants.{SAFE_PDU_MAX, TIME_MAX};
ghost use Rattle.red_layer.specs.FiniteMap.{Rises, take_out, part_under};
ghost use Rattle.red_layer.specs.Parts.{map_parts, IsBelow};
ghost use Rattle.red_layer.specs.Begun.{has_begun};
ghost use Rattle.red_layer.specs.Redundancy.{Input, decoded, run_from, after_run, follow, parts_due, after_release, defer, arrival, judge, parts_passed, after, new_receiver, deadline_of};

use crate::pdu::{RedFault, RedPdu, decode};
use arrayvec::ArrayVec;
use octets::limits::{REACH, SAFE_PDU_MAX};
use octets::{Milliseconds, copy_of};
use std::alloc::{Allocator, Global};
use std::marker::Model;

mod deferral;
mod law;
pub mod pdu;

pub use deferral::{Deferral, DeferralFault};
pub use law::order_law;
pub use octets::limits::{Q_MAX, T_SEQ_MAX};

/// The payload of a deferred part, at most 1,250 bytes.
type PartBytes = ArrayVec<u8, SAFE_PDU_MAX>;

/// What the layer did with a datagram. It does not report parts that the deadline released in the same
/// call; these are passed up first.
#[derive(Clone, Copy, Debug, PartialEq, Eq)]
pub enum RedEvent {
    /// It had the expected number and was passed up, and so were the deferred parts with the next numbers.
    Passed,
    /// It came early and is deferred.
    Wait,
    /// Its number is below the expected one: dropped.
    Old,
    /// Its number is more than 10 times q ahead: dropped.
    Far,
    /// It came early and every place is taken: dropped.
    Full,
    /// It came early and its number is already deferred, even if every place is taken: dropped.
    Again,
    /// It is not a redundancy PDU: dropped.
    Fault(RedFault),
}

/// A receiver of the parts that the layer passes up. The contracts of `RedLayer` use its `passes` and
/// `ready`; `ready` exists because the safety machine needs a bound on its index.
pub trait Upward {
    /// What one call of `up` with a number and payload does to the value.
    ghost passes: { Self → ℕ × List ℕ → Self → Type 0 };

    /// The value can take a part with this number.
    ghost ready: { Self → ℕ → Type 0 };

    /// Takes a payload of at most 1,250 bytes with its number.
    fn up(&mut self, seq: u32, upper: &[u8])
        requires ready { ready self.old seq }
        requires sized { length upper.now ≤ SAFE_PDU_MAX }
        // One call of `up` does to the value what its `passes` says for this number and payload.
        ensures passed { passes self.old (seq, upper.now) self.new }
        // After `up` the value can take a part with the next number.
        ensures ready { ready self.new (seq + 1) };

    /// A value that can take a part with a number can take one with any greater number.
    ghost later: { (s : Self) (n m : ℕ) → n ≤ m → ready s n → ready s m };
}

/// The settings of a receiving half. Values below the profile's ranges are harmless here.
#[derive(Clone, Copy, Debug, PartialEq, Eq)]
pub struct RedConfig {
    /// How many early parts can be deferred (1 to 8 in the profile).
    pub q: usize,
    /// How long early parts are deferred, in milliseconds (10 to 1,000 in the profile).
    pub t_seq: Milliseconds,
}

/// Why a receiving half was not opened.
#[derive(Clone, Copy, Debug, PartialEq, Eq)]
pub enum RedOpenFault {
    /// There is no memory for the deferred parts.
    Memory,
}

/// The receiving half of the redundancy layer, for all channels of one incarnation of an end.
///
/// It allocates only when it is opened. Times are whole milliseconds of one clock, at most 2^62.
#[derive(Drop)]
pub struct RedLayer<A: Allocator = Global> {
    /// How many parts can be deferred.
    q: u64,
    /// How long parts are deferred, in milliseconds.
    t_seq: Milliseconds,
    /// The number that is passed up next, without wrap. After the last number it is 2^32, and everything is
    /// `Old`; an incarnation ends before that.
    expected: u64,
    /// The time since which parts are deferred, in milliseconds, if there are any.
    since: Milliseconds,
    /// The deferred parts by their numbers.
    waiting: Deferral<PartBytes, A>,
}

impl<A: Allocator> Model for RedLayer<A> {
    ghost use Rattle.red_layer.specs.Redundancy.{Receiver};
    ghost use Rattle.red_layer.specs.Parts.{map_parts};
    ghost use Rattle.red_layer.specs.Sound.{IsSound};

    ghost Value = { Receiver };

    ghost view = { λ a. record {
      q = a.q;
      t_seq = a.t_seq;
      expected = a.expected;
      waiting = map_parts (λ part. part.items) a.waiting.waiting;
      since = a.since;
    } };

    ghost invariant = { λ a. IsSound a.q a.waiting.room a.t_seq a.expected a.since a.waiting.waiting };
}

impl<A: Allocator> RedLayer<A> {
    /// Opens a receiving half that expects number 0, with q at most 8 and T_seq at most 1,000 ms. No other
    /// call allocates.
    ///
    /// # Errors
    ///
    /// - `Memory` if there is no memory for the deferred parts.
    pub fn open(alloc: A, config: RedConfig) -> Result<Self, RedOpenFault>
        requires q { config.q ≤ Q_MAX }
        requires t_seq { config.t_seq ≤ T_SEQ_MAX }
        // A receiving half just `new_receiver` has the settings of `config`, expects number 0, and defers
        // nothing.
        ensures { IfOk result (λ layer. layer ≡ new_receiver config.q config.t_seq) }
    {
        match Deferral::new(alloc, config.q) {
            Ok(waiting) => Ok(RedLayer {
                q: config.q as u64,
                t_seq: config.t_seq,
                expected: 0,
                since: 0,
                waiting,
            }),
            Err(_) => Err(RedOpenFault::Memory),
        }
    }

    /// Begins again with the same settings, as a receiving half just opened: it expects number 0 and defers nothing.
    pub fn reopen(&mut self)
        // After `reopen`, the receiving half is as `new_receiver` with the q and T_seq that it has.
        ensures { self.new ≡ new_receiver self.old.q self.old.t_seq }
    {
        self.waiting.clear();
        self.expected = 0;
        self.since = 0;
    }

    /// Receives a datagram, which may contain any bytes, after trying the deadline once. It passes parts to
    /// `up` in order: first those that the deadline releases, then those that the datagram releases.
    pub fn arrive<U: Upward>(&mut self, octets: &[u8], now: Milliseconds, up: &mut U) -> RedEvent
        requires now { now ≤ TIME_MAX }
        requires ready { U.ready up.old self.old.expected }
        // The returned `event` is that of the rules for this datagram, for any bytes: passed, deferred,
        // dropped and why, or not a redundancy PDU.
        ensures event { result ≡ (judge now octets.now self.old).event }
        // `arrive` leaves the state of the rules `after` this `Datagram`: the deadline is tried first, then
        // the datagram is judged.
        ensures left { self.new ≡ after (Input.Datagram octets.now now) self.old }
        // `arrive` passes up exactly the parts that the rules name for this `Datagram`, in order: those
        // released by the deadline, then those of the datagram.
        ensures passed { FoldsTo U.passes up.old (parts_passed (Input.Datagram octets.now now) self.old) up.new }
        // After `arrive`, `up` can take a part with the expected number.
        ensures ready { U.ready up.new self.new.expected }
    {
        self.tick(now, up);
        match decode_part(octets) {
            Ok(pdu) => self.judge(pdu.seq, pdu.upper, now, up),
            Err(fault) => RedEvent::Fault(fault),
        }
    }

    /// Tries the deadline: if parts are deferred and their time is over, passes up the least number and the
    /// consecutive numbers after it.
    pub fn tick<U: Upward>(&mut self, now: Milliseconds, up: &mut U)
        requires now { now ≤ TIME_MAX }
        requires ready { U.ready up.old self.old.expected }
        // `tick` leaves the state of the rules `after` this `Tick`: unchanged before the deadline, else
        // with the released parts taken out.
        ensures left { self.new ≡ after (Input.Tick now) self.old }
        // `tick` passes up exactly the parts that the deadline releases at `now`, in order, and nothing
        // before the deadline.
        ensures passed { FoldsTo U.passes up.old (parts_passed (Input.Tick now) self.old) up.new }
        // After `tick`, `up` can take a part with the expected number.
        ensures ready { U.ready up.new self.new.expected }
    {
        if let Some(least) = self.waiting.least() {
            if now >= self.since + self.t_seq {
                self.follow(u64::from(least), now, up);
            }
        }
    }

    /// Returns the time from which `tick` passes something up, or `None` if nothing is deferred. It may be
    /// in the past.
    pub fn deadline(&self) -> Option<Milliseconds>
        // The result is the time since which parts are deferred plus T_seq, or `None` if nothing is
        // deferred.
        ensures moment { result ≡ deadline_of self.now }
    {
        match self.waiting.least() {
            Some(_) => Some(self.since + self.t_seq),
            None => None,
        }
    }

    /// States the bound that holds of a layer at any time. It does nothing.
    pub fn bounds(&self)
        // At most `q` parts are deferred.
        ensures { length self.now.waiting ≤ self.now.q }
    {
        let _waiting = &self.waiting;
    }

    /// Returns true if the layer has accepted anything since it was opened. Number 0, the first of a new peer,
    /// can then be below the expected one, or fall below it when the deferral deadline passes.
    pub fn has_begun(&self) -> bool
        // The result is false if and only if number 0 is still expected and nothing is deferred.
        ensures { result ≡ has_begun self.now }
    {
        self.expected > 0 || self.waiting.least().is_some()
    }

    /// Passes up the deferred parts with consecutive numbers from a number on, and expects the number after
    /// them.
    #[inline(always)]
    fn follow<U: Upward>(&mut self, from: u64, now: Milliseconds, up: &mut U)
        requires now { now ≤ TIME_MAX }
        requires in_range { from ≤ 2 ^ 32 }
        requires rises { Rises from self.old.waiting }
        requires ready { U.ready up.old from }
        // `follow` expects the number after the run from `from` on and takes the run out; if parts are
        // left, they are deferred since `now`.
        ensures left { self.new ≡ follow now from self.old }
        // `follow` passes up exactly the deferred parts with consecutive numbers from `from` on, in order.
        ensures passed { FoldsTo U.passes up.old (run_from from self.old.waiting) up.new }
        // After `follow`, `up` can take a part with the expected number.
        ensures ready { U.ready up.new self.new.expected }
    {
        // Usually nothing is deferred, and this path needs no storage for a part.
        if self.waiting.least().is_none() {
            self.expect(from);
        } else {
            self.follow_run(from, now, up);
        }
    }

    /// Expects a number next, if nothing is deferred.
    fn expect(&mut self, next: u64)
        requires in_range { next ≤ 2 ^ 32 }
        requires empty { self.old.waiting ≡ [] }
        ensures { self.new ≡ record self.old { expected = next } }
    {
        self.expected = next;
    }

    /// Does the work of `follow` if parts are deferred.
    #[cold]
    #[inline(never)]
    fn follow_run<U: Upward>(&mut self, from: u64, now: Milliseconds, up: &mut U)
        requires now { now ≤ TIME_MAX }
        requires in_range { from ≤ 2 ^ 32 }
        requires rises { Rises from self.old.waiting }
        requires ready { U.ready up.old from }
        // `follow_run` expects the number after the run from `from` on and takes the run out; if parts are
        // left, they are deferred since `now`.
        ensures left { self.new ≡ follow now from self.old }
        // `follow_run` passes up exactly the deferred parts with consecutive numbers from `from` on, in
        // order.
        ensures passed { FoldsTo U.passes up.old (run_from from self.old.waiting) up.new }
        // After `follow_run`, `up` can take a part with the expected number.
        ensures ready { U.ready up.new self.new.expected }
    {
        self.expected = pass_run(&mut self.waiting, from, up);
        if self.waiting.least().is_some() {
            self.since = now;
        }
    }

    /// Judges an arrival by its number.
    fn judge<U: Upward>(
        &mut self,
        seq: u32,
        upper: &[u8],
        now: Milliseconds,
        up: &mut U,
    ) -> RedEvent
        requires now { now ≤ TIME_MAX }
        requires small { length upper.now ≤ SAFE_PDU_MAX }
        requires ready { U.ready up.old self.old.expected }
        // The returned `event` is that of the rules for an `arrival` with this number: `Passed`, `Wait`,
        // `Old`, `Far`, `Full` or `Again`.
        ensures event { result ≡ (arrival now (seq, upper.now) self.old).event }
        // `judge` leaves the state of the rules after an `arrival` with this number and payload.
        ensures left { self.new ≡ (arrival now (seq, upper.now) self.old).left }
        // If the number is the expected one, `judge` passes up the payload and the deferred run after it;
        // otherwise nothing.
        ensures passed { FoldsTo U.passes up.old (arrival now (seq, upper.now) self.old).passed up.new }
        // After `judge`, `up` can take a part with the expected number.
        ensures ready { U.ready up.new self.new.expected }
    {
        let number = u64::from(seq);
        if number < self.expected {
            return RedEvent::Old;
        }
        if number == self.expected {
            up.up(seq, upper);
            self.follow(number + 1, now, up);
            return RedEvent::Passed;
        }
        if number > self.expected + REACH * self.q {
            return RedEvent::Far;
        }
        self.defer(seq, upper, now)
    }

    /// Defers an early part, unless its number is already deferred or every place is taken.
    #[cold]
    #[inline(never)]
    fn defer(&mut self, seq: u32, upper: &[u8], now: Milliseconds) -> RedEvent
        requires now { now ≤ TIME_MAX }
        requires small { length upper.now ≤ SAFE_PDU_MAX }
        requires ahead { self.old.expected < seq }
        // The returned `event` is `Again` if the number is already deferred, else `Full` if q parts are
        // deferred, else `Wait`.
        ensures event { result ≡ (defer now (seq, upper.now) self.old).event }
        // With `Wait` the part is added under its number, and if nothing was deferred before, the wait
        // starts `now`; otherwise nothing changes.
        ensures left { self.new ≡ (defer now (seq, upper.now) self.old).left }
    {
        if self.waiting.has(seq) {
            return RedEvent::Again;
        }
        let empty = self.waiting.least().is_none();
        match self.waiting.put(seq, copy_of(upper)) {
            Ok(()) => {
                if empty {
                    self.since = now;
                }
                RedEvent::Wait
            }
            Err(_) => RedEvent::Full,
        }
    }
}

/// Decodes a datagram.
#[tactic(auto, unfolding(crate::specs::Redundancy::decoded))]
fn decode_part(octets: &[u8]) -> Result<RedPdu<'_>, RedFault>
    // The result is the number and payload that the datagram has by `decoded`, or the first fault.
    ensures exact { MatchResult result (λ pdu. decoded octets.now ≡ Ok (pdu.seq, pdu.upper.now))
        (λ fault. decoded octets.now ≡ Err fault) }
    // A decoded payload has at most 1,250 bytes.
    ensures small { IfOk result (λ pdu. length pdu.upper.now ≤ SAFE_PDU_MAX) }
{
    match decode(octets) {
        Ok(pdu) => Ok(pdu),
        Err(fault) => Err(fault),
    }
}

/// Passes up the deferred parts with consecutive numbers from a number on, and returns the number after
/// them.
fn pass_run<A: Allocator, U: Upward>(
    waiting: &mut Deferral<PartBytes, A>,
    from: u64,
    up: &mut U,
) -> u64
    requires rises { Rises from waiting.old.waiting }
    requires below { IsBelow (2 ^ 32) waiting.old.waiting }
    requires in_range { from ≤ 2 ^ 32 }
    requires ready { U.ready up.old from }
    // `pass_run` passes up the deferred parts with consecutive numbers from `from` on, in order.
    ensures passed { FoldsTo U.passes up.old
        (run_from from (map_parts (λ part. part.items) waiting.old.waiting)) up.new }
    // `pass_run` leaves the number of places unchanged.
    ensures room { waiting.new.room ≡ waiting.old.room }
    // The parts after the run are still deferred.
    ensures rest { map_parts (λ part. part.items) waiting.new.waiting
        ≡ after_run from (map_parts (λ part. part.items) waiting.old.waiting) }
    // The result is `from` plus the length of the run.
    ensures next { result ≡ from + length (run_from from (map_parts (λ part. part.items) waiting.old.waiting)) }
    // The numbers still deferred rise and are greater than the result.
    ensures rises { Rises (result + 1) waiting.new.waiting }
    // The numbers still deferred are below 2^32.
    ensures below { IsBelow (2 ^ 32) waiting.new.waiting }
    // The result is at most 2^32.
    ensures in_range { result ≤ 2 ^ 32 }
    // After `pass_run`, `up` can take a part with the returned number.
    ensures ready { U.ready up.new result }
{
    let mut next = from;
    while let Some(part) = take_number(waiting, next) {
        up.up(next as u32, part.as_slice());
        next += 1;
    }
    next
}

/// Takes out the part under a number, which may be 2^32.
fn take_number<A: Allocator>(waiting: &mut Deferral<PartBytes, A>, number: u64) -> Option<PartBytes>
    requires { IsBelow (2 ^ 32) waiting.old.waiting }
    // The result is the part under `number`, or `None` if there is none.
    ensures part { result ≡ part_under number waiting.old.waiting }
    // `take_number` removes that number from the map and leaves the number of places.
    ensures rest { waiting.new ≡ record { room = waiting.old.room; waiting = take_out number waiting.old.waiting } }
    // If a part is returned, its number is below 2^32.
    ensures in_range { IsSome result → number < 2 ^ 32 }
{
    if number >= 1 << 32 {
        return None;
    }
    waiting.take(number as u32)
}

/// The numbers of the PDUs that one incarnation sends, from 0, modulo 2^32. It allocates nothing.
#[derive(Drop)]
pub struct Numbers {
    /// The next number.
    taken: u32,
}

impl Model for Numbers {
    ghost use Rattle.std.specs.Prelude.{ℕ};

    ghost Value = { ℕ };

    ghost view = { λ a. a.taken };
}

impl Numbers {
    /// Returns the state in which no number has been used.
    pub fn new() -> Self
        // The first number is 0.
        ensures { result ≡ 0 }
    {
        Numbers { taken: 0 }
    }

    /// Returns the next number. After 2^32 - 1 comes 0.
    pub fn next(&mut self) -> u32
        // The result of `next` is the number that the state held.
        ensures value { result ≡ self.old }
        // The state then holds that number plus 1, modulo 2^32.
        ensures left { self.new ≡ (self.old + 1) % 2 ^ 32 }
    {
        let number = self.taken;
        self.taken = number.wrapping_add(1);
        number
    }
}
