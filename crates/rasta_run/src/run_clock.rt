//! The clock of a run.

ghost use Rattle.std.specs.Prelude.{◌≡◌, ◌≤◌, ◌<◌, ◌+◌, ◌%◌, ◌^◌, IfOk, OnErr, OnOk, IfErr};
ghost use Rattle.std.specs.Time.{instant_nanos};
ghost use Rattle.octets.specs.declared.limits.TheConstants.{TIME_MAX};
ghost use Rattle.rasta_run.specs.RunClocks.{millis_between, time_at};

use octets::Milliseconds;
use octets::limits::TIME_MAX;
use rasta_words::Fault;
use std::time::{Clock, Instant};

/// The milliseconds since a run began, which never decrease.
#[derive(Clone, Copy, Debug)]
pub struct RunClock {
    /// When the run began: the clock is 0 then.
    pub began: Instant,
    /// The last reading.
    pub last: Milliseconds,
    /// The number of readings, modulo 2^64: one for each turn.
    pub readings: u64,
}

impl RunClock {
    /// Starts a clock now.
    ///
    /// # Errors
    ///
    /// - `Clock` if the system gives no time.
    pub fn start<K: Clock>(system: &K) -> Result<Self, Fault>
        // A clock that `start` returns is at 0 and was never read.
        ensures { IfOk result (λ clock. (clock.last ≡ 0) × (clock.readings ≡ 0)) }
    {
        match Instant::now(system) {
            Ok(began) => Ok(RunClock {
                began,
                last: 0,
                readings: 0,
            }),
            Err(_) => Err(Fault::Clock),
        }
    }

    /// Reads the clock. A reading below the last one counts as the last one.
    ///
    /// # Errors
    ///
    /// - `Clock` if the system gives no time, or it is above 2^62.
    pub fn read<K: Clock>(&mut self, system: &K) -> Result<u64, Fault>
        // The time that `read` returns is at least the last reading and at most 2^62 ms, and it becomes the last
        // reading.
        ensures now { IfOk result (λ now. (self.old.last ≤ now) × (now ≤ TIME_MAX) × (self.new.last ≡ now)) }
        // `read` does not change when the run began.
        ensures began { self.new.began ≡ self.old.began }
        // If `read` succeeds, the number of readings has grown by 1, modulo 2^64.
        ensures counted { OnOk result (self.new.readings ≡ (self.old.readings + 1) % 2 ^ 64) }
        // If `read` fails, the clock is unchanged.
        ensures refused { OnErr result (self.new ≡ self.old) }
    {
        let Ok(seen) = Instant::now(system) else {
            return Err(Fault::Clock);
        };
        let now = self.at(seen)?;
        self.readings = self.readings.wrapping_add(1);
        Ok(now)
    }

    /// Returns the time at a reading of the system's clock.
    ///
    /// # Errors
    ///
    /// - `Clock` if and only if it is above 2^62.
    fn at(&mut self, seen: Instant) -> Result<u64, Fault>
        // `at` returns the whole milliseconds since the run began, or the last reading if that is more.
        ensures now { IfOk result (λ now. now ≡ time_at (instant_nanos self.old.began) self.old.last (instant_nanos seen)) }
        // The time that `at` returns is at most 2^62 ms.
        ensures bounded { IfOk result (λ now. now ≤ TIME_MAX) }
        // If `at` succeeds, its result becomes the last reading, and nothing else changes.
        ensures kept { IfOk result (λ now. self.new ≡ record self.old { last = now }) }
        // `at` fails only if the time is above 2^62 ms.
        ensures refusal { IfErr result (λ fault. TIME_MAX
            < time_at (instant_nanos self.old.began) self.old.last (instant_nanos seen)) }
        // If `at` fails, the clock is unchanged.
        ensures refused { OnErr result (self.new ≡ self.old) }
    {
        match u64::try_from(seen.duration_since(self.began).as_millis()) {
            Ok(reading) if reading <= TIME_MAX && self.last <= TIME_MAX => {
                let now = reading.max(self.last);
                self.last = now;
                Ok(now)
            }
            _ => Err(Fault::Clock),
        }
    }
}
