//! The end of the application: it is opened from a settings file, polled in turns, and reopened if its connection is
//! lost.

ghost use Rattle.std.specs.Prelude.{◌≡◌, ◌≤◌, ◌^◌, IfOk, OnOk};

use crate::switch::{Switch, turn};
use end_settings::Side;
use octets::Milliseconds;
use octets::limits::TIME_MAX;
use safe_machine::ConnectionState;
use settings_file::{Ends, Settings, SettingsFault, Subcommand, settings};
use stack_end::{End, OpenFault};
use std::alloc::Global;
use std::env::Env;
use std::io::{Read, Write};
use std::net::Net;
use std::rt::Files;
use std::time::{Clock, Duration, Instant};
use std::{env, fs};
use thiserror::Error;
use udp_channels::{UdpChannels, UdpFault, Watch, open_udp};

/// The longest wait between two turns, in milliseconds, so that the application can change its wish.
const REST_MAX: Milliseconds = 100;

/// The limit of turns; never reached.
const MOST: u32 = u32::MAX;

/// Why the application stops before its time.
#[derive(Debug, Drop, Error)]
pub enum Stop {
    #[error("usage: embedding SETTINGS SECONDS")]
    /// The arguments are not a file and a number of seconds.
    Words,
    #[error("the file of settings cannot be read")]
    /// The settings file cannot be read, or it is not text.
    File,
    #[error("settings: {0}")]
    /// The text is not a valid settings file of an interlocking.
    Settings(SettingsFault),
    #[error("no sockets at the addresses of the settings")]
    /// The sockets cannot be opened at the addresses.
    Sockets,
    #[error("no memory")]
    /// An allocation failed.
    Memory,
    #[error("no clock or no random number from the system")]
    /// The system has no clock or no random numbers.
    System,
    #[error("the output failed")]
    /// The output failed.
    Output,
}

impl From<UdpFault> for Stop {
    fn from(fault: UdpFault) -> Stop {
        match fault {
            UdpFault::Memory => Stop::Memory,
            _ => Stop::Sockets,
        }
    }
}

/// Switches for as many seconds as the arguments say, over the channels of a settings file. A lost connection is
/// opened again, with the same sockets and another first number.
///
/// # Errors
///
/// Returns the fault of the arguments, the settings file, the sockets, the system or the output.
pub fn run<R: AllocGlobal + Env + Files + Net + Clock, O: Write>(
    rt: &R,
    out: &mut O,
) -> Result<(), Stop> {
    let (path, seconds) = words(rt)?;
    let settings = read_settings(rt, path.as_str())?;
    let mut watch = Watch::open(rt.alloc(), rt)?;
    let mut end = open(rt, &settings, &watch)?;
    let mut switch = Switch {
        is_wanted: false,
        is_put: false,
        is_on: None,
    };
    let Ok(began) = Instant::now(rt) else {
        return Err(Stop::System);
    };
    let mut now = 0;
    for _ in 0..MOST {
        now = read(rt, began, now)?;
        if now >= seconds * 1_000 {
            break;
        }
        if end.state() == ConnectionState::Closed {
            end.reopen(first_number(rt, settings.first_sn)?, now);
            switch.is_put = false;
        }
        let before = end.channels_seen().received_count();
        switch.want(now);
        let reported = switch.is_on;
        // A channel that failed is polled again in the next turn; the others continue.
        let _ = turn(&mut end, now, &mut switch);
        report(&switch, reported, out)?;
        let rest = if end.state() == ConnectionState::Closed {
            // The peer must notice the loss, too, before the connection is requested again.
            settings.config.t_max / 4
        } else if end.channels_seen().received_count() == before {
            rest(end.next_deadline(), now)
        } else {
            0
        };
        watch.wait(Duration::from_millis(rest));
    }
    end.close(now);
    Ok(())
}

/// Returns the path and the number of seconds.
fn words<R: AllocGlobal + Env>(rt: &R) -> Result<(String, u64), Stop>
    ensures { IfOk result (λ words. words.1 ≤ 2 ^ 32) }
{
    let Ok(mut words) = env::args(rt) else {
        return Err(Stop::Words);
    };
    let _program = words.next();
    let (Some(path), Some(seconds), None) = (words.next(), words.next(), words.next()) else {
        return Err(Stop::Words);
    };
    match seconds.as_str().parse::<u32>() {
        Ok(seconds) => Ok((path, u64::from(seconds))),
        Err(_) => Err(Stop::Words),
    }
}

/// Reads the settings of an interlocking.
fn read_settings<R: AllocGlobal + Files>(rt: &R, path: &str) -> Result<Settings, Stop> {
    let Ok(text) = fs::read_to_string(rt, path) else {
        return Err(Stop::File);
    };
    match settings(rt.alloc(), Subcommand::Il, text.as_str()) {
        Ok(Ends::Il(il)) => Ok(il),
        Ok(_) => Err(Stop::File),
        Err(fault) => Err(Stop::Settings(fault)),
    }
}

/// Opens an end on its channels, and adds them to the watch.
fn open<R: AllocGlobal + Files + Net>(
    rt: &R,
    settings: &Settings,
    watch: &Watch,
) -> Result<End<UdpChannels>, Stop>
    ensures { IfOk result (λ end. end.time ≡ 0) }
{
    let (local, remote) = (settings.local.as_slice(), settings.remote.as_slice());
    let mut channels = open_udp(rt.alloc(), rt, local, remote)?;
    if watch.add(&mut channels).is_err() {
        return Err(Stop::Sockets);
    }
    let first_sn = first_number(rt, settings.first_sn)?;
    let config = settings.config;
    match End::open(
        rt.alloc(),
        channels,
        config,
        Side::Interlocking,
        first_sn,
        0,
    ) {
        Ok(end) => Ok(end),
        Err((OpenFault::Memory, _channels)) => Err(Stop::Memory),
        Err((OpenFault::BadConfig, _channels)) => Err(Stop::Words),
    }
}

/// Returns the first sequence number of the settings, or a random one, so that two connections never make the same
/// bytes.
fn first_number<R: Files>(rt: &R, stated: Option<u32>) -> Result<u32, Stop> {
    if let Some(number) = stated {
        return Ok(number);
    }
    let mut octets = [0u8; 4];
    let Ok(mut file) = fs::open(rt, "/dev/urandom") else {
        return Err(Stop::System);
    };
    match file.read_exact(&mut octets) {
        Ok(()) => Ok(u32::from_le_bytes(octets)),
        Err(_) => Err(Stop::System),
    }
}

/// Returns the milliseconds since the start, never less than the last reading.
fn read<K: Clock>(system: &K, began: Instant, last: Milliseconds) -> Result<Milliseconds, Stop>
    requires { last ≤ 2 ^ 62 }
    ensures { IfOk result (λ now. (last ≤ now) × (now ≤ 2 ^ 62)) }
{
    let Ok(seen) = Instant::now(system) else {
        return Err(Stop::System);
    };
    match u64::try_from(seen.duration_since(began).as_millis()) {
        Ok(reading) if reading <= TIME_MAX => Ok(reading.max(last)),
        _ => Err(Stop::System),
    }
}

/// Returns how many milliseconds to wait until the end has something to do.
fn rest(deadline: Option<Milliseconds>, now: Milliseconds) -> Milliseconds {
    match deadline {
        Some(at) => at.saturating_sub(now).min(REST_MAX),
        None => REST_MAX,
    }
}

/// Prints the reported state of the output, if it has changed.
fn report<O: Write>(switch: &Switch, before: Option<bool>, out: &mut O) -> Result<(), Stop> {
    if switch.is_on == before {
        return Ok(());
    }
    let word = if switch.is_on == Some(true) {
        "on"
    } else {
        "off"
    };
    match writeln!(out, "the output is {word}") {
        Ok(()) => Ok(()),
        Err(_) => Err(Stop::Output),
    }
}
