//! The arguments of `follow` as clap declares them.

ghost use Rattle.std.specs.Prelude.{◌≡◌, IfOk, false};
ghost use Rattle.clap.specs.Words.{app_of};
ghost use Rattle.clap.specs.declared.Command.TheViews.{out-Command as fields_of};
ghost use Rattle.rasta_words.specs.Choices as spec;
ghost use Rattle.rasta_words.specs.Choices.{follow_app};

use crate::arguments::{with_flag, with_operand, with_option};
use clap::Command;
use std::alloc::{AllocError, Global};

/// Declares `follow`.
#[inline(never)]
pub fn follow_command<'a>(alloc: Global) -> Result<Command<'a>, AllocError>
    // `follow_command` declares the subcommand `follow` with its options and the required argument `file`.
    ensures app { IfOk result (λ command. app_of command ≡ follow_app) }
    // No argument that `follow_command` declares is global.
    ensures local { IfOk result (λ command. (fields_of command).has_globals ≡ false) }
{
    let command = Command::new(alloc, "follow").about(
        "Analyse a recorded connection: what was lost, repeated or resent, who disconnected and why",
    );
    let command = with_code(alloc, command)?;
    let command = with_remarks(alloc, command)?;
    let command = with_ports(alloc, command)?;
    let command = with_forms(alloc, command)?;
    let command = with_times(alloc, command)?;
    with_recordings(alloc, command)
}

/// Adds `--code` and `--iv`.
#[inline(never)]
fn with_code<'a>(alloc: Global, command: Command<'a>) -> Result<Command<'a>, AllocError>
    requires { (fields_of command).has_globals ≡ false }
    // The command that `with_code` returns has `--code` and `--iv` after its other arguments.
    ensures app { IfOk result (λ made. app_of made ≡ spec.with_code (app_of command.entry)) }
    // No argument of the command that `with_code` returns is global.
    ensures local { IfOk result (λ made. (fields_of made).has_globals ≡ false) }
{
    let command = with_option(
        alloc,
        command,
        "code",
        "Length of the safety code in bytes: 0 (none), 8 or 16 [default: 8]",
    )?;
    with_option(
        alloc,
        command,
        "iv",
        "Initial value of the safety code as 32 hex digits [default: that of RFC 1320]",
    )
}

/// Adds `--only`, `--t-max` and `--messages`.
#[inline(never)]
fn with_remarks<'a>(alloc: Global, command: Command<'a>) -> Result<Command<'a>, AllocError>
    requires { (fields_of command).has_globals ≡ false }
    // The command that `with_remarks` returns has `--only`, `--t-max` and `--messages` after its other arguments.
    ensures app { IfOk result (λ made. app_of made ≡ spec.with_remarks (app_of command.entry)) }
    // No argument of the command that `with_remarks` returns is global.
    ensures local { IfOk result (λ made. (fields_of made).has_globals ≡ false) }
{
    let command = with_option(
        alloc,
        command,
        "only",
        "Print only lines with this remark: opens, repeat, differs, ahead, late, stale, anew, resent, age, waits, reason or fault [default: all lines]",
    )?;
    let command = with_option(
        alloc,
        command,
        "t-max",
        "T_max in milliseconds, for remarks on ages and waits [default: 1800]",
    )?;
    with_flag(
        alloc,
        command,
        "messages",
        "Print the telegrams of each datagram after its line",
    )
}

/// Adds `--ports`.
#[inline(never)]
fn with_ports<'a>(alloc: Global, command: Command<'a>) -> Result<Command<'a>, AllocError>
    requires { (fields_of command).has_globals ≡ false }
    // The command that `with_ports` returns has `--ports` after its other arguments.
    ensures app { IfOk result (λ made. app_of made ≡ spec.with_ports (app_of command.entry)) }
    // No argument of the command that `with_ports` returns is global.
    ensures local { IfOk result (λ made. (fields_of made).has_globals ≡ false) }
{
    with_option(
        alloc,
        command,
        "ports",
        "Read only datagrams of these UDP ports: 1 to 4 ranges, for example 46101-46102,46201-46202 [default: all]",
    )
}

/// Adds `--json`, `--choose` and `--events`.
#[inline(never)]
fn with_forms<'a>(alloc: Global, command: Command<'a>) -> Result<Command<'a>, AllocError>
    requires { (fields_of command).has_globals ≡ false }
    // The command that `with_forms` returns has `--json`, `--choose` and `--events` after its other arguments.
    ensures app { IfOk result (λ made. app_of made ≡ spec.with_forms (app_of command.entry)) }
    // No argument of the command that `with_forms` returns is global.
    ensures local { IfOk result (λ made. (fields_of made).has_globals ≡ false) }
{
    let command = with_flag(
        alloc,
        command,
        "json",
        "Print only the summary, as one line of JSON",
    )?;
    let command = with_flag(
        alloc,
        command,
        "choose",
        "Also print how times are distributed, and the settings that fit this recording, with the reasons",
    )?;
    with_flag(
        alloc,
        command,
        "events",
        "Print events in place of datagrams, each as one line of JSON, then the summary as with --json",
    )
}

/// Adds `--time`, `--from`, `--to` and `--every`.
#[inline(never)]
fn with_times<'a>(alloc: Global, command: Command<'a>) -> Result<Command<'a>, AllocError>
    requires { (fields_of command).has_globals ≡ false }
    // The command that `with_times` returns has `--time`, `--from`, `--to` and `--every` after its other arguments.
    ensures app { IfOk result (λ made. app_of made ≡ spec.with_times (app_of command.entry)) }
    // No argument of the command that `with_times` returns is global.
    ensures local { IfOk result (λ made. (fields_of made).has_globals ≡ false) }
{
    let command = with_option(
        alloc,
        command,
        "time",
        "Form of times in lines: since (seconds since the first datagram), epoch (seconds since 1970) or utc [default: since]",
    )?;
    let command = with_option(
        alloc,
        command,
        "from",
        "Read only datagrams from this instant on: seconds since the first datagram, @ and seconds since 1970, or a date and time in UTC such as 2026-11-27T03:12:00 [default: the first datagram]",
    )?;
    let command = with_option(
        alloc,
        command,
        "to",
        "Read only datagrams up to this instant, which must not be before --from [default: the end]",
    )?;
    with_option(
        alloc,
        command,
        "every",
        "Also print the summary so far each time that so many seconds have passed in the recording: 1 to 86400",
    )
}

/// Adds `--beside` and the file.
#[inline(never)]
fn with_recordings<'a>(alloc: Global, command: Command<'a>) -> Result<Command<'a>, AllocError>
    requires { (fields_of command).has_globals ≡ false }
    // The command that `with_recordings` returns has `--beside` and the required argument `file` after its other
    // arguments.
    ensures app { IfOk result (λ made. app_of made ≡ spec.with_recordings (app_of command.entry)) }
    // No argument of the command that `with_recordings` returns is global.
    ensures local { IfOk result (λ made. (fields_of made).has_globals ≡ false) }
{
    let command = with_option(
        alloc,
        command,
        "beside",
        "Pair its datagrams with those of this recording, taken at another place, and print what was lost in between and how long it took; only --ports and --json go with it",
    )?;
    with_operand(
        alloc,
        command,
        "file",
        "Capture file, or - for standard input: pcap, pcapng, or the output of `tshark -T fields -e frame.time_epoch -e ip.src -e udp.srcport -e ip.dst -e udp.dstport -e udp.payload`",
    )
}
