//! The program as clap declares it: its subcommands, and the arguments of `md4`, `show`, `sim` and `check`.

ghost use Rattle.std.specs.Prelude.{◌≡◌, IfOk, false};
ghost use Rattle.clap.specs.Words.{app_of};
ghost use Rattle.clap.specs.declared.Command.TheViews.{out-Command as fields_of};
ghost use Rattle.rasta_words.specs.CommandLine as spec;
ghost use Rattle.rasta_words.specs.CommandLine.{check_app, md4_app, rasta_app, show_app, sim_app};

use crate::arguments::{with_command, with_last, with_operand, with_option, with_required};
use crate::follow_command::follow_command;
use crate::run_command::net_command;
use clap::Command;
use std::alloc::{AllocError, Global};

/// The version of the program, which is that of the C library.
pub const VERSION: &str = "0.3.0";

/// Declares the whole program.
#[inline(never)]
pub fn rasta_command<'a>(alloc: Global) -> Result<Command<'a>, AllocError>
    // `rasta_command` declares the whole program with all its subcommands.
    ensures app { IfOk result (λ command. app_of command ≡ rasta_app) }
    // No argument that `rasta_command` declares is global.
    ensures local { IfOk result (λ command. (fields_of command).has_globals ≡ false) }
{
    let command = Command::new(alloc, "rasta")
        .about("Runs, simulates and analyses RaSTA connections.")
        .version(VERSION)
        .after_help(
            "Exit status: 0 success, 1 invalid input, 2 invalid command line, 3 failure of a socket, the clock or an output, 4 an end is not as --expect demands, 5 input has ended and a telegram was not put or not confirmed, 6 nobody read standard output.",
        )
        .subcommand_required(true);
    let command = with_files(alloc, command)?;
    let command = with_ends(alloc, command)?;
    with_command(command, check_command(alloc)?)
}

/// Adds the subcommands that use no sockets but `check`.
#[inline(never)]
fn with_files<'a>(alloc: Global, command: Command<'a>) -> Result<Command<'a>, AllocError>
    requires { (fields_of command).has_globals ≡ false }
    // The command that `with_files` returns has the subcommands `md4`, `show`, `sim` and `follow` after its others.
    ensures app { IfOk result (λ made. app_of made ≡ spec.with_files (app_of command.entry)) }
    // No argument of the command that `with_files` returns is global.
    ensures local { IfOk result (λ made. (fields_of made).has_globals ≡ false) }
{
    let command = with_command(command, md4_command(alloc)?)?;
    let command = with_command(command, show_command(alloc)?)?;
    let command = with_command(command, sim_command(alloc)?)?;
    with_command(command, follow_command(alloc)?)
}

/// Adds the subcommands of ends over sockets.
#[inline(never)]
fn with_ends<'a>(alloc: Global, command: Command<'a>) -> Result<Command<'a>, AllocError>
    requires { (fields_of command).has_globals ≡ false }
    // The command that `with_ends` returns has the subcommands `il`, `fe` and `pair` after its others.
    ensures app { IfOk result (λ made. app_of made ≡ spec.with_ends (app_of command.entry)) }
    // No argument of the command that `with_ends` returns is global.
    ensures local { IfOk result (λ made. (fields_of made).has_globals ≡ false) }
{
    let il = net_command(alloc, "il", "Run an interlocking over UDP")?;
    let command = with_command(command, il)?;
    let fe = net_command(alloc, "fe", "Run a field element over UDP")?;
    let command = with_command(command, fe)?;
    let pair = net_command(
        alloc,
        "pair",
        "Run an interlocking and a field element over UDP in one process",
    )?;
    with_command(command, pair)
}

/// Declares `show`.
#[inline(never)]
fn show_command<'a>(alloc: Global) -> Result<Command<'a>, AllocError>
    // `show_command` declares the subcommand `show` with the required option `--code`, the option `--iv` and the
    // required argument `hex`.
    ensures app { IfOk result (λ command. app_of command ≡ show_app) }
    // No argument that `show_command` declares is global.
    ensures local { IfOk result (λ command. (fields_of command).has_globals ≡ false) }
{
    let command = Command::new(alloc, "show").about(
        "Decode a captured datagram, or name the first fault of each layer",
    );
    let command = with_required(
        alloc,
        command,
        "code",
        "Length of the safety code in bytes: 0 (none), 8 or 16",
    )?;
    let command = with_option(
        alloc,
        command,
        "iv",
        "Initial value of the safety code as 32 hex digits [default: that of RFC 1320]",
    )?;
    with_operand(
        alloc,
        command,
        "hex",
        "Datagram as hex digits, two per byte, in upper or lower case",
    )
}

/// Declares `check`.
#[inline(never)]
fn check_command<'a>(alloc: Global) -> Result<Command<'a>, AllocError>
    // `check_command` declares the subcommand `check` with the required argument `file`, and `peer`.
    ensures app { IfOk result (λ command. app_of command ≡ check_app) }
    // No argument that `check_command` declares is global.
    ensures local { IfOk result (λ command. (fields_of command).has_globals ≡ false) }
{
    let command = Command::new(alloc, "check").about(
        "Check a settings file, and print all settings in force; or compare those of both ends; no socket is opened",
    );
    let command = with_operand(
        alloc,
        command,
        "file",
        "Settings file (TOML) for il, fe or pair; with <peer> for il",
    )?;
    with_last(
        alloc,
        command,
        "peer",
        "Settings file (TOML) for fe, to be compared with that for il",
    )
}

/// Declares `sim`.
#[inline(never)]
fn sim_command<'a>(alloc: Global) -> Result<Command<'a>, AllocError>
    // `sim_command` declares the subcommand `sim` with the required argument `script`.
    ensures app { IfOk result (λ command. app_of command ≡ sim_app) }
    // No argument that `sim_command` declares is global.
    ensures local { IfOk result (λ command. (fields_of command).has_globals ≡ false) }
{
    let command = Command::new(alloc, "sim").about(
        "Simulate an interlocking and a field element in memory, driven by a script",
    );
    with_operand(alloc, command, "script", "Script file")
}

/// Declares `md4`.
#[inline(never)]
fn md4_command<'a>(alloc: Global) -> Result<Command<'a>, AllocError>
    // `md4_command` declares the subcommand `md4` with the required argument `hex`.
    ensures app { IfOk result (λ command. app_of command ≡ md4_app) }
    // No argument that `md4_command` declares is global.
    ensures local { IfOk result (λ command. (fields_of command).has_globals ≡ false) }
{
    let command = Command::new(alloc, "md4").about("Print the MD4 digest of a message");
    with_operand(
        alloc,
        command,
        "hex",
        "Message as hex digits, or `empty` for an empty message",
    )
}
