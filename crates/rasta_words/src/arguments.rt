//! One argument or subcommand more for a command of clap.

ghost use Rattle.std.specs.Prelude.{◌≡◌, IfOk, false};
ghost use Rattle.clap.specs.Words.{app_of};
ghost use Rattle.clap.specs.declared.Command.TheViews.{out-Command as fields_of};
ghost use Rattle.rasta_words.specs.Arguments as spec;

use clap::{Arg, ArgAction, Command};
use std::alloc::{AllocError, Global};

/// Adds an option with a value.
#[inline(never)]
pub fn with_option<'a>(
    alloc: Global,
    command: Command<'a>,
    name: &'a str,
    help: &'a str,
) -> Result<Command<'a>, AllocError>
    requires { (fields_of command).has_globals ≡ false }
    // The command that `with_option` returns has an option of this `name` with a value after its other arguments.
    ensures app { IfOk result (λ made. app_of made ≡ spec.with_option (app_of command.entry) name.entry.now) }
    // No argument of the command that `with_option` returns is global.
    ensures local { IfOk result (λ made. (fields_of made).has_globals ≡ false) }
{
    command.arg(Arg::new(alloc, name).long(name).help(help))
}

/// Adds an option with a value, which is required.
#[inline(never)]
pub fn with_required<'a>(
    alloc: Global,
    command: Command<'a>,
    name: &'a str,
    help: &'a str,
) -> Result<Command<'a>, AllocError>
    requires { (fields_of command).has_globals ≡ false }
    // The command that `with_required` returns has a required option of this `name` with a value after its other
    // arguments.
    ensures app { IfOk result (λ made. app_of made ≡ spec.with_required (app_of command.entry) name.entry.now) }
    // No argument of the command that `with_required` returns is global.
    ensures local { IfOk result (λ made. (fields_of made).has_globals ≡ false) }
{
    command.arg(Arg::new(alloc, name).long(name).required(true).help(help))
}

/// Adds an option without a value.
#[inline(never)]
pub fn with_flag<'a>(
    alloc: Global,
    command: Command<'a>,
    name: &'a str,
    help: &'a str,
) -> Result<Command<'a>, AllocError>
    requires { (fields_of command).has_globals ≡ false }
    // The command that `with_flag` returns has an option of this `name` without a value after its other arguments.
    ensures app { IfOk result (λ made. app_of made ≡ spec.with_flag (app_of command.entry) name.entry.now) }
    // No argument of the command that `with_flag` returns is global.
    ensures local { IfOk result (λ made. (fields_of made).has_globals ≡ false) }
{
    command.arg(
        Arg::new(alloc, name)
            .long(name)
            .action(ArgAction::SetTrue)
            .help(help),
    )
}

/// Adds an argument that is known by its place, and is required.
#[inline(never)]
pub fn with_operand<'a>(
    alloc: Global,
    command: Command<'a>,
    name: &'a str,
    help: &'a str,
) -> Result<Command<'a>, AllocError>
    requires { (fields_of command).has_globals ≡ false }
    // The command that `with_operand` returns has a required argument of this `name`, which its place tells, after
    // its other arguments.
    ensures app { IfOk result (λ made. app_of made ≡ spec.with_operand (app_of command.entry) name.entry.now) }
    // No argument of the command that `with_operand` returns is global.
    ensures local { IfOk result (λ made. (fields_of made).has_globals ≡ false) }
{
    command.arg(Arg::new(alloc, name).required(true).help(help))
}

/// Adds an argument that its place tells, which may be missing.
#[inline(never)]
pub fn with_last<'a>(
    alloc: Global,
    command: Command<'a>,
    name: &'a str,
    help: &'a str,
) -> Result<Command<'a>, AllocError>
    requires { (fields_of command).has_globals ≡ false }
    // The command that `with_last` returns has an argument of this `name`, which its place tells and which is not required,
    // after its other arguments.
    ensures app { IfOk result (λ made. app_of made ≡ spec.with_last (app_of command.entry) name.entry.now) }
    // No argument of the command that `with_last` returns is global.
    ensures local { IfOk result (λ made. (fields_of made).has_globals ≡ false) }
{
    command.arg(Arg::new(alloc, name).help(help))
}

/// Adds a subcommand.
#[inline(never)]
pub fn with_command<'a>(command: Command<'a>, sub: Command<'a>) -> Result<Command<'a>, AllocError>
    requires command { (fields_of command).has_globals ≡ false }
    requires sub { (fields_of sub).has_globals ≡ false }
    // The command that `with_command` returns has the subcommand `sub` after its others.
    ensures app { IfOk result (λ made. app_of made ≡ spec.with_command (app_of command.entry) (app_of sub.entry)) }
    // No argument of the command that `with_command` returns, or of its subcommands, is global.
    ensures local { IfOk result (λ made. (fields_of made).has_globals ≡ false) }
{
    command.subcommand(sub)
}
