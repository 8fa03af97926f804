//! The `clap` command that parses the arguments.

ghost use Rattle.std.specs.Prelude.{◌≡◌, IfOk, false, map};
ghost use Rattle.clap.specs.Words.{app_of, rule_of};
ghost use Rattle.bridge_engine.specs.Commands.{option_rule, options_command, option_names};

use clap::{Arg, Command};
use std::alloc::{AllocError, Global};

// The option names.
static NAMES: [&str; 7] = ["from", "to", "week", "leap", "date", "seed", "sats"];

// The command with all options, each with one value.
pub(crate) fn options_taken<'a>(alloc: Global) -> Result<Command<'a>, AllocError>
    ensures { IfOk result (λ c. app_of c ≡ options_command option_names) }
{
    command_of(alloc, NAMES.as_slice())
}

// A command with options of these names, each with one value.
fn command_of<'a>(alloc: Global, names: &[&'a str]) -> Result<Command<'a>, AllocError>
    ensures { IfOk result (λ c. app_of c ≡ options_command (map (λ n. n.now) names.now)) }
{
    let mut command = Command::new(alloc, "navbridge")
        .no_binary_name(true)
        .disable_help_flag(true);
    for name in names {
        command = command.arg(option_of(alloc, name))?;
    }
    Ok(command)
}

// An option with this long name.
fn option_of<'a>(alloc: Global, name: &'a str) -> Arg<'a>
    ensures rule { rule_of result ≡ option_rule name.entry.now }
    ensures local { result.global ≡ false }
{
    Arg::new(alloc, name).long(name)
}
