//! Options of a subcommand, as `clap` takes them.

use clap::{Arg, ArgAction, Command};
use std::alloc::{AllocError, Global};

/// An option.
#[derive(Clone, Copy)]
pub struct OptionWord {
    /// Its name, behind `--`.
    pub name: &'static str,
    /// The name of its value; a flag has none.
    pub value: Option<&'static str>,
    /// The value that it has where it is absent, if it has one then.
    pub default: Option<&'static str>,
    /// What it does.
    pub help: &'static str,
}

/// An option with a value, which may be absent.
pub fn valued<'a>(alloc: Global, name: &'a str, value: &'a str, text: &'a str) -> Arg<'a> {
    Arg::new(alloc, name)
        .long(name)
        .value_name(value)
        .help(text)
}

/// An option, as `clap` takes it.
fn arg_of<'a>(alloc: Global, option: OptionWord) -> Arg<'a> {
    let Some(value) = option.value else {
        return Arg::new(alloc, option.name)
            .long(option.name)
            .action(ArgAction::SetTrue)
            .help(option.help);
    };
    let arg = valued(alloc, option.name, value, option.help);
    match option.default {
        Some(default) => arg.default_value(default),
        None => arg,
    }
}

/// A subcommand that has these options too.
pub fn with_options<'a>(
    alloc: Global,
    command: Command<'a>,
    options: &[OptionWord],
) -> Result<Command<'a>, AllocError> {
    let mut command = command;
    for option in options {
        command = command.arg(arg_of(alloc, *option))?;
    }
    Ok(command)
}
