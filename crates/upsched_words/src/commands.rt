//! The program's words, for clap to read.

use crate::usages::{Argument, Beside, Given, Group, Numbers, USAGES, Usage};
use clap::builder::ValueParser;
use clap::{Arg, ArgAction, ArgGroup, Command, value_parser};
use std::alloc::{AllocError, Global};

/// The version that `--version` tells.
const VERSION: &str = "0.1.0";

/// What the help ends with.
const WHERE_TO_READ_ON: &str = "docs/formats.md tells how plans and scripts are written, \
docs/scheduler.md what commands do, docs/node.md what events do, docs/cli.md what is printed. \
examples/ has some of each.";

/// What reads such a number.
fn parser_of<'a>(numbers: Numbers) -> ValueParser<'a> {
    match numbers {
        Numbers::Percents => value_parser!(u8).range(0..=100),
        Numbers::Turns => value_parser!(u32).range(0..=1_000_000),
        Numbers::Counts => value_parser!(u32),
        Numbers::Seeds => value_parser!(u64),
    }
}

/// The argument as it is given.
fn given_so<'a>(argument: Arg<'a>, id: &'a str, given: Given) -> Result<Arg<'a>, AllocError> {
    Ok(match given {
        Given::Place => argument.required(true),
        Given::Places => argument.required(true).num_args(1..),
        Given::PlaceWithout(option) => argument.required_unless_present(option)?,
        Given::Flag => argument.long(id).action(ArgAction::SetTrue),
        Given::Value(name) => argument.long(id).value_name(name),
        Given::NeededValue(name) => argument.long(id).value_name(name).required(true),
        Given::MaybeNumber(name, numbers) => argument
            .long(id)
            .value_name(name)
            .value_parser(parser_of(numbers)),
        Given::Number(name, numbers, not_given) => argument
            .long(id)
            .value_name(name)
            .value_parser(parser_of(numbers))
            .default_value(not_given),
    })
}

/// An argument of a command.
fn argument_of<'a>(alloc: Global, row: &Argument) -> Result<Arg<'a>, AllocError> {
    let Argument(id, given, beside, help) = *row;
    let argument = given_so(Arg::new(alloc, id).help(help), id, given)?;
    match beside {
        Beside::Any => Ok(argument),
        Beside::NoneOf(others) => argument.conflicts_with_all(others),
        Beside::Only(other) => argument.requires_arg(other),
    }
}

/// The command with one more argument.
fn with_argument<'a>(
    command: Command<'a>,
    argument: Result<Arg<'a>, AllocError>,
) -> Result<Command<'a>, AllocError> {
    command.arg(argument?)
}

/// A command with its arguments.
fn with_arguments<'a>(alloc: Global, row: &Usage) -> Result<Command<'a>, AllocError> {
    let mut command = Command::new(alloc, row.name).about(row.about);
    for argument in row.arguments {
        command = with_argument(command, argument_of(alloc, argument))?;
    }
    Ok(command)
}

/// The command with a group of its arguments.
fn with_group<'a>(
    alloc: Global,
    command: Command<'a>,
    row: Group,
) -> Result<Command<'a>, AllocError> {
    let mut group = ArgGroup::new(alloc, row.name);
    for argument in row.arguments {
        group = group.arg(argument)?;
    }
    command.group(group)
}

/// A command.
fn command_of<'a>(alloc: Global, row: &Usage) -> Result<Command<'a>, AllocError> {
    let command = with_arguments(alloc, row)?;
    let command = match row.example {
        Some(example) => command.after_help(example),
        None => command,
    };
    match row.group {
        Some(group) => with_group(alloc, command, group),
        None => Ok(command),
    }
}

/// The program with one more command.
fn with_command<'a>(
    program: Command<'a>,
    command: Result<Command<'a>, AllocError>,
) -> Result<Command<'a>, AllocError> {
    program.subcommand(command?)
}

/// The program with its commands.
pub(crate) fn program<'a>(alloc: Global) -> Result<Command<'a>, AllocError> {
    let mut program = Command::new(alloc, "upsched")
        .version(VERSION)
        .about("A DOCSIS upstream scheduler over three or five nodes")
        .after_help(WHERE_TO_READ_ON)
        .subcommand_required(true);
    for row in USAGES {
        program = with_command(program, command_of(alloc, &row))?;
    }
    Ok(program)
}
