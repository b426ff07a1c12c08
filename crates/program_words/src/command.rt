//! The program's words, as they are described to clap.
use crate::option_words::{Needed, Takes, Word};
use crate::subcommands::{SUBCOMMANDS, Subcommand};
use clap::{Arg, ArgAction, Command, value_parser};
use std::alloc::{AllocError, Global};

/// The program's version, which stands here alone.
const VERSION: &str = "0.2.0";

/// The command whose grammar the program's words follow.
pub(crate) fn command<'a>(alloc: Global) -> Result<Command<'a>, AllocError> {
    let all = subcommands(alloc)?;
    Command::new(alloc, "smallbank")
        .version(VERSION)
        .about("A SmallBank store, proved")
        .subcommands(all)
}

fn subcommands<'a>(alloc: Global) -> Result<Vec<Command<'a>>, AllocError> {
    let mut all = Vec::new(alloc);
    for subcommand in SUBCOMMANDS {
        all.push(subcommand.command(alloc)?)?;
    }
    Ok(all)
}

impl Subcommand {
    fn command<'a>(&self, alloc: Global) -> Result<Command<'a>, AllocError> {
        let args = args_of(alloc, self.words)?;
        Command::new(alloc, self.name)
            .about(self.about)
            .long_about(self.long_about)
            .after_help(self.after_help)
            .args(args)
    }
}

fn args_of<'a>(alloc: Global, words: &[Word]) -> Result<Vec<Arg<'a>>, AllocError> {
    let mut args = Vec::new(alloc);
    for word in words {
        args.push(word.arg(alloc)?)?;
    }
    Ok(args)
}

impl Word {
    fn arg<'a>(&self, alloc: Global) -> Result<Arg<'a>, AllocError> {
        let arg = self
            .takes
            .of(Arg::new(alloc, self.name).help(self.help), self.name);
        self.needed.of(or_else(arg, self.standard))
    }
}

impl Takes {
    // The argument that takes this, by its name if it is an option.
    fn of<'a>(self, arg: Arg<'a>, name: &'a str) -> Arg<'a> {
        match self {
            Takes::Operand(shown) => arg.value_name(shown),
            Takes::Nothing => arg.long(name).action(ArgAction::SetTrue),
            Takes::Text(shown) => arg.long(name).value_name(shown),
            Takes::Number(shown, first, last) => number(
                arg.long(name).value_name(shown),
                first,
                last,
            ),
        }
    }
}

fn number<'a>(arg: Arg<'a>, first: i64, last: i64) -> Arg<'a> {
    arg.value_parser(value_parser!(usize).range(first..=last))
}

// The argument with this value where it isn't given.
fn or_else<'a>(arg: Arg<'a>, standard: Option<&'static str>) -> Arg<'a> {
    match standard {
        Some(value) => arg.default_value(value),
        None => arg,
    }
}

impl Needed {
    fn of<'a>(self, arg: Arg<'a>) -> Result<Arg<'a>, AllocError> {
        match self {
            Needed::No => Ok(arg),
            Needed::Always => Ok(arg.required(true)),
            Needed::Without(other) => arg.required_unless_present(other),
            Needed::NeverWith(other) => arg.conflicts_with(other),
        }
    }
}
