//! The command, built with clap.
//!
//! 1. Which words there are is said here and nowhere else: a subcommand for each of `run`, `make` and `recover`, with
//!    its options, its flags and, for `run`, the scripts.
//! 2. All values are texts. What a number or a name may be is checked after clap has taken the words.
//! 3. Help is turned off and no version is set, so clap prints nothing: such words aren't taken.

ghost use Rattle.std.specs.Prelude.{◌≡◌, true, false, IfOk};
ghost use Rattle.clap.specs.Words.{app_of, rule_of};
ghost use Rattle.command_words.specs.App.{option_rule, flag_rule, scripts_rule, run_shape, make_shape, recover_shape, teseo_app};
ghost use Rattle.command_words.specs.Views.{leaf_app};

use clap::{Arg, ArgAction, Command};
use std::alloc::{AllocError, Global};

/// The command `teseo` with its subcommands.
pub(crate) fn teseo_command<'a>(alloc: Global) -> Result<Command<'a>, AllocError>
    ensures { IfOk result (λ command. app_of command ≡ teseo_app) }
{
    let run = run_command(alloc)?;
    let make = make_command(alloc)?;
    let recover = recover_command(alloc)?;
    Command::new(alloc, "teseo")
        .no_binary_name(true)
        .disable_help_flag(true)
        .disable_help_subcommand(true)
        .subcommand_required(true)
        .subcommand(run)?
        .subcommand(make)?
        .subcommand(recover)
}

fn run_command<'a>(alloc: Global) -> Result<Command<'a>, AllocError>
    ensures { IfOk result (λ command. app_of command ≡ leaf_app run_shape) }
{
    Command::new(alloc, "run")
        .arg(required(alloc, "vertices"))?
        .arg(required(alloc, "edges"))?
        .arg(required(alloc, "journal"))?
        .arg(flag(alloc, "directed"))?
        .arg(optional(alloc, "weights"))?
        .arg(flag(alloc, "cut"))?
        .arg(optional(alloc, "schedule"))?
        .arg(optional(alloc, "leaves"))?
        .arg(optional(alloc, "threads"))?
        .arg(flag(alloc, "serial"))?
        .arg(optional(alloc, "keep"))?
        .arg(scripts(alloc))
}

fn make_command<'a>(alloc: Global) -> Result<Command<'a>, AllocError>
    ensures { IfOk result (λ command. app_of command ≡ leaf_app make_shape) }
{
    Command::new(alloc, "make")
        .arg(required(alloc, "seed"))?
        .arg(required(alloc, "vertices"))?
        .arg(required(alloc, "edges"))?
        .arg(required(alloc, "out"))?
        .arg(required(alloc, "edges-out"))
}

fn recover_command<'a>(alloc: Global) -> Result<Command<'a>, AllocError>
    ensures { IfOk result (λ command. app_of command ≡ leaf_app recover_shape) }
{
    Command::new(alloc, "recover")
        .arg(required(alloc, "keep"))?
        .arg(required(alloc, "journal"))
}

/// An option that has to be given: it takes one text.
fn required<'a>(alloc: Global, name: &'a str) -> Arg<'a>
    ensures rule { rule_of result ≡ option_rule name.entry.now true }
    ensures local { result.global ≡ false }
{
    optional(alloc, name).required(true)
}

/// An option that may be left out: it takes one text.
fn optional<'a>(alloc: Global, name: &'a str) -> Arg<'a>
    ensures rule { rule_of result ≡ option_rule name.entry.now false }
    ensures local { result.global ≡ false }
{
    Arg::new(alloc, name).long(name).action(ArgAction::Set)
}

/// A flag: it takes no text.
fn flag<'a>(alloc: Global, name: &'a str) -> Arg<'a>
    ensures rule { rule_of result ≡ flag_rule name.entry.now }
    ensures local { result.global ≡ false }
{
    Arg::new(alloc, name).long(name).action(ArgAction::SetTrue)
}

/// The scripts: the words that belong to no option, one or more.
fn scripts<'a>(alloc: Global) -> Arg<'a>
    ensures rule { rule_of result ≡ scripts_rule }
    ensures local { result.global ≡ false }
{
    Arg::new(alloc, "script")
        .required(true)
        .action(ArgAction::Append)
}
