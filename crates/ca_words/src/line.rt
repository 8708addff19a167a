//! What clap is told of the command line: one command with six subcommands.

ghost use Rattle.std.specs.Prelude.{◌≡◌, false, IfOk};
ghost use Rattle.clap.specs.Words.{app_of};
ghost use Rattle.clap.specs.declared.builder.command.Command.TheViews.{out-Command as fields_of};
ghost use Rattle.ca_words.specs.Line.{command_line, load_line, run_line};

use clap::{Arg, ArgAction};
use std::alloc::{AllocError, Global};

// `run` with its options. Values stay texts, since clap would read more numbers than are admitted.
fn run_line<'a>(alloc: Global) -> Result<clap::Command<'a>, AllocError>
    ensures { IfOk result (λ c. (app_of c ≡ run_line) × ((fields_of c).has_globals ≡ false)) }
{
    let workers = Arg::new(alloc, "workers").long("workers");
    let budget = Arg::new(alloc, "budget").long("budget");
    let journal = Arg::new(alloc, "journal")
        .long("journal")
        .action(ArgAction::SetTrue);
    let start = clap::Command::new(alloc, "run");
    let one = start.arg(workers)?;
    let two = one.arg(budget)?;
    let three = two.arg(journal)?;
    Ok(three)
}

// `load` with its number and its option.
fn load_line<'a>(alloc: Global) -> Result<clap::Command<'a>, AllocError>
    ensures { IfOk result (λ c. (app_of c ≡ load_line) × ((fields_of c).has_globals ≡ false)) }
{
    let n = Arg::new(alloc, "n");
    let workers = Arg::new(alloc, "workers").long("workers");
    let start = clap::Command::new(alloc, "load");
    let one = start.arg(n)?;
    let two = one.arg(workers)?;
    Ok(two)
}

/// The whole command line, whose words come without the program's name. No help is added.
pub fn command_line<'a>(alloc: Global) -> Result<clap::Command<'a>, AllocError>
    ensures { IfOk result (λ c. app_of c ≡ command_line) }
{
    let run = run_line(alloc)?;
    let check = clap::Command::new(alloc, "check");
    let load = load_line(alloc)?;
    let replay = clap::Command::new(alloc, "replay");
    let follow = clap::Command::new(alloc, "follow");
    let report = clap::Command::new(alloc, "report");
    let start = clap::Command::new(alloc, "runzolev")
        .no_binary_name(true)
        .disable_help_flag(true)
        .disable_help_subcommand(true);
    let one = start.subcommand(run)?;
    let two = one.subcommand(check)?;
    let three = two.subcommand(load)?;
    let four = three.subcommand(replay)?;
    let five = four.subcommand(follow)?;
    let six = five.subcommand(report)?;
    Ok(six)
}
