//! From words to a command: the name, what clap makes of the others, and what is read of its matches.

ghost use Rattle.std.specs.Prelude.{◌≡◌, ◌↔◌, Bool, ℕ, List, [], IfOk, Err, Some, None, map, option_to_list, string_bytes, codes};
ghost use Rattle.clap.specs.Words.{Row, fault_of, first_value, found_of, one_text, rows_of, subcommand_of, subcommand_rows_of};
ghost use Rattle.ca_words.specs.Line.{command_line};
ghost use Rattle.ca_words.specs.Reading.{flag_text, RowsGive};
ghost use Rattle.ca_words.specs.Words.{command_in, load_with, one_number, run_with, setting};

use crate::command::{Command, WordsError};
use crate::line::command_line;
use crate::name::{Name, name_in};
use crate::number::{number_of, setting};
use clap::ArgMatches;
use clap::error::ErrorKind;
use std::alloc::Global;

/// Reads the words after the program's name.
pub fn read_words(alloc: Global, words: &[String]) -> Result<Command, WordsError>
    ensures command { IfOk result (λ c. command_in (map string_bytes words.now) ≡ Some c) }
    ensures usage { result ≡ Err WordsError.Usage → command_in (map string_bytes words.now) ≡ None }
{
    let Some(name) = name_in(words) else {
        return Err(WordsError::Usage);
    };
    let matches = parse(alloc, words)?;
    answer(name, &matches).ok_or(WordsError::Usage)
}

// What clap makes of the words.
fn parse<'a>(alloc: Global, words: &'a [String]) -> Result<ArgMatches<'a>, WordsError>
    ensures ok { IfOk result (λ m. (fault_of command_line (map string_bytes words.now) ≡ [])
        × (subcommand_rows_of m ≡ subcommand_of command_line (map string_bytes words.now))) }
    ensures usage { result ≡ Err WordsError.Usage → fault_of command_line (map string_bytes words.now) ≡ [] → ⊥ }
{
    let Ok(command) = command_line(alloc) else {
        return Err(WordsError::OutOfMemory);
    };
    match command.try_get_matches_from(words) {
        Ok(matches) => Ok(matches),
        Err(error) => Err(refusal(error.kind())),
    }
}

// Why clap refused the words.
fn refusal(kind: ErrorKind) -> WordsError
    ensures { result ≡ WordsError.OutOfMemory ↔ (kind ≡ ErrorKind.OutOfMemory) }
{
    if matches!(kind, ErrorKind::OutOfMemory) {
        WordsError::OutOfMemory
    } else {
        WordsError::Usage
    }
}

// What the named command was given.
fn answer(name: Name, matches: &ArgMatches) -> Option<Command>
    ensures { (t : List ℕ) (rows : List Row) → subcommand_rows_of matches.now ≡ Some (t, rows) → RowsGive name rows result }
{
    match matches.subcommand() {
        Some((_, inner)) => read(name, inner),
        None => None,
    }
}

fn read(name: Name, matches: &ArgMatches) -> Option<Command>
    ensures { RowsGive name (rows_of (found_of matches.now)) result }
{
    match name {
        Name::Run => read_run(matches),
        Name::Check => Some(Command::Check),
        Name::Load => read_load(matches),
        Name::Replay => Some(Command::Replay),
        Name::Follow => Some(Command::Follow),
        Name::Report => Some(Command::Report),
    }
}

fn read_run(matches: &ArgMatches) -> Option<Command>
    ensures { (journal : Bool) → one_text (found_of matches.now) (codes "journal") ≡ Some (flag_text journal)
        → result ≡ run_with (setting 1 1 16 (option_to_list (first_value (found_of matches.now) (codes "workers"))))
        (setting 1000000 1 4000000 (option_to_list (first_value (found_of matches.now) (codes "budget")))) (Some journal) }
{
    let workers = setting(matches.get_str("workers"), 1, 1, 16)?;
    let budget = setting(matches.get_str("budget"), 1_000_000, 1, 4_000_000)?;
    let journal = matches.get_flag("journal");
    Some(Command::Run {
        workers,
        budget,
        journal,
    })
}

fn read_load(matches: &ArgMatches) -> Option<Command>
    ensures { result ≡ load_with (one_number 1 20000 (option_to_list (first_value (found_of matches.now) (codes "n"))))
        (setting 1 1 16 (option_to_list (first_value (found_of matches.now) (codes "workers")))) }
{
    let n = number_of(matches.get_str("n")?, 1, 20_000)?;
    let workers = setting(matches.get_str("workers"), 1, 1, 16)?;
    Some(Command::Load { n, workers })
}
