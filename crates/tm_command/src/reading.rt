//! Reading words as the command.
ghost use Rattle.std.specs.Prelude.{◌≡◌, ◌≢◌, ◌≤◌, ◌↔◌, ℕ, IfOk, IfErr, IfSome, IfNone, IsErrOf, Option, option_map};
ghost use Rattle.std.specs.Option.{ForSome};
ghost use Rattle.clap.specs.Words.{found_of, first_of, kind_of, rows_of};
ghost use Rattle.tm_base.specs.Limits.{max_blocks};
ghost use Rattle.tm_command.specs.Command.{IsBlocks, IsCommand, IsCreate, IsFaultless, IsSomeCommand, Names, NamesSome, matched, texts};

use crate::command::{Command, WordsError};
use crate::definition::tmvol;
use clap::error::ErrorKind;
use clap::{ArgMatches, Error};
use std::alloc::Global;
use tm_base::limits::MAX_BLOCKS;

// Why clap gave no parse.
fn words_error(error: &Error) -> WordsError
    ensures { (result ≡ WordsError.Memory) ↔ (kind_of error.now ≡ ErrorKind.OutOfMemory) }
{
    match error.kind() {
        ErrorKind::OutOfMemory => WordsError::Memory,
        _ => WordsError::Usage,
    }
}

// What clap finds in the words; Usage exactly where it finds a fault.
fn parse<'a>(alloc: Global, words: &'a [String]) -> Result<ArgMatches<'a>, WordsError>
    ensures faultless { IfOk result (λ _. IsFaultless (texts words.entry.now)) }
    ensures matches { IfOk result (λ m. rows_of (found_of m) ≡ matched (texts words.entry.now)) }
    ensures usage { IsErrOf result WordsError.Usage → IsFaultless (texts words.entry.now) → ⊥ }
{
    let command = match tmvol(alloc) {
        Ok(command) => command,
        Err(_) => return Err(WordsError::Memory),
    };
    match command.try_get_matches_from(words) {
        Ok(matches) => Ok(matches),
        Err(error) => Err(words_error(&error)),
    }
}

// The text that was found at an option.
fn text_at<'a>(matches: &ArgMatches<'a>, name: &str) -> Option<&'a str>
    ensures { option_map (λ text. text.now) result ≡ first_of name.now (rows_of (found_of matches.now)) }
{
    matches.get_str(name)
}

// The number of blocks that a text writes.
fn blocks_of(text: &str) -> Option<u32>
    ensures some { IfSome result (IsBlocks text.now) }
    ensures none { IfNone result ((blocks : ℕ) → IsBlocks text.now blocks → ⊥) }
{
    match text.parse::<u32>() {
        Ok(blocks) if (1..=MAX_BLOCKS).contains(&blocks) => Some(blocks),
        _ => None,
    }
}

// The number of blocks that `--create` gives, or none where the option is left out.
fn create_of(text: Option<&str>) -> Result<Option<u32>, WordsError>
    ensures create { IfOk result (λ create. IsCreate (option_map (λ t. t.now) text.entry) create) }
    ensures range { IfOk result (λ create. ForSome create (λ blocks. (1 ≤ blocks) × (blocks ≤ max_blocks))) }
    ensures usage { IfErr result (λ error. (error ≡ WordsError.Usage) × ((create : Option ℕ) → IsCreate (option_map (λ t. t.now) text.entry) create → ⊥)) }
{
    match text {
        None => Ok(None),
        Some(text) => match blocks_of(text) {
            Some(blocks) => Ok(Some(blocks)),
            None => Err(WordsError::Usage),
        },
    }
}

// What was found, where the command has all of it.
fn command_in<'a>(matches: &ArgMatches<'a>) -> Result<Command<'a>, WordsError>
    ensures names { IfOk result (λ c. Names (rows_of (found_of matches.now)) c.volume.now c.store.now c.script.now c.create) }
    ensures create { IfOk result (λ c. ForSome c.create (λ blocks. (1 ≤ blocks) × (blocks ≤ max_blocks))) }
    ensures differ { IfOk result (λ c. c.volume.now ≢ c.store.now) }
    ensures usage { IfErr result (λ error. (error ≡ WordsError.Usage) × (NamesSome (rows_of (found_of matches.now)) → ⊥)) }
{
    let Some(volume) = text_at(matches, "volume") else {
        return Err(WordsError::Usage);
    };
    let Some(store) = text_at(matches, "store") else {
        return Err(WordsError::Usage);
    };
    let Some(script) = text_at(matches, "script") else {
        return Err(WordsError::Usage);
    };
    let create = create_of(text_at(matches, "create"))?;
    if volume == store {
        return Err(WordsError::Usage);
    }
    Ok(Command {
        volume,
        store,
        script,
        create,
    })
}

/// What the words after the program's name ask for (`docs/DEFINITIONS.md`, "Runs"); Usage exactly
/// where they are not the command. Errors: Usage, Memory.
pub fn read_words<'a>(alloc: Global, words: &'a [String]) -> Result<Command<'a>, WordsError>
    ensures command { IfOk result (λ c. IsCommand (texts words.entry.now) c.volume.now c.store.now c.script.now c.create) }
    ensures create { IfOk result (λ c. ForSome c.create (λ blocks. (1 ≤ blocks) × (blocks ≤ max_blocks))) }
    ensures differ { IfOk result (λ c. c.volume.now ≢ c.store.now) }
    ensures usage { IsErrOf result WordsError.Usage → IsSomeCommand (texts words.entry.now) → ⊥ }
{
    let matches = parse(alloc, words)?;
    command_in(&matches)
}
