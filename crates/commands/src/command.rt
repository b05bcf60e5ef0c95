// Which command the words after the program's name ask for.
ghost use Rattle.std.specs.Prelude.{◌≡◌, ℕ, List, Some, MatchResult};
ghost use Rattle.commands.specs.Names.{unescaped};
ghost use Rattle.commands.specs.Numbers.{byte_number};
ghost use Rattle.commands.specs.Commands.{Asked, texts, named, numbered, asked_by, asked, NeedsMemory, Reports, Answers, error_shown};

use crate::name::*;
use crate::number::*;
use crate::verb::*;
use disk::place::*;
use std::alloc::Global;
use std::error::Error;
use std::fmt;

// A file's name: the text that the user gave, and the bytes for which it stands.
#[derive(Drop)]
pub struct Name<'a> {
    pub text: &'a str,
    pub bytes: Vec<u8>,
}

#[derive(Drop)]
pub enum Command<'a> {
    Extract {
        image: &'a str,
        name: Name<'a>,
        out: &'a str,
    },
    Block {
        image: &'a str,
        place: Place,
    },
    Survey {
        image: &'a str,
    },
    Help,
}

#[derive(Clone, Copy, Debug)]
pub enum CommandError<'a> {
    NoMemory,
    NoCommand,
    UnknownCommand(&'a str),
    WrongCount(Verb),
    BadNumber(&'a str),
    BadName(&'a str),
}

// The name that is typed as `text`.
fn name_of(heap: Global, text: &str) -> Result<Name<'_>, CommandError<'_>>
    ensures { MatchResult result (λ n. (n.text.now ≡ text.now) × (unescaped text.now ≡ Some n.bytes.items)) (λ e. (k : List ℕ → Asked) → ((n : List ℕ) → NeedsMemory (k n)) → Reports e (named text.now (unescaped text.now) k)) }
{
    let bytes = name_bytes(heap, text).map_err(|error| match error {
        NameError::BadEscape => CommandError::BadName(text),
        NameError::NoMemory => CommandError::NoMemory,
    })?;
    Ok(Name { text, bytes })
}

// The number that is typed as `text`.
fn number_of(text: &str) -> Result<u8, CommandError<'_>>
    ensures { MatchResult result (λ n. byte_number text.now ≡ Some n) (λ e. (k : ℕ → Asked) → Reports e (numbered text.now (byte_number text.now) k)) }
{
    number(text).ok_or(CommandError::BadNumber(text))
}

// What the words ask for, of which the first is the verb's.
fn command_of(heap: Global, verb: Verb, words: &[String]) -> Result<Command<'_>, CommandError<'_>>
    ensures { Answers result (asked_by (Some verb) (texts words.now)) }
{
    match (verb, words) {
        (Verb::Extract, [_, image, name, out]) => Ok(Command::Extract {
            image: image.as_str(),
            name: name_of(heap, name.as_str())?,
            out: out.as_str(),
        }),
        (Verb::Block, [_, image, track, sector]) => Ok(Command::Block {
            image: image.as_str(),
            place: (number_of(track.as_str())?, number_of(sector.as_str())?),
        }),
        (Verb::Survey, [_, image]) => Ok(Command::Survey {
            image: image.as_str(),
        }),
        (Verb::Help, [_]) => Ok(Command::Help),
        _ => Err(CommandError::WrongCount(verb)),
    }
}

// What the words after the program's name ask for. By a match on what `parse` answers: with `map_err` and `?` the goals `returns` and `returns-in_err-verb` stayed open.
pub fn parse(heap: Global, words: &[String]) -> Result<Command<'_>, CommandError<'_>>
    ensures { Answers result (asked (texts words.now)) }
{
    let [word, ..] = words else {
        return Err(CommandError::NoCommand);
    };
    match word.as_str().parse() {
        Ok(verb) => command_of(heap, verb, words),
        Err(NoVerb) => Err(CommandError::UnknownCommand(word.as_str())),
    }
}

impl fmt::Display for CommandError<'_> {
    ghost output = { λ e. Some (error_shown e) };

    fn fmt<W: fmt::Write>(&self, f: &mut fmt::Formatter<W>) -> fmt::Result {
        match self {
            CommandError::NoMemory => write!(f, "out of memory"),
            CommandError::NoCommand => write!(f, "no command"),
            CommandError::UnknownCommand(word) => write!(f, "no such command: {word}"),
            CommandError::WrongCount(verb) => write!(f, "expected {verb}"),
            CommandError::BadNumber(word) => write!(f, "not a number from 0 to 255: {word}"),
            CommandError::BadName(word) => write!(f, "bad escape in the name: {word}"),
        }
    }
}

impl Error for CommandError<'_> {}
