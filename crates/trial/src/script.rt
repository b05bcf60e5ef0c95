// The script: a command a line, in words with one blank between them. Numbers are decimal, or hexadecimal after $.
ghost use Rattle.std.specs.Prelude.{◌<◌, IfSome};

use anyhow::{bail, ensure};
use disk::place::*;
use std::alloc::Global;
use std::mem;

// What is done to the image.
#[derive(Drop)]
pub enum Change {
    // one byte of a block
    Edit {
        place: Place,
        offset: u8,
        byte: u8,
    },
    // every byte of a block
    Fill {
        place: Place,
        byte: u8,
    },
    // the link of a block: where it leads, or 0 and its last place
    Link {
        from: Place,
        to: Place,
    },
    // type, first block and name of an entry, by its slot in a directory block
    Entry {
        block: Place,
        slot: u8,
        kind: u8,
        first: Place,
        name: Vec<u8>,
    },
    // all blocks off track 18 as one chain from 1/0 on, full to the last byte
    Thread,
    // the image cut off, or filled up with zeros
    Length(usize),
}

// What is asked of the image.
#[derive(Drop)]
pub enum Question {
    Open,
    Block(Place),
    Locate(Vec<u8>),
    Measure(Vec<u8>),
    Extract {
        capacity: usize,
        name: Vec<u8>,
    },
    // a block of one byte over and over
    Write {
        protected: bool,
        place: Place,
        byte: u8,
    },
}

#[derive(Drop)]
pub enum Command<'a> {
    // a blank line or a comment
    Nothing,
    // a new case, by its title, that begins with the clean image
    Case(&'a str),
    Do(Change),
    Ask(Question),
}

// What is left of a line.
#[derive(Drop)]
struct Words<'a> {
    rest: &'a str,
}

impl<'a> Words<'a> {
    // The next word; after the last one, no bytes.
    fn word(&mut self) -> &'a str {
        let (word, rest) = self.rest.split_once(' ').unwrap_or((self.rest, ""));
        self.rest = rest;
        word
    }

    fn size(&mut self) -> anyhow::Result<usize> {
        Ok(self.word().parse()?)
    }

    fn byte(&mut self) -> anyhow::Result<u8> {
        let word = self.word();
        Ok(match word.strip_prefix('$') {
            Some(digits) => u8::from_str_radix(digits, 16)?,
            None => word.parse()?,
        })
    }

    fn place(&mut self) -> anyhow::Result<Place> {
        Ok((self.byte()?, self.byte()?))
    }

    // All the rest as a name.
    fn name(&mut self, heap: Global) -> anyhow::Result<Vec<u8>> {
        let text = mem::take(&mut self.rest);
        name_bytes(heap, text)
    }
}

// The value of a digit; the script spells its letters small.
fn hex_digit(digit: u8) -> Option<u8>
    ensures { IfSome result (λ d. d < 16) }
{
    match digit {
        b'0'..=b'9' => Some(digit - b'0'),
        b'a'..=b'f' => Some(digit - b'a' + 10),
        _ => None,
    }
}

// The bytes of a name, in which \xHH stands for any byte. Not by that of commands, which takes large letters too, refuses in other words, and walks a long name twice, byte by byte.
fn name_bytes(heap: Global, text: &str) -> anyhow::Result<Vec<u8>> {
    let mut pieces = text.split('\\');
    let mut name = Vec::new(heap);
    if let Some(plain) = pieces.next() {
        name.extend_from_slice(plain.as_bytes())?;
    }
    for piece in pieces {
        let [b'x', high, low, rest @ ..] = piece.as_bytes() else {
            bail!("no byte after a backslash");
        };
        let (Some(high), Some(low)) = (hex_digit(*high), hex_digit(*low)) else {
            bail!("no hexadecimal digit");
        };
        name.push(16 * high + low)?;
        name.extend_from_slice(rest)?;
    }
    Ok(name)
}

// A command that changes the image, if the word is one.
fn parse_change(heap: Global, word: &str, words: &mut Words<'_>) -> anyhow::Result<Option<Change>> {
    let change = match word {
        "edit" => Change::Edit {
            place: words.place()?,
            offset: words.byte()?,
            byte: words.byte()?,
        },
        "fill" => Change::Fill {
            place: words.place()?,
            byte: words.byte()?,
        },
        "link" => Change::Link {
            from: words.place()?,
            to: words.place()?,
        },
        "entry" => Change::Entry {
            block: words.place()?,
            slot: words.byte()?,
            kind: words.byte()?,
            first: words.place()?,
            name: words.name(heap)?,
        },
        "thread" => Change::Thread,
        "length" => Change::Length(words.size()?),
        _ => return Ok(None),
    };
    Ok(Some(change))
}

// A command that asks.
fn parse_question(heap: Global, word: &str, words: &mut Words<'_>) -> anyhow::Result<Question> {
    Ok(match word {
        "open" => Question::Open,
        "block" => Question::Block(words.place()?),
        "locate" => Question::Locate(words.name(heap)?),
        "measure" => Question::Measure(words.name(heap)?),
        "extract" => Question::Extract {
            capacity: words.size()?,
            name: words.name(heap)?,
        },
        "write" | "protected" => Question::Write {
            protected: word == "protected",
            place: words.place()?,
            byte: words.byte()?,
        },
        _ => bail!("no such command"),
    })
}

pub fn parse(heap: Global, line: &str) -> anyhow::Result<Command<'_>> {
    let mut words = Words { rest: line };
    let word = words.word();
    match word {
        "" | "#" => return Ok(Command::Nothing),
        "case" => return Ok(Command::Case(words.rest)),
        _ => {}
    }
    let command = match parse_change(heap, word, &mut words)? {
        Some(change) => Command::Do(change),
        None => Command::Ask(parse_question(heap, word, &mut words)?),
    };
    ensure!(words.rest.is_empty(), "too many words");
    Ok(command)
}
