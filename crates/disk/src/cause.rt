// Why a call refuses, with the number and the words of each cause.
ghost use Rattle.std.specs.Prelude.{◌≡◌, Some};
ghost use Rattle.disk.specs.Causes.{number_of};
ghost use Rattle.disk.specs.Words.{words_of};

use std::fmt;

// One variant for each refusal, named for what happened, and one for the numbers of devices that are not ours.
#[derive(Clone, Copy, Debug, PartialEq, Eq)]
pub enum Cause {
    NoHeader,
    NoFrame,
    NoData,
    BadChecksum,
    BadCode,
    Protected,
    BadHeader,
    BadName,
    Unclosed,
    NotBegun,
    NotFound,
    NameTaken,
    ForeignType,
    NoSuchBlock,
    BadStructure,
    Full,
    NotDos,
    TwoHeaders,
    ShortFrame,
    BadImage,
    ShortBuffer,
    BadSpan,
    Other(u8),
}

impl From<Cause> for u8 {
    ghost from_gives = { λ cause number. number ≡ number_of cause };

    fn from(cause: Cause) -> u8 {
        match cause {
            Cause::NoHeader => 20,
            Cause::NoFrame => 21,
            Cause::NoData => 22,
            Cause::BadChecksum => 23,
            Cause::BadCode => 24,
            Cause::Protected => 26,
            Cause::BadHeader => 27,
            Cause::BadName => 33,
            Cause::Unclosed => 60,
            Cause::NotBegun => 61,
            Cause::NotFound => 62,
            Cause::NameTaken => 63,
            Cause::ForeignType => 64,
            Cause::NoSuchBlock => 66,
            Cause::BadStructure => 71,
            Cause::Full => 72,
            Cause::NotDos => 73,
            Cause::TwoHeaders => 80,
            Cause::ShortFrame => 81,
            Cause::BadImage => 82,
            Cause::ShortBuffer => 84,
            Cause::BadSpan => 85,
            Cause::Other(number) => number,
        }
    }
}

impl Cause {
    // What happened, in a few words for a person.
    pub fn words(self) -> &'static str
        ensures { result.now ≡ words_of self }
    {
        match self {
            Cause::NoHeader => "no header names the block",
            Cause::NoFrame => "no frame on the track",
            Cause::NoData => "no data block after the header",
            Cause::BadChecksum => "wrong checksum in the data block",
            Cause::BadCode => "no valid code in the data block",
            Cause::Protected => "write protected",
            Cause::BadHeader => "wrong checksum in the header",
            Cause::BadName => "no valid name",
            Cause::Unclosed => "the file was never closed",
            Cause::NotBegun => "no unclosed file for the ticket",
            Cause::NotFound => "no file of that name",
            Cause::NameTaken => "a file of that name is there already",
            Cause::ForeignType => "no SEQ, PRG or USR file",
            Cause::NoSuchBlock => "no such track or sector",
            Cause::BadStructure => "links, names, counts or free map disagree",
            Cause::Full => "disk full",
            Cause::NotDos => "no DOS 2A volume",
            Cause::TwoHeaders => "two headers name the block",
            Cause::ShortFrame => "the data block is cut short",
            Cause::BadImage => "no valid image",
            Cause::ShortBuffer => "the buffer is too small",
            Cause::BadSpan => "the bits do not fit the track",
            Cause::Other(_) => "refused by the device",
        }
    }
}

impl fmt::Display for Cause {
    ghost output = { λ cause. Some (words_of cause) };

    fn fmt<W: fmt::Write>(&self, f: &mut fmt::Formatter<W>) -> fmt::Result {
        f.write_str(self.words())
    }
}
