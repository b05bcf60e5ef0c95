// The lines that tell how much there is.
ghost use Rattle.std.specs.Prelude.{Some};
ghost use Rattle.commands.specs.Accounts.{account_shown, tally_shown, written_shown};

use disk::place::*;
use std::fmt;

// The name is the text that the user gave; of what has bytes and blocks this crate knows nothing.
#[derive(Clone, Copy, Debug)]
pub struct Account<'a> {
    pub name: &'a str,
    pub bytes: usize,
    pub blocks: usize,
}

impl fmt::Display for Account<'_> {
    ghost output = { λ a. Some (account_shown a) };

    fn fmt<W: fmt::Write>(&self, f: &mut fmt::Formatter<W>) -> fmt::Result {
        let Account {
            name,
            bytes,
            blocks,
        } = *self;
        write!(f, "{name}: {bytes} bytes, {blocks} blocks")
    }
}

// How many blocks of a disk read, and how many are refused.
#[derive(Clone, Copy, Debug)]
pub struct Tally {
    pub read: usize,
    pub refused: usize,
}

impl fmt::Display for Tally {
    ghost output = { λ t. Some (tally_shown t) };

    fn fmt<W: fmt::Write>(&self, f: &mut fmt::Formatter<W>) -> fmt::Result {
        let Tally { read, refused } = *self;
        write!(f, "683 blocks: {read} read, {refused} refused")
    }
}

// A block that was written.
#[derive(Clone, Copy, Debug)]
pub struct Written {
    pub place: Place,
}

impl fmt::Display for Written {
    ghost output = { λ w. Some (written_shown w) };

    fn fmt<W: fmt::Write>(&self, f: &mut fmt::Formatter<W>) -> fmt::Result {
        let (track, sector) = self.place;
        write!(f, "{track:02}/{sector:02}: 256 bytes written")
    }
}
