// The words that commands begin with.
ghost use Rattle.std.specs.Prelude.{◌≡◌, Some};
ghost use Rattle.std.specs.Result.{result_ok};
ghost use Rattle.commands.specs.Verbs.{verb_of, no_verb_shown, usage_of, usage_shown};

use std::error::Error;
use std::fmt;
use std::str::FromStr;

// The word that a command begins with.
#[derive(Clone, Copy, Debug, PartialEq, Eq)]
pub enum Verb {
    Extract,
    Block,
    Survey,
    Help,
}

impl Verb {
    pub const ALL: [Verb; 4] = [Verb::Extract, Verb::Block, Verb::Survey, Verb::Help];

    // How the command is written, with what follows the word.
    pub fn usage(self) -> &'static str
        ensures { result.now ≡ usage_of self }
    {
        match self {
            Verb::Extract => "extract IMAGE NAME OUT",
            Verb::Block => "block IMAGE TRACK SECTOR",
            Verb::Survey => "survey IMAGE",
            Verb::Help => "--help",
        }
    }
}

// A word that no command begins with.
#[derive(Clone, Copy, Debug, PartialEq, Eq)]
pub struct NoVerb;

impl fmt::Display for NoVerb {
    ghost output = { λ _. Some no_verb_shown };

    fn fmt<W: fmt::Write>(&self, f: &mut fmt::Formatter<W>) -> fmt::Result {
        write!(f, "no such command")
    }
}

impl Error for NoVerb {}

impl FromStr for Verb {
    type Err = NoVerb;

    ghost from_str_gives = { λ word verb. result_ok verb ≡ verb_of word };

    #[tactic(auto, using(crate::proofs::Words::no_verb), unfolding(crate::specs::Verbs::verb_of))]
    fn from_str(word: &str) -> Result<Verb, NoVerb> {
        match word {
            "extract" => Ok(Verb::Extract),
            "block" => Ok(Verb::Block),
            "survey" => Ok(Verb::Survey),
            "--help" => Ok(Verb::Help),
            _ => Err(NoVerb),
        }
    }
}

// Shown as it is written, with what follows the word.
impl fmt::Display for Verb {
    ghost output = { λ v. Some (usage_of v) };

    fn fmt<W: fmt::Write>(&self, f: &mut fmt::Formatter<W>) -> fmt::Result {
        f.write_str(self.usage())
    }
}

// How all commands are written.
#[derive(Clone, Copy)]
pub struct Usage;

impl fmt::Display for Usage {
    ghost output = { λ _. Some usage_shown };

    fn fmt<W: fmt::Write>(&self, f: &mut fmt::Formatter<W>) -> fmt::Result {
        write!(f, "usage:")?;
        for verb in Verb::ALL {
            write!(f, "\n  namohike {verb}")?;
        }
        write!(f, "\nIn a NAME \\xHH stands for any byte.")
    }
}
