// A name as it is typed: text, and any byte as \xHH.
ghost use Rattle.std.specs.Prelude.{◌≡◌, is_some, Some, MatchResult};
ghost use Rattle.commands.specs.declared.name.NameError.TheVariants.{NoMemory};
ghost use Rattle.std.specs.Option.{option_map};
ghost use Rattle.commands.specs.Names.{hex_pair, first_byte, unescaped, why_not, why_shown};

use std::alloc::{AllocFailed, Global};
use std::error::Error;
use std::fmt;

#[derive(Clone, Copy, Debug, PartialEq, Eq)]
pub enum NameError {
    NoMemory,
    // a backslash that begins no \xHH
    BadEscape,
}

impl fmt::Display for NameError {
    ghost output = { λ e. Some (why_shown e) };

    fn fmt<W: fmt::Write>(&self, f: &mut fmt::Formatter<W>) -> fmt::Result {
        match self {
            NameError::NoMemory => write!(f, "out of memory"),
            NameError::BadEscape => write!(f, "bad escape in the name"),
        }
    }
}

impl Error for NameError {}

impl<T: Drop> From<AllocFailed<T>> for NameError {
    ghost from_gives = { λ _ r. r ≡ NoMemory };

    fn from(_e: AllocFailed<T>) -> NameError {
        NameError::NoMemory
    }
}

// The byte of two hexadecimal digits of either case.
#[tactic(auto, using(crate::proofs::Names::no_digit, crate::proofs::Names::a_digit), unfolding(crate::specs::Names::hex_pair))]
fn hex_pair(high: u8, low: u8) -> Option<u8>
    ensures { result ≡ hex_pair high low }
{
    let tens = char::from(high).to_digit(16)?;
    let ones = char::from(low).to_digit(16)?;
    Some((16 * tens + ones) as u8)
}

// The byte that a text begins with, and the text after it; none where no byte is spelled.
fn first_byte(text: &[u8]) -> Option<(u8, &[u8])>
    ensures { option_map (λ p. (p.0, p.1.now)) result ≡ first_byte text.now }
{
    match text {
        [b'\\', b'x', high, low, rest @ ..] => Some((hex_pair(*high, *low)?, rest)),
        [] | [b'\\', ..] => None,
        [byte, rest @ ..] => Some((*byte, rest)),
    }
}

// Whether the text stands for bytes.
#[tactic(auto, using(crate::proofs::Names::look_so, crate::proofs::Names::looked_so))]
fn is_spelled(text: &[u8]) -> bool
    ensures { result ≡ is_some (unescaped text.now) }
{
    let mut rest = text;
    while let Some((_, tail)) = first_byte(rest) {
        rest = tail;
    }
    rest.is_empty()
}

// The bytes that the text stands for. A bad text is refused before any memory is asked for, so it is walked
// twice; both walks go by first_byte, since an iterator of bytes does not tell a bad end from the end.
#[tactic(auto, using(crate::proofs::Names::step_so, crate::proofs::Names::end_so))]
pub fn name_bytes(heap: Global, text: &str) -> Result<Vec<u8>, NameError>
    ensures { MatchResult result (λ name. unescaped text.now ≡ Some name.items) (λ e. e ≡ why_not (unescaped text.now)) }
{
    let mut rest = text.as_bytes();
    if !is_spelled(rest) {
        return Err(NameError::BadEscape);
    }
    let mut name = Vec::new(heap);
    while let Some((byte, tail)) = first_byte(rest) {
        name.push(byte)?;
        rest = tail;
    }
    Ok(name)
}
