// The five-bit codes of nibbles.
ghost use Rattle.std.specs.Prelude.{◌≡◌, ◌<◌, IfSome};
ghost use Rattle.gcr.specs.Codes.{nibble_of, code_of};

// The codes of the nibbles 0 to 15.
const CODES: [u8; 16] = [
    0b01010, 0b01011, 0b10010, 0b10011, 0b01110, 0b01111, 0b10110, 0b10111, 0b01001, 0b11001,
    0b11010, 0b11011, 0b01101, 0b11101, 0b11110, 0b10101,
];

// The nibble that a five-bit code stands for, if it stands for one.
pub fn nibble(code: u8) -> Option<u8>
    ensures value { result ≡ nibble_of code }
    ensures small { IfSome result (λ n. n < 16) }
{
    let nibble = CODES.iter().position(|known| code == *known)?;
    Some(nibble as u8)
}

// The five-bit code of a nibble.
pub(crate) fn code(nibble: u8) -> u8
    requires { nibble < 16 }
    ensures value { result ≡ code_of nibble }
    ensures small { result < 32 }
{
    CODES[usize::from(nibble)]
}
