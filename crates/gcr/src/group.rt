// Groups: four bytes of data are five bytes on the track.
ghost use Rattle.std.specs.Prelude.{◌≡◌, option_map};
ghost use Rattle.std.specs.List.{flat_map};
ghost use Rattle.std.specs.Option.{unwrap_or};
ghost use Rattle.gcr.specs.Bits.{bits_of};
ghost use Rattle.gcr.specs.Codes.{ten, bytes_in, Tens};

use crate::byte::*;

// Four bytes become five track bytes.
pub fn encode_group(bytes: [u8; 4]) -> [u8; 5]
    ensures { bits_of result ≡ flat_map ten bytes }
{
    let [a, b, c, d] = bytes.map(|byte| u64::from(encode(byte)));
    let all = ((a << 10 | b) << 10 | c) << 10 | d;
    let [_, _, _, e, f, g, h, i] = all.to_be_bytes();
    [e, f, g, h, i]
}

// Five track bytes become four bytes in a place that the caller lends; where one of them is no code the place stays as it was.
pub fn decode_group(track: [u8; 5], bytes: &mut [u8; 4]) -> Option<()>
    ensures answer { result ≡ option_map (λ _. tt) (bytes_in 4 (bits_of track)) }
    ensures place { bytes.new ≡ unwrap_or (bytes_in 4 (bits_of track)) bytes.old }
{
    let [a, b, c, d] = ten_bit_codes(track);
    *bytes = [decode(a)?, decode(b)?, decode(c)?, decode(d)?];
    Some(())
}

// The four ten-bit codes that five track bytes hold.
fn ten_bit_codes(track: [u8; 5]) -> [u16; 4]
    ensures { Tens result (bits_of track) }
{
    let [a, b, c, d, e] = track;
    let all = u64::from_be_bytes([0, 0, 0, a, b, c, d, e]);
    [
        (all >> 30) as u16,
        (all >> 20 & 1023) as u16,
        (all >> 10 & 1023) as u16,
        (all & 1023) as u16,
    ]
}
