// The bits of a data block, as they are laid on a track.
ghost use Rattle.std.specs.Prelude.{◌≡◌};
ghost use Rattle.gcr.specs.Bits.{bits_of};
ghost use Rattle.decoder.specs.Writing.{data_bits, data_bytes};

use gcr::group::encode_group;
use gcr::sum::checksum;

// How many bytes a data block is on the track: 65 groups of five.
pub const DATA_BYTES: usize = 325;

// The bytes before they are coded: the mark, the block, its checksum, and two zeros.
fn plain_bytes(block: &[u8; 256]) -> [u8; 260]
    ensures { result ≡ data_bytes block.now }
{
    let mut bytes = [0; 260];
    bytes[0] = 7;
    bytes[1..257].copy_from_slice(block);
    bytes[257] = checksum(block);
    bytes
}

// The bits of a data block, in bytes.
pub fn data_block(block: &[u8; 256]) -> [u8; DATA_BYTES]
    ensures { bits_of result ≡ data_bits block.now }
{
    let bytes = plain_bytes(block);
    let mut coded = [0; DATA_BYTES];
    // By place: zipped with the chunks of `coded`, the loop names nothing that was written, and `returns` stays open.
    for (k, four) in bytes.as_chunks::<4>().0.iter().enumerate() {
        coded[5 * k..5 * k + 5].copy_from_slice(&encode_group(*four));
    }
    coded
}
