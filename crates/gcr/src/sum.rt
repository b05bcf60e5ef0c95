// The checksum of a block.
ghost use Rattle.std.specs.Prelude.{◌≡◌};
ghost use Rattle.gcr.specs.Sums.{xor_all};

// The exclusive-or of all bytes of a block.
pub fn checksum(block: &[u8; 256]) -> u8
    ensures { result ≡ xor_all block.now }
{
    let mut sum = 0;
    for byte in block {
        sum ^= *byte;
    }
    sum
}
