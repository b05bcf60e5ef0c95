// Numbers in a file, low byte first; past the file's end stand zeros.
ghost use Rattle.std.specs.Prelude.{◌≡◌, ◌^◌, ◌<◌, slice_index};
ghost use Rattle.g64.specs.Layout.{number16, number32};

// One byte.
fn byte_at(file: &[u8], at: usize) -> u8
    ensures { result ≡ slice_index file.now at }
{
    file.get(at).copied().unwrap_or(0)
}

// Two bytes as a number.
#[tactic(auto, unfolding(crate::specs::Layout::number16))]
pub(crate) fn read16(file: &[u8], at: usize) -> usize
    requires { at < 2 ^ 33 }
    ensures value { result ≡ number16 file.now at }
    ensures small { result < 65536 }
{
    u16::from_le_bytes([byte_at(file, at), byte_at(file, at + 1)]) as usize
}

// Four bytes as a number. Beside `read16`, since std reads each size by a function of its own.
#[tactic(auto, unfolding(crate::specs::Layout::number16, crate::specs::Layout::number32))]
pub(crate) fn read32(file: &[u8], at: usize) -> usize
    requires { at < 2 ^ 32 }
    ensures value { result ≡ number32 file.now at }
    ensures small { result < 4294967296 }
{
    u32::from_le_bytes([
        byte_at(file, at),
        byte_at(file, at + 1),
        byte_at(file, at + 2),
        byte_at(file, at + 3),
    ]) as usize
}
