// A file's bytes out of any source of blocks.
ghost use Rattle.std.specs.Prelude.{◌≡◌, ℕ, ◌+◌, ◌-◌, ◌*◌, ◌<◌, ◌≤◌, min, ◌++◌, length, take, drop, slice_index};
ghost use Rattle.std.specs.List.{AllByRecursion};
ghost use Rattle.files.specs.Files.{Readable, block_data, all_data, measured, extract_answer, extract_buffer, Fills};

use crate::find::*;
use chains::chain::*;
use disk::cause::*;
use disk::place::*;
use disk::refusal::*;
use sector::source::*;

// How much a file holds.
#[derive(Clone, Copy, Debug, PartialEq, Eq)]
pub struct Extent {
    pub bytes: usize,
    pub blocks: usize,
}

// The extent of a file's chain: each block but the last has 254 bytes, and the last says where its last byte is.
fn extent_of(chain: &Chain) -> Extent
    ensures blocks { result.blocks ≡ length chain.now.places.items }
    ensures bytes { result.bytes ≡ 254 * (length chain.now.places.items - 1) + (slice_index chain.now.block 1 - 1) }
{
    let blocks = chain.places.len();
    let used = usize::from(chain.block[1]).saturating_sub(1);
    Extent {
        bytes: 254 * (blocks - 1) + used,
        blocks,
    }
}

// Copies the bytes of a file's k-th block to their place in a buffer that is as long as the file.
fn copy_block(block: &[u8; 256], k: usize, buffer: &mut [u8])
    requires { 254 * k ≤ length buffer.old }
    ensures { buffer.new ≡ take (254 * k) buffer.old ++ (take (min (length buffer.old - 254 * k) 254) (drop 2 block.now) ++ drop (254 * k + min (length buffer.old - 254 * k) 254) buffer.old) }
{
    let at = 254 * k;
    let more = (buffer.len() - at).min(254);
    buffer[at..at + more].copy_from_slice(&block[2..2 + more]);
}

// Fills a buffer as long as a file, whose blocks were all read before, with its bytes. Not over `buffer.chunks_mut(254)`, after which a proof knows no byte of the buffer: tried, and the goal `returns` stays open.
#[tactic(auto, using(crate::proofs::Files::copied_more))]
fn copy_chain<D: SectorSource>(disk: &D, chain: &Chain, buffer: &mut [u8])
    requires { Fills (D.SectorSource.contents disk.now) chain.now (length buffer.old) }
    ensures { buffer.new ≡ take (length buffer.old) (all_data (D.SectorSource.contents disk.now) chain.now.places.items) }
{
    for (k, place) in chain.places.iter().enumerate() {
        let block = load(disk, *place).unwrap();
        copy_block(&block, k, buffer);
    }
}

// How many bytes and blocks the closed file of the name has.
pub fn measure<D: SectorSource>(disk: &D, name: &[u8]) -> Result<Extent, Refusal>
    ensures { result ≡ measured (D.SectorSource.contents disk.now) name.now }
{
    let chain = find_file(disk, name)?;
    Ok(extent_of(&chain))
}

// The bytes of the closed file of the name, into `buffer`; how many they are. Later bytes of the buffer stay, and under a refusal all do.
pub fn extract<D: SectorSource>(disk: &D, name: &[u8], buffer: &mut [u8]) -> Result<usize, Refusal>
    ensures answer { result ≡ extract_answer (D.SectorSource.contents disk.now) name.now (length buffer.old) }
    ensures buffer { buffer.new ≡ extract_buffer (D.SectorSource.contents disk.now) name.now buffer.old }
{
    let chain = find_file(disk, name)?;
    let total = extent_of(&chain).bytes;
    if buffer.len() < total {
        return Err(Refusal::by_caller(Cause::ShortBuffer));
    }
    copy_chain(disk, &chain, &mut buffer[..total]);
    Ok(total)
}
