// What a disk answers, as text.
use crate::script::*;
use crc::crc32;
use d64::image::*;
use directory::kind::*;
use disk::file::*;
use disk::place::*;
use disk::refusal::*;
use files::extract::*;
use files::find::*;
use sector::device::*;
use sector::source::*;
use std::alloc::{AllocError, Global};

// What buffers hold before a call.
const FILLER: u8 = 0xee;

// Whether the bytes are as they were before a call.
fn kept(bytes: &[u8]) -> &'static str {
    if bytes.iter().all(|byte| *byte == FILLER) {
        "kept"
    } else {
        "changed"
    }
}

// A refusal, and whether it left the buffer alone.
fn refused(heap: Global, refusal: Refusal, buffer: &[u8]) -> Result<String, AllocError> {
    let after = kept(buffer);
    format!(in heap; "{refusal}; buffer {after}")
}

// Opening takes the bytes and hands them back.
fn try_open(heap: Global, image: Vec<u8>) -> Result<String, AllocError> {
    match D64::open(image, false) {
        Ok(disk) => {
            let bytes = disk.into_bytes();
            let crc = crc32(bytes.as_slice());
            format!(in heap; "opened, {crc:08x}")
        }
        Err(refusal) => format!(in heap; "{refusal}"),
    }
}

fn try_block(heap: Global, disk: &D64, place: Place) -> Result<String, AllocError> {
    let mut block = [FILLER; 256];
    match disk.read(place, &mut block) {
        Ok(()) => {
            let crc = crc32(&block);
            format!(in heap; "{crc:08x}")
        }
        Err(refusal) => refused(heap, refusal, &block),
    }
}

// The disk and the name stay apart in these three, as in the calls that they try.
fn try_locate(heap: Global, disk: &D64, name: &[u8]) -> Result<String, AllocError> {
    match locate(disk, name) {
        Ok(Located { at, entry }) => {
            let (track, sector) = at;
            let status = entry.status;
            let (first_track, first_sector) = entry.first;
            let blocks = entry.blocks;
            format!(in heap;
                "in {track}/{sector}: {status:?}, from {first_track}/{first_sector}, {blocks} blocks"
            )
        }
        Err(refusal) => format!(in heap; "{refusal}"),
    }
}

fn try_measure(heap: Global, disk: &D64, name: &[u8]) -> Result<String, AllocError> {
    match measure(disk, name) {
        Ok(Extent { bytes, blocks }) => format!(in heap; "{bytes} bytes, {blocks} blocks"),
        Err(refusal) => format!(in heap; "{refusal}"),
    }
}

fn try_extract(
    heap: Global,
    disk: &D64,
    name: &[u8],
    capacity: usize,
) -> Result<String, AllocError> {
    let mut buffer = vec![in heap; FILLER; capacity]?;
    match extract(disk, name, buffer.as_mut_slice()) {
        Ok(size) => {
            let (file, rest) = buffer.as_slice().split_at(size.min(capacity));
            let crc = crc32(file);
            let after = kept(rest);
            format!(in heap; "{size} {crc:08x}; rest {after}")
        }
        Err(refusal) => refused(heap, refusal, buffer.as_slice()),
    }
}

// What writing answers, and the image afterwards.
fn try_write(heap: Global, mut disk: D64, place: Place, byte: u8) -> Result<String, AllocError> {
    let outcome = disk.write(place, &[byte; 256]);
    let image = disk.into_bytes();
    let crc = crc32(image.as_slice());
    match outcome {
        Ok(()) => format!(in heap; "written; image {crc:08x}"),
        Err(refusal) => format!(in heap; "{refusal}; image {crc:08x}"),
    }
}

// Only opening checks the image first.
pub fn answer(heap: Global, image: Vec<u8>, question: &Question) -> Result<String, AllocError> {
    match question {
        Question::Open => try_open(heap, image),
        Question::Block(place) => try_block(heap, &D64::new(image, false), *place),
        Question::Locate(name) => try_locate(heap, &D64::new(image, false), name.as_slice()),
        Question::Measure(name) => try_measure(heap, &D64::new(image, false), name.as_slice()),
        Question::Extract { capacity, name } => try_extract(
            heap,
            &D64::new(image, false),
            name.as_slice(),
            *capacity,
        ),
        Question::Write {
            protected,
            place,
            byte,
        } => try_write(heap, D64::new(image, *protected), *place, *byte),
    }
}
