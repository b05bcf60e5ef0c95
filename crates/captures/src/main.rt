// Two captures, block by block and file by file, to be compared with what the tool that made them says.
#![tactic(auto)]

use crc::crc32;
use disk::place::*;
use disk::refusal::*;
use files::extract::*;
use image::image::*;
use sector::source::*;
use std::fs;

const NAMES: [&str; 7] = [
    "CUXHAVEN",
    "DOVER",
    "ESBJERG",
    "KEELUNG",
    "OBAN",
    "ST HELIER",
    "TEXEL",
];

// Track and sector in two digits, then the checksum of the block or its refusal.
fn print_block(rt: &HostRuntime, disk: &Image, place: Place) -> anyhow::Result<()> {
    let (track, sector) = place;
    match load(disk, place) {
        Ok(block) => {
            let sum = crc32(&block);
            println!(rt; "{track:02}/{sector:02} {sum:08x}")?;
        }
        Err(refusal) => {
            let number = u8::from(refusal.cause);
            let layer = u8::from(refusal.layer);
            println!(rt; "{track:02}/{sector:02} FAULT {number} {layer}")?;
        }
    }
    Ok(())
}

fn print_fault(rt: &HostRuntime, name: &str, refusal: Refusal) -> anyhow::Result<()> {
    let number = u8::from(refusal.cause);
    let layer = u8::from(refusal.layer);
    let (track, sector) = refusal.place;
    println!(rt; "{name} FAULT {number} {layer} {track:02}/{sector:02}")?;
    Ok(())
}

fn print_file(rt: &HostRuntime, disk: &Image, name: &str) -> anyhow::Result<()> {
    let mut buffer = vec![in rt.alloc(); 0u8; 20_000]?;
    match extract(disk, name.as_bytes(), buffer.as_mut_slice()) {
        Ok(size) => {
            buffer.truncate(size);
            let sum = crc32(buffer.as_slice());
            println!(rt; "{name} {size} {sum:08x}")?;
            Ok(())
        }
        Err(refusal) => print_fault(rt, name, refusal),
    }
}

fn print_blocks(rt: &HostRuntime, disk: &Image) -> anyhow::Result<()> {
    for place in (0..BLOCKS).filter_map(block_place) {
        print_block(rt, disk, place)?;
    }
    Ok(())
}

fn print_capture(rt: &HostRuntime, path: &str) -> anyhow::Result<()> {
    println!(rt; "{path}")?;
    let file = fs::read(rt, path)?;
    match Image::open(file, true) {
        Ok(disk) => {
            print_blocks(rt, &disk)?;
            for name in NAMES {
                print_file(rt, &disk, name)?;
            }
            Ok(())
        }
        Err(refusal) => print_fault(rt, path, refusal),
    }
}

fn run(rt: &HostRuntime) -> anyhow::Result<()> {
    print_capture(rt, "clean.g64")?;
    print_capture(rt, "mould.g64")
}

fn main(rt: HostRuntime) -> anyhow::Result<()> {
    run(&rt)
}
