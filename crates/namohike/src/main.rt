// The program: reads an image, does what the words ask for, and prints the answer.
#![tactic(auto)]

mod failure;

use crate::failure::*;
use commands::account::*;
use commands::command::*;
use commands::dump::*;
use commands::verb::*;
use disk::place::*;
use files::extract::*;
use image::image::*;
use sector::source::*;
use std::process::ExitCode;
use std::{env, fs, io};
use tables::survey::*;

fn read_disk<'a>(rt: &HostRuntime, image: &'a str) -> Result<Image, Failure<'a>> {
    let bytes = fs::read(rt, image).map_err(|error| Failure::CannotRead(image, error))?;
    Ok(Image::open(bytes, true)?)
}

// The file is written only once all of it was read.
fn extract_file<'a>(
    rt: &HostRuntime,
    image: &'a str,
    name: Name<'_>,
    out: &'a str,
) -> Result<(), Failure<'a>> {
    let disk = read_disk(rt, image)?;
    let extent = measure(&disk, name.bytes.as_slice())?;
    let mut buffer = vec![in rt.alloc(); 0u8; extent.bytes]?;
    extract(&disk, name.bytes.as_slice(), buffer.as_mut_slice())?;
    fs::write(rt, out, buffer.as_slice()).map_err(|error| Failure::CannotWrite(out, error))?;
    let account = Account {
        name: name.text,
        bytes: extent.bytes,
        blocks: extent.blocks,
    };
    println!(rt; "{account}")?;
    Ok(())
}

// Sixteen lines of sixteen bytes.
fn print_block<'a>(rt: &HostRuntime, image: &'a str, place: Place) -> Result<(), Failure<'a>> {
    let disk = read_disk(rt, image)?;
    let block = load(&disk, place)?;
    for bytes in block.chunks(16) {
        let line = HexLine(bytes);
        println!(rt; "{line}")?;
    }
    Ok(())
}

// A line for each refused block, in place order, and how many there are.
fn survey_disk<'a>(rt: &HostRuntime, image: &'a str) -> Result<(), Failure<'a>> {
    let disk = read_disk(rt, image)?;
    let mut findings = [Finding::default(); BLOCKS];
    survey(&disk, &mut findings)?;
    for (place, finding) in (0..BLOCKS).filter_map(block_place).zip(findings.iter()) {
        if *finding != Finding::default() {
            print_refusal(rt, &disk, place)?;
        }
    }
    let refused = findings
        .iter()
        .filter(|finding| **finding != Finding::default())
        .count();
    let read = BLOCKS - refused;
    println!(rt; "{}", Tally { read, refused })?;
    Ok(())
}

fn print_refusal<'a>(rt: &HostRuntime, disk: &Image, place: Place) -> Result<(), Failure<'a>> {
    if let Err(refusal) = load(disk, place) {
        println!(rt; "{refusal}")?;
    }
    Ok(())
}

fn obey<'a>(rt: &HostRuntime, command: Command<'a>) -> Result<(), Failure<'a>> {
    match command {
        Command::Extract { image, name, out } => extract_file(rt, image, name, out),
        Command::Block { image, place } => print_block(rt, image, place),
        Command::Survey { image } => survey_disk(rt, image),
        Command::Help => Ok(println!(rt; "{}", Usage)?),
    }
}

fn run<'a>(rt: &HostRuntime, words: &'a [String]) -> Result<(), Failure<'a>> {
    let command = parse(rt.alloc(), words)?;
    obey(rt, command)
}

fn words_given(rt: &HostRuntime) -> io::Result<Vec<String>> {
    Ok(env::args(rt)?.skip(1).collect(rt.alloc())?)
}

// A failure is told, and ends the program with status 1.
fn exit_with(rt: &HostRuntime, outcome: Result<(), Failure<'_>>) -> ExitCode {
    match outcome {
        Ok(()) => ExitCode::SUCCESS,
        Err(failure) => {
            report(rt, failure);
            ExitCode::FAILURE
        }
    }
}

fn main(rt: HostRuntime) -> ExitCode {
    match words_given(&rt) {
        Ok(words) => exit_with(&rt, run(&rt, words.as_slice())),
        Err(error) => exit_with(&rt, Err(Failure::from(error))),
    }
}
