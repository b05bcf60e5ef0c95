// Tries what command lines ask for: a line of standard input is one, with a bar between its words.
#![tactic(auto)]

use commands::account::*;
use commands::command::*;
use commands::dump::*;
use commands::verb::*;
use std::alloc::Global;
use std::io;

// The words of a line; an empty line has none.
fn words_of(heap: Global, line: &str) -> anyhow::Result<Vec<String>> {
    if line.is_empty() {
        return Ok(Vec::new(heap));
    }
    let words = line.split('|').map(|word| String::from_str(heap, word));
    Ok(words.try_collect(heap)?)
}

fn tell(rt: &HostRuntime, command: Command<'_>) -> anyhow::Result<()> {
    match command {
        Command::Extract { image, name, out } => {
            let Name { text, bytes } = name;
            let bytes = HexLine(bytes.as_slice());
            println!(rt; "  image [{image}] name [{text}] = [{bytes}] out [{out}]")?;
        }
        Command::Block {
            image,
            place: (track, sector),
        } => {
            println!(rt; "  image [{image}] track {track} sector {sector}")?;
        }
        Command::Survey { image } => println!(rt; "  image [{image}]")?,
        Command::Help => println!(rt; "  {}", Usage)?,
    }
    Ok(())
}

// A line, and what it asks for or why it asks for nothing.
fn try_line(rt: &HostRuntime, line: &str) -> anyhow::Result<()> {
    println!(rt; "{line}")?;
    let words = words_of(rt.alloc(), line)?;
    match parse(rt.alloc(), words.as_slice()) {
        Ok(command) => tell(rt, command),
        Err(error) => Ok(println!(rt; "  {error}")?),
    }
}

// One account of each kind.
fn show_accounts(rt: &HostRuntime) -> anyhow::Result<()> {
    let account = Account {
        name: "OBAN",
        bytes: 254,
        blocks: 1,
    };
    let tally = Tally {
        read: 478,
        refused: 205,
    };
    let written = Written { place: (18, 0) };
    println!(rt; "{account}")?;
    println!(rt; "{tally}")?;
    println!(rt; "{written}")?;
    Ok(())
}

fn run(rt: &HostRuntime) -> anyhow::Result<()> {
    let script = io::read_to_string(rt.alloc(), rt.stdin())?;
    for line in script.as_str().lines() {
        try_line(rt, line)?;
    }
    show_accounts(rt)
}

fn main(rt: HostRuntime) -> anyhow::Result<()> {
    run(&rt)
}
