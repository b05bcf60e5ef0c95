// Tries what reading and writing answer: runs the script on standard input against a disk image.
#![tactic(auto)]

mod answer;
mod bench;
mod script;

use crate::bench::*;
use crate::script::*;
use std::{fs, io};

// Carries out one line; a line that asks is printed with its answer.
fn run_line(rt: &HostRuntime, bench: &mut Bench, line: &str) -> anyhow::Result<()> {
    match parse(rt.alloc(), line)? {
        Command::Nothing => {}
        Command::Case(title) => {
            bench.reset()?;
            println!(rt; "{title}")?;
        }
        Command::Do(change) => bench.apply(&change)?,
        Command::Ask(question) => {
            let answer = bench.ask(&question)?;
            println!(rt; "  {line} -> {answer}")?;
        }
    }
    Ok(())
}

fn run(rt: &HostRuntime) -> anyhow::Result<()> {
    let heap = rt.alloc();
    let script = io::read_to_string(heap, rt.stdin())?;
    let clean = fs::read(rt, "disk.d64")?;
    let mut bench = Bench::new(heap, clean)?;
    for line in script.as_str().lines() {
        run_line(rt, &mut bench, line)?;
    }
    Ok(())
}

fn main(rt: HostRuntime) -> anyhow::Result<()> {
    run(&rt)
}
