// Keeps a disk's dump as shares, loses half of them, and gets the dump back, over each field.
#![tactic(auto)]

mod demo;

use dumps::failure::Failure;
use dumps::timing;
use std::{env, fs};

// Reads the dump from the folder that the program runs in, and shows how its shares give it back.
fn show_shares(rt: &HostRuntime) -> Result<(), Failure> {
    let dump = fs::read(rt, "dump.bin")?;
    demo::show(rt, dump.as_slice())
}

// Measures how long it takes to make shares over each field.
fn show_times(rt: &HostRuntime) -> Result<(), Failure> {
    timing::show_fields(rt)?;
    Ok(())
}

// Runs what the first argument asks for: the demonstration without one, the measurement with `time`.
fn run(rt: &HostRuntime) -> Result<(), Failure> {
    let mut words = env::args(rt)?;
    let _program = words.next();
    match words.next() {
        None => show_shares(rt),
        Some(word) if word.as_str() == "time" => show_times(rt),
        Some(_) => Err(Failure::UnknownRequest),
    }
}

// Runs the program; the runtime prints an error that it ends with.
fn main(rt: HostRuntime) -> Result<(), Failure> {
    run(&rt)
}
