// Measures how long it takes to make shares, on request.
#![tactic(auto)]

use dumps::failure::Failure;
use dumps::timing;
use std::env;

// Measures where an argument is given, and else says so.
fn run(rt: &HostRuntime) -> Result<(), Failure> {
    let mut words = env::args(rt)?;
    let _program = words.next();
    match words.next() {
        Some(_) => {
            timing::show_fields(rt)?;
        }
        None => println!(rt; "with an argument: measures how long it takes to make shares")?,
    }
    Ok(())
}

// Runs the program; the runtime prints an error that it ends with.
fn main(rt: HostRuntime) -> Result<(), Failure> {
    run(&rt)
}
