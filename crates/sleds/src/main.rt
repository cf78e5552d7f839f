// Keeps a disk's dump as shares on the sleds of a tray and of a zone, and gets it back from half of them.
#![tactic(auto)]

mod demo;

use dumps::failure::Failure;
use std::fs;

// Reads the dump and the images from the folder that the program runs in, and shows how the dump comes back from its shares.
fn run(rt: &HostRuntime) -> Result<(), Failure> {
    let dump = fs::read(rt, "dump.bin")?;
    let tray = fs::read(rt, "tray.img")?;
    let zone = fs::read(rt, "zone.img")?;
    demo::show(rt, dump.as_slice(), tray, zone)
}

// Runs the program; the runtime prints an error that it ends with.
fn main(rt: HostRuntime) -> Result<(), Failure> {
    run(&rt)
}
