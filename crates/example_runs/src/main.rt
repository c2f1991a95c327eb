//! Runs the examples whose folders it is given, and says of each whether its commands end and write as
//! expected, byte for byte.
#![tactic(auto)]

mod commands;
mod folder;

use std::{env, io};

// What is wrong with the example of this folder, where something is.
fn fault_of(rt: &HostRuntime) -> io::Result<Option<String>> {
    let before = folder::count(rt, ".")?;
    let said = match commands::obey_all(rt)? {
        Ok(said) => said,
        Err(line) => return Ok(Some(line)),
    };
    folder::first_difference(rt, &said, before)
}

fn main(rt: HostRuntime) -> io::Result<()> {
    for name in env::args(&rt)?.skip(1) {
        env::set_current_dir(&rt, name.as_str())?;
        match fault_of(&rt)? {
            None => println!(rt; "{name}: as expected")?,
            Some(what) => println!(rt; "{name}: not as expected: {what}")?,
        }
        env::set_current_dir(&rt, "..")?;
    }
    Ok(())
}
