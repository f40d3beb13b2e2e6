// Reads policies from a file, each led by its length in 2 bytes, and prints what the reader answers: the counts of constants, verbs and assertions,
// or a refusal's number and place.
#![tactic(auto)]

use std::io::Read;
use std::{fs, io};

const POLICIES: &str = "policies.bin";

// One policy.
fn case(rt: &impl Print, policy: &[u8]) -> io::Result<()> {
    let mut index = policy::empty();
    match policy::read(policy, &mut index) {
        Ok(()) => println!(rt;
            "accepted {} {} {}",
            index.constants, index.verbs, index.assertions
        ),
        Err(why) => println!(rt; "refused {} {}", why.reason.number(), why.place),
    }
}

// Policies that stand one after the other.
fn cases(rt: &impl Print, policies: &[u8]) -> io::Result<()> {
    // no chunks: each policy says its own length
    let mut left = policies;
    while let Some((length, behind)) = left.split_at_checked(2) {
        match behind.split_at_checked(wire::u16_at(length, 0)) {
            Some((policy, rest)) => {
                case(rt, policy)?;
                left = rest;
            }
            None => return Ok(()),
        }
    }
    Ok(())
}

fn main(rt: HostRuntime) -> io::Result<()> {
    let mut file = match fs::open(&rt, POLICIES) {
        Ok(file) => file,
        Err(e) => return eprintln!(rt; "{POLICIES}: {e}"),
    };
    let mut buffer = [0u8; 65536];
    let n = file.read(&mut buffer).unwrap_or(0);
    cases(&rt, &buffer[..n])
}
