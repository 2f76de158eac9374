// Reads a profile in Intel HEX from standard input, and prints a record of what was found in it.
#![tactic(auto)]

use anyhow::anyhow;
use ihex::{MAX_IMAGE, MAX_TEXT, fill};
use report::report;
use std::io::Read;
use std::process::ExitCode;
use std::{env, io};

// Reads standard input until it ends, or until there is one byte more than a text may have. A buffer with a length, since each
// read is to ask for all the room that is left: a message of a socket is cut by `read_to_end`, which asks for little at first.
fn read_text(rt: &HostRuntime) -> anyhow::Result<Vec<u8>> {
    let mut text = vec![in rt.alloc(); 0u8; MAX_TEXT + 1]?;
    let mut length = 0;
    let mut input = rt.stdin();
    'chunks: for _ in 0..text.len() {
        let count = input.read(&mut text[length..])?;
        if count == 0 {
            break;
        }
        length += count;
    }
    text.truncate(length);
    Ok(text)
}

// Proof-reads standard input, and ends with success where it is accepted.
fn run(rt: &HostRuntime) -> anyhow::Result<ExitCode> {
    if env::args(rt)?.count() > 1 {
        return Err(anyhow!(
            "takes no arguments, but a profile on standard input: proofread < FILE"
        ));
    }
    let text = read_text(rt)?;
    let mut image = vec![in rt.alloc(); 0xffu8; MAX_IMAGE]?;
    let answer = fill(&text, &mut image);
    // A text first, since a `Display` that fails promises nothing of what it wrote by then.
    let page = report(rt.alloc(), answer)?;
    print!(rt; "{page}")?;
    Ok(match answer {
        Ok(_) => ExitCode::SUCCESS,
        Err(_) => ExitCode::FAILURE,
    })
}

fn main(rt: HostRuntime) -> io::Result<ExitCode> {
    run(&rt).or_else(|error| {
        eprintln!(rt; "proofread: {error}")?;
        Ok(ExitCode::FAILURE)
    })
}
