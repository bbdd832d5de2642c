//! `parts LIST` prints the parts that cover all receivers but those that a revocation list names.
#![tactic(auto)]

use anyhow::anyhow;
use cli::Stop;
use std::env;
use std::process::ExitCode;
use tree::cover::cover;
use tree::parts::Part;
use wire::revocation::{MAX_PARTS, MAX_REVOKED, read_revocation};

const HELP: &str = "parts LIST

Prints the parts that cover all receivers but those that the revocation list LIST names, one a line as (first, second), and last how many
they are. A list that is refused gives the number of the refusal, and status 1.";

fn print_parts(rt: &HostRuntime, parts: &[Part]) -> Result<(), Stop> {
    for part in parts {
        println!(rt; "{part}")?;
    }
    let count = parts.len();
    println!(rt; "{count} parts")?;
    Ok(())
}

fn print_cover(rt: &HostRuntime, list: &str) -> Result<(), Stop> {
    let bytes = cli::read_file(rt, list)?;
    let mut receivers = [0; MAX_REVOKED];
    let list = read_revocation(&bytes, &mut receivers)?;
    let mut parts = [Part::ALL; MAX_PARTS];
    let count = cover(list.height, &receivers[0..list.count], &mut parts)?;
    print_parts(rt, &parts[0..count])
}

fn run(rt: &HostRuntime) -> Result<(), Stop> {
    let args: Vec<String> = env::args(rt)?.skip(1).collect(rt.alloc())?;
    match args.as_slice() {
        [only] if only.as_str() == "--help" => Ok(rt.println(HELP)?),
        [list] => print_cover(rt, list.as_str()),
        _ => Err(Stop::Failed(anyhow!("usage: parts LIST"))),
    }
}

fn main(rt: HostRuntime) -> ExitCode {
    cli::exit_code(&rt, run(&rt))
}
