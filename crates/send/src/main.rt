//! `send LIST N STARTS DRAWN OUT` writes a sending.
#![tactic(auto)]

mod order;

use anyhow::anyhow;
use cli::{Stop, parse_number};
use keys::cipher::ChaCha20;
use order::{Order, read_order};
use sending::send::write_sending;
use std::env;
use std::process::ExitCode;
use tree::parts::Part;
use wire::revocation::MAX_PARTS;
use wire::sending::size_of_sending;

const HELP: &str = "send LIST N STARTS DRAWN OUT

Writes a sending to OUT: the session key, which is the first 32 bytes of the file DRAWN, under the key of each part that covers all receivers but
those that the revocation list LIST names, with the starts of the file STARTS. N is the number of the sending. It keeps no record of numbers: no
other sending and no trial may ever have the same. What is refused gives the number of the refusal and status 1, and leaves OUT as it was.";

fn send(rt: &HostRuntime, order: &Order, out: &str) -> Result<(), Stop> {
    let mut parts = vec![in rt.alloc(); Part::ALL; MAX_PARTS]?;
    let mut bytes = vec![in rt.alloc(); 0; size_of_sending(MAX_PARTS as u32)]?;
    let size = write_sending(
        &mut ChaCha20,
        &order.starts,
        &order.revoked,
        order.number,
        order.session,
        &mut parts,
        &mut bytes,
    )?;
    cli::write_file(rt, out, &bytes[0..size])
}

/// The number of a sending, where one that none can have is as good as another.
fn read_number(text: &str) -> Result<u32, Stop> {
    parse_number(text).ok_or_else(|| Stop::Failed(anyhow!("N is not a number")))
}

fn run(rt: &HostRuntime) -> Result<(), Stop> {
    let args: Vec<String> = env::args(rt)?.skip(1).collect(rt.alloc())?;
    match args.as_slice() {
        [first, ..] if first.as_str() == "--help" => Ok(rt.println(HELP)?),
        [list, number, starts, drawn, out] => {
            let number = read_number(number.as_str())?;
            let order = read_order(rt, list.as_str(), number, starts.as_str(), drawn.as_str())?;
            send(rt, &order, out.as_str())
        }
        _ => Err(Stop::Failed(anyhow!("usage: send LIST N STARTS DRAWN OUT"))),
    }
}

fn main(rt: HostRuntime) -> ExitCode {
    cli::exit_code(&rt, run(&rt))
}
