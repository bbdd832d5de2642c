//! `issue STARTS DIR RECEIVER...` writes the label files of receivers.
#![tactic(auto)]

mod asked;
mod files;

use anyhow::anyhow;
use asked::{Range, read_ranges, receivers_in};
use cli::Stop;
use cli::pieces::Pieces;
use files::write_files;
use starts::head::read_height;
use starts::reader::StartsReader;
use std::env;
use std::process::ExitCode;

const HELP: &str = "issue STARTS DIR RECEIVER...

Writes DIR/U.labels for each asked receiver U, from the file of starts STARTS. A RECEIVER is a number, or A-B for all from A to B. Starts that are
refused, and a receiver that is not in their tree, give the number of the refusal and status 1, and nothing is written.";

fn issue(rt: &HostRuntime, starts: &str, dir: &str, ranges: &[Range]) -> Result<(), Stop> {
    let mut file = Pieces::open(rt, starts)?;
    let front = file.next()?;
    let height = read_height(front)?;
    let receivers = receivers_in(rt.alloc(), height, ranges)?;
    let mut reader = StartsReader::begin(rt.alloc(), height, &receivers)?;
    reader.read_on(front);
    file.for_each(|piece| reader.read_on(piece))?;
    let starts = reader.finish()?;
    write_files(rt, dir, &starts, &receivers)
}

fn run(rt: &HostRuntime) -> Result<(), Stop> {
    let args: Vec<String> = env::args(rt)?.skip(1).collect(rt.alloc())?;
    match args.as_slice() {
        [first, ..] if first.as_str() == "--help" => Ok(rt.println(HELP)?),
        [starts, dir, asked @ ..] if !asked.is_empty() => {
            let ranges = read_ranges(rt.alloc(), asked)?;
            issue(rt, starts.as_str(), dir.as_str(), &ranges)
        }
        _ => Err(Stop::Failed(anyhow!("usage: issue STARTS DIR RECEIVER..."))),
    }
}

fn main(rt: HostRuntime) -> ExitCode {
    cli::exit_code(&rt, run(&rt))
}
