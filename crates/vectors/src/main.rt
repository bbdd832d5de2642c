//! Test data that an independent program made for a tree of height 3, worked out again and compared: the label file of each receiver, from starts
//! that are cut into pieces of several sizes, and sendings; all of them read back. Then what is refused, by its number.
#![tactic(auto)]

mod sendings;

ghost use Rattle.std.specs.Prelude.{◌<◌};

use cli::Stop;
use fault::{Fault, number_in};
use issuing::issue::write_labels;
use keys::cipher::ChaCha20;
use sendings::compare_sendings;
use starts::reader::StartsReader;
use starts::table::Starts;
use std::process::ExitCode;
use wire::labels::{read_labels_for, size_of_labels};

pub const HEIGHT: u8 = 3;

const RECEIVERS: [u32; 8] = [0, 1, 2, 3, 4, 5, 6, 7];

/// The answer for starts that come in pieces of this size.
fn read_starts(
    rt: &HostRuntime,
    height: u8,
    receivers: &[u32],
    file: &[u8],
    size: usize,
) -> Result<Result<Starts, Fault>, Stop>
    requires { 0 < size }
{
    let mut reader = StartsReader::begin(rt.alloc(), height, receivers)?;
    for piece in file.chunks(size) {
        reader.read_on(piece);
    }
    Ok(reader.finish())
}

fn verdict(is_as_expected: bool) -> &'static str {
    if is_as_expected {
        "as expected"
    } else {
        "differs"
    }
}

/// Whether the receiver's labels are those of its file, and are read back.
fn is_as_expected(rt: &HostRuntime, starts: &Starts, receiver: u32) -> Result<bool, Stop> {
    let path = format!(in rt.alloc(); "h3.{receiver}.labels")?;
    let expected = cli::read_file(rt, path.as_str())?;
    let mut bytes = vec![in rt.alloc(); 0; size_of_labels(HEIGHT)]?;
    let size = write_labels(&mut ChaCha20, starts, receiver, &mut bytes)?;
    let written = &bytes[0..size];
    let labels = read_labels_for(HEIGHT, written)?;
    Ok(written == expected.as_slice() && labels.receiver == receiver)
}

fn compare_labels(rt: &HostRuntime, file: &[u8]) -> Result<(), Stop> {
    for size in [1, 2, 33, 514usize] {
        let starts = read_starts(rt, HEIGHT, &RECEIVERS, file, size)??;
        for receiver in RECEIVERS {
            let verdict = verdict(is_as_expected(rt, &starts, receiver)?);
            println!(rt; "starts in pieces of {size}: labels of receiver {receiver}: {verdict}")?;
        }
    }
    Ok(())
}

fn show_refusals(rt: &HostRuntime, file: &[u8]) -> Result<(), Stop> {
    let cut = &file[0..file.len().saturating_sub(1)];
    let cases: [(&str, u8, &[u32], &[u8]); 4] = [
        ("starts without their last byte", HEIGHT, &RECEIVERS, cut),
        ("starts for a higher tree", HEIGHT + 1, &RECEIVERS, file),
        ("starts for receiver 8", HEIGHT, &[8], file),
        (
            "starts for receiver 8 without their last byte",
            HEIGHT,
            &[8],
            cut,
        ),
    ];
    for (case, height, receivers, bytes) in cases {
        let number = number_in(read_starts(rt, height, receivers, bytes, 100)?);
        println!(rt; "{case}: {number}")?;
    }
    let labels = cli::read_file(rt, "h3.0.labels")?;
    let other = number_in(read_labels_for(HEIGHT + 1, &labels));
    println!(rt; "labels for a higher tree: {other}")?;
    Ok(())
}

fn run(rt: &HostRuntime) -> Result<(), Stop> {
    let file = cli::read_file(rt, "h3.starts")?;
    compare_labels(rt, &file)?;
    compare_sendings(rt, &file)?;
    show_refusals(rt, &file)
}

fn main(rt: HostRuntime) -> ExitCode {
    cli::exit_code(&rt, run(&rt))
}
