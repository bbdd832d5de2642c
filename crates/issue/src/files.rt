//! The label files.
use cli::Stop;
use issuing::issue::write_labels;
use keys::cipher::ChaCha20;
use starts::table::Starts;
use wire::labels::size_of_labels;

/// After so many files it is said how far the work is.
const REPORT: usize = 4096;

fn report(rt: &HostRuntime, done: usize, all: usize) -> Result<(), Stop> {
    if done % REPORT == 0 {
        eprintln!(rt; "{done} of {all} receivers")?;
    }
    Ok(())
}

/// Writes the label file of each receiver into a directory.
pub fn write_files(
    rt: &HostRuntime,
    dir: &str,
    starts: &Starts,
    receivers: &[u32],
) -> Result<(), Stop> {
    let mut bytes = vec![in rt.alloc(); 0; size_of_labels(starts.height())]?;
    for (before, receiver) in receivers.iter().enumerate() {
        let size = write_labels(&mut ChaCha20, starts, *receiver, &mut bytes)?;
        let path = format!(in rt.alloc(); "{dir}/{receiver}.labels")?;
        cli::write_file(rt, path.as_str(), &bytes[0..size])?;
        report(rt, before + 1, receivers.len())?;
    }
    Ok(())
}
