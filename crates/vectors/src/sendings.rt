//! The sendings among the test data.
use crate::{HEIGHT, RECEIVERS, read_starts, verdict};
use cli::Stop;
use keys::Key;
use keys::cipher::ChaCha20;
use sending::send::write_sending;
use tree::parts::Part;
use wire::revocation::{MAX_REVOKED, read_revocation};
use wire::sending::{read_sending, size_of_sending};

const SENDINGS: [(&str, u32); 6] = [
    ("two", 7),
    ("zero-five", 8),
    ("zero-one", 9),
    ("nobody", 10),
    ("everybody", 11),
    ("last-number", 4294967293),
];

/// The most parts that cover all receivers but some of them.
const MAX_PARTS: usize = 2 * RECEIVERS.len() - 1;

fn read_named(rt: &HostRuntime, name: &str, kind: &str) -> Result<Vec<u8>, Stop> {
    let path = format!(in rt.alloc(); "h3.{name}.{kind}")?;
    cli::read_file(rt, path.as_str())
}

/// Whether the sending is that of the file, and is read back.
fn is_as_expected(rt: &HostRuntime, starts: &[u8], name: &str, number: u32) -> Result<bool, Stop> {
    let mut receivers = [0; MAX_REVOKED];
    let list = read_revocation(&read_named(rt, name, "list")?, &mut receivers)?;
    let revoked = &receivers[0..list.count];
    let drawn = read_named(rt, name, "drawn")?;
    let session: Key = drawn.as_slice().try_into().unwrap_or([0; 32]);
    let kept = read_starts(rt, HEIGHT, revoked, starts, 100)??;
    let mut parts = [Part::ALL; MAX_PARTS];
    let mut bytes = vec![in rt.alloc(); 0; size_of_sending(MAX_PARTS as u32)]?;
    let size = write_sending(
        &mut ChaCha20,
        &kept,
        revoked,
        number,
        session,
        &mut parts,
        &mut bytes,
    )?;
    let written = &bytes[0..size];
    let sent = read_sending(written)?;
    Ok(written == read_named(rt, name, "sending")?.as_slice() && sent.number == number)
}

pub fn compare_sendings(rt: &HostRuntime, starts: &[u8]) -> Result<(), Stop> {
    for (name, number) in SENDINGS {
        let verdict = verdict(is_as_expected(rt, starts, name, number)?);
        println!(rt; "sending {number}, {name}: {verdict}")?;
    }
    Ok(())
}
