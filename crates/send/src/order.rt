//! What is to be sent, by the files that the arguments name. The lowest fault of all of them and of the number is the answer.
ghost use Rattle.std.specs.Prelude.{◌≡◌, nat_lt};
ghost use Rattle.fault.specs.declared.Fault.TheVariants.{OutOfRange};
ghost use Rattle.fault.specs.Lowest.{when, lower, lowest};
ghost use Rattle.tree.specs.Numbers.{last_number};

use cli::Stop;
use cli::pieces::Pieces;
use fault::{Fault, lower_of};
use keys::Key;
use starts::head::read_height;
use starts::reader::StartsReader;
use starts::table::Starts;
use tree::numbers::fault_in_number;
use wire::revocation::{MAX_REVOKED, read_revocation};

#[derive(Drop)]
pub struct Order {
    pub starts: Starts,
    pub revoked: Vec<u32>,
    pub number: u32,
    pub session: Key,
}

/// What a file says, or its lowest fault, which is told only once all files are read.
type Judged<T> = Result<T, Fault>;

/// A revocation list: the height of its tree, and its receivers.
#[derive(Drop)]
struct List {
    height: u8,
    revoked: Vec<u32>,
}

fn read_list(rt: &HostRuntime, path: &str) -> Result<Judged<List>, Stop> {
    let bytes = cli::read_file(rt, path)?;
    let mut receivers = [0; MAX_REVOKED];
    match read_revocation(&bytes, &mut receivers) {
        Ok(list) => Ok(Ok(List {
            height: list.height,
            revoked: Vec::from_slice(rt.alloc(), &receivers[0..list.count])?,
        })),
        Err(fault) => Ok(Err(fault)),
    }
}

/// The first 32 bytes of a file that has so many.
fn read_session(rt: &HostRuntime, path: &str) -> Result<Judged<Key>, Stop> {
    let bytes = cli::read_file(rt, path)?;
    Ok(bytes.first_chunk().copied().ok_or(Fault::Malformed))
}

/// The starts for the revoked receivers of a list; for want of one, they are only judged.
fn read_starts(rt: &HostRuntime, path: &str, list: &Judged<List>) -> Result<Judged<Starts>, Stop> {
    let mut file = Pieces::open(rt, path)?;
    let front = file.next()?;
    let mut reader = match list {
        Ok(list) => StartsReader::begin(rt.alloc(), list.height, &list.revoked)?,
        Err(_) => match read_height(front) {
            Ok(height) => StartsReader::begin(rt.alloc(), height, &[])?,
            Err(fault) => return Ok(Err(fault)),
        },
    };
    reader.read_on(front);
    file.for_each(|piece| reader.read_on(piece))?;
    Ok(reader.finish())
}

fn fault_of<T>(judged: &Judged<T>) -> Option<Fault> {
    judged.as_ref().err().copied()
}

/// The lowest fault of all that was judged, and of the number.
fn lowest_fault(
    list: Option<Fault>,
    session: Option<Fault>,
    starts: Option<Fault>,
    number: u32,
) -> Option<Fault>
    ensures { result ≡ lower (lower list (lower session starts)) (lowest (when (nat_lt last_number number) OutOfRange)) }
{
    let of_files = lower_of(list, lower_of(session, starts));
    lower_of(of_files, fault_in_number(number))
}

/// What is ordered.
pub fn read_order(
    rt: &HostRuntime,
    list: &str,
    number: u32,
    starts: &str,
    drawn: &str,
) -> Result<Order, Stop> {
    let list = read_list(rt, list)?;
    let session = read_session(rt, drawn)?;
    let starts = read_starts(rt, starts, &list)?;
    let lowest = lowest_fault(
        fault_of(&list),
        fault_of(&session),
        fault_of(&starts),
        number,
    );
    if let Some(fault) = lowest {
        return Err(fault.into());
    }
    Ok(Order {
        starts: starts?,
        revoked: list?.revoked,
        number,
        session: session?,
    })
}
