//! What the programs share: how they end, and how they read files and numbers. What is printed is run and compared, and not proved.
#![tactic(auto)]

ghost use Rattle.std.specs.Prelude.{◌≡◌, ◌-◌, ◌^◌, ◌<◌, min, SomeIff, if◌then◌else◌, is_ok};
ghost use Rattle.std.specs.Process.{exit_status};
ghost use Rattle.std.specs.Str.Parse.{IsNumeral, digits_value, without_leading_plus};
ghost use Rattle.fault.specs.declared.Fault.{Fault};
ghost use Rattle.fault.specs.declared.Refusal.TheVariants.{Faulty};
ghost use Rattle.cli.specs.declared.Stop.TheVariants.{Refused};

use anyhow::anyhow;
use fault::{Fault, Refusal};
use std::alloc::{AllocError, AllocFailed};
use std::process::ExitCode;
use std::{fmt, fs, io};

pub mod pieces;

/// Why a program ends with status 1.
#[derive(Drop)]
pub enum Stop {
    /// What it was given has a fault: its number is printed on standard output, a sentence on standard error.
    Refused(Fault),
    /// Something else stands in the way: a sentence is printed on standard error.
    Failed(anyhow::Error),
}

/// The sentence.
impl fmt::Display for Stop {
    fn fmt<W: fmt::Write>(&self, f: &mut fmt::Formatter<W>) -> fmt::Result {
        match self {
            Stop::Refused(fault) => write!(f, "refused: {fault}"),
            Stop::Failed(error) => write!(f, "{error}"),
        }
    }
}

// One impl over all errors would overlap those of faults, so each error has its own.
impl From<io::Error> for Stop {
    fn from(error: io::Error) -> Stop {
        Stop::Failed(error.into())
    }
}

impl From<AllocError> for Stop {
    fn from(error: AllocError) -> Stop {
        Stop::Failed(error.into())
    }
}

impl<T: Drop> From<AllocFailed<T>> for Stop {
    fn from(refused: AllocFailed<T>) -> Stop {
        Stop::Failed(AllocError::from(refused).into())
    }
}

impl From<Fault> for Stop {
    ghost from_gives = { λ fault stop. stop ≡ Refused fault };

    fn from(fault: Fault) -> Stop {
        Stop::Refused(fault)
    }
}

impl From<Refusal> for Stop {
    ghost from_gives = { λ refusal stop. (fault : Fault) → refusal ≡ Faulty fault → stop ≡ Refused fault };

    fn from(refusal: Refusal) -> Stop {
        match refusal {
            Refusal::Faulty(fault) => Stop::Refused(fault),
            Refusal::NoRoom => Stop::Failed(anyhow!("there is no room for the answer")),
        }
    }
}

/// Says why a program ends.
fn report(rt: &HostRuntime, stop: &Stop) {
    if let Stop::Refused(fault) = stop {
        let number = fault.number();
        let _ = println!(rt; "{number}");
    }
    let _ = eprintln!(rt; "{stop}");
}

/// Says why a program ends, and hands its outcome on to `main`.
pub fn end(rt: &HostRuntime, outcome: Result<(), Stop>) -> Result<(), Stop>
    ensures { result ≡ outcome }
{
    outcome.inspect_err(|stop| report(rt, stop))
}

/// The same, with the status that the process ends with. Each program's `main` is this over what it runs,
/// and takes its arguments apart by itself, since help and usage differ.
pub fn exit_code(rt: &HostRuntime, outcome: Result<(), Stop>) -> ExitCode
    ensures { exit_status result ≡ (if is_ok outcome then 0 else 1) }
{
    match end(rt, outcome) {
        Ok(()) => ExitCode::SUCCESS,
        Err(_) => ExitCode::FAILURE,
    }
}

/// That something cannot be done with a file, as a sentence that names it.
fn cannot(what: &str, path: &str, error: io::Error) -> Stop {
    Stop::Failed(anyhow!("cannot {what} {path}: {error}"))
}

/// A file's bytes, or a sentence that names the file.
pub fn read_file(rt: &HostRuntime, path: &str) -> Result<Vec<u8>, Stop> {
    fs::read(rt, path).map_err(|error| cannot("read", path, error))
}

/// Writes a file under another name and gives it its own at the end, so that none is left half written.
pub fn write_file(rt: &HostRuntime, path: &str, bytes: &[u8]) -> Result<(), Stop> {
    let unfinished = format!(in rt.alloc(); "{path}.unfinished")?;
    if let Err(error) = fs::write(rt, &unfinished, bytes) {
        let _ = fs::remove_file(rt, &unfinished);
        return Err(cannot("write", path, error));
    }
    fs::rename(rt, &unfinished, path).map_err(|error| cannot("write", path, error))
}

/// The number that a text writes, if it fits 64 bits; one that does not fit 32 is as good as the highest that does.
pub fn parse_number(text: &str) -> Option<u32>
    ensures { let digits = without_leading_plus text.now in SomeIff result (IsNumeral 10 digits × (digits_value 10 digits < 2 ^ 64)) (min (digits_value 10 digits) (2 ^ 32 - 1)) }
{
    let number = text.parse::<u64>().ok()?;
    Some(u32::try_from(number).unwrap_or(u32::MAX))
}
