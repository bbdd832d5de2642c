//! Files that are read once, piece by piece. What a file holds, and that it ends, is not promised.
ghost use Rattle.std.specs.Prelude.{◌<◌, ◌≤◌, length, IfOk};

use crate::{Stop, cannot};
use std::fs::File;
use std::io::Read;
use std::{fs, io};

/// How many bytes are read at once.
const PIECE: usize = 65536;

/// A file that is being read. The piece is an array and not a vector, which would be filled with zeros before each reading.
#[derive(Drop)]
pub struct Pieces {
    file: File,
    buffer: [u8; PIECE],
}

/// Reads until the buffer is full or the file ends, and answers how many bytes it has.
fn fill(file: &mut File, buffer: &mut [u8; PIECE]) -> io::Result<usize>
    ensures { IfOk result (λ n. n ≤ 65536) }
{
    let mut filled = 0;
    while filled < PIECE {
        let count = file.read(&mut buffer[filled..])?;
        if count == 0 {
            break;
        }
        filled += count;
    }
    Ok(filled)
}

impl Pieces {
    pub fn open(rt: &HostRuntime, path: &str) -> Result<Pieces, Stop> {
        let file = fs::open(rt, path).map_err(|error| cannot("read", path, error))?;
        Ok(Pieces {
            file,
            buffer: [0; PIECE],
        })
    }

    /// The next piece, which is full unless the file ends with it; after the last there is an empty one.
    pub fn next(&mut self) -> io::Result<&[u8]>
        ensures { IfOk result (λ piece. length piece.now ≤ 65536) }
    {
        let count = fill(&mut self.file, &mut self.buffer)?;
        Ok(&self.buffer[0..count])
    }

    /// Hands on the rest of the file, piece by piece. None of them is empty.
    pub fn for_each<F: FnMut(&[u8])>(&mut self, mut read: F) -> io::Result<()>
        requires { (state : F) (piece : _) → 0 < length piece.now → F.pre state piece }
    {
        // No file is known to end, and every loop is proved to.
        for _ in 0..u64::MAX {
            let piece = self.next()?;
            if piece.is_empty() {
                break;
            }
            read(piece);
        }
        Ok(())
    }
}
