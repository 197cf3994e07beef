// The files that the programs read and write.
#![tactic(auto)]

ghost use Rattle.std.specs.Prelude.{◌≡◌, ◌≢◌, [], IfErr, Ok};
ghost use Rattle.std.specs.IoError.{error_kind};

use std::fs::{File, OpenOptions};
use std::io;
use std::io::{ErrorKind, Read, Write};

// The image that a program works on, and the second one of a stripe.
pub const IMAGE: &str = "image.bin";

pub const SECOND_IMAGE: &str = "image2.bin";

// The most bytes that are read of an image.
pub const IMAGE_BYTES: u64 = 32768;

// A sheet has at most 45 bytes, and what follows them is refused at its first byte, so no more are read.
pub const SHEET_BYTES: u64 = 64;

// The first bytes of a file, up to so many.
fn read_first(rt: &HostRuntime, path: &str, most: u64) -> io::Result<Vec<u8>> {
    let mut bytes = Vec::new(rt.alloc());
    File::open(rt, path)?.take(most).read_to_end(&mut bytes)?;
    Ok(bytes)
}

// The first bytes of a file, up to so many; a missing file has none.
pub fn read_some(rt: &HostRuntime, path: &str, most: u64) -> io::Result<Vec<u8>>
    ensures { IfErr result (λ e. error_kind e ≢ ErrorKind.NotFound) }
{
    match read_first(rt, path, most) {
        Err(e) if e.kind() == ErrorKind::NotFound => Ok(Vec::new(rt.alloc())),
        read => read,
    }
}

// The bytes of a file; a missing file has none.
pub fn read_all(rt: &HostRuntime, path: &str) -> io::Result<Vec<u8>>
    ensures { IfErr result (λ e. error_kind e ≢ ErrorKind.NotFound) }
{
    read_some(rt, path, u64::MAX)
}

// Writes the bytes over a file's first ones. Where there are none nothing is opened, and nothing can fail.
pub fn write_over(rt: &HostRuntime, path: &str, bytes: &[u8]) -> io::Result<()>
    ensures { bytes.now ≡ [] → result ≡ Ok tt }
{
    if bytes.is_empty() {
        return Ok(());
    }
    OpenOptions::new()
        .write(true)
        .open(rt, path)?
        .write_all(bytes)
}
