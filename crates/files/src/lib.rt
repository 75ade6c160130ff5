// Files read whole and texts written, for the programs, over std's files and printing. What fails is told on standard error: what it was, and why.
#![tactic(auto)]

ghost use Rattle.std.specs.Prelude.{◌≡◌, ◌<◌, length, take, IfOk, IfSome, Some, false};
ghost use Rattle.std.specs.Io.KnownBytes.{Consumes, IsAtEnd};
ghost use Rattle.std.specs.Io.{ReadsAtMost};
ghost use Rattle.files.specs.Counts.{IsPrefixLen};

use std::io::{ErrorKind, Read};
use std::rt::Files;
use std::{fs, io, str};

// Reads a file into the first bytes of `buf`, and gives how many it has: none at all where it can't be read. A missing file counts as empty.
pub fn read_file<R: Files + Eprint + Alloc>(rt: &R, path: &[u8], buf: &mut [u8]) -> Option<usize>
    ensures count { IfSome result (λ n. IsPrefixLen n buf.new) }
{
    match str::from_utf8(path) {
        Ok(name) => read_named(rt, name, buf),
        Err(_) => {
            let name = path.escape_ascii();
            eprintln!(rt; "{name}: not a name in UTF-8").unwrap_or(());
            None
        }
    }
}

// Reads a file behind one that was taken. Behind one that was not it is not looked at, and counts as empty.
pub fn read_behind<R: Files + Eprint + Alloc>(
    rt: &R,
    taken: bool,
    path: &[u8],
    buf: &mut [u8],
) -> Option<usize>
    ensures count { IfSome result (λ n. IsPrefixLen n buf.new) }
    ensures behind_refused { taken ≡ false → (result ≡ Some 0) × (buf.new ≡ buf.old) }
{
    if !taken {
        return Some(0);
    }
    read_file(rt, path, buf)
}

fn read_named<R: Files + Eprint + Alloc>(rt: &R, name: &str, buf: &mut [u8]) -> Option<usize>
    ensures { IfSome result (λ n. IsPrefixLen n buf.new) }
{
    match read_there(rt, name, buf) {
        Ok(bytes) => Some(bytes),
        Err(error) => {
            tell(rt, name, error);
            None
        }
    }
}

// A file that is there; a missing one counts as empty.
fn read_there<R: Files>(rt: &R, name: &str, buf: &mut [u8]) -> io::Result<usize>
    ensures { IfOk result (λ n. IsPrefixLen n buf.new) }
{
    let mut file = match fs::open(rt, name) {
        Err(error) if error.kind() == ErrorKind::NotFound => return Ok(0),
        opened => opened?,
    };
    read_all(&mut file, buf)
}

// Reads until `buf` is full or the file ends.
fn read_all<F: Read>(file: &mut F, buf: &mut [u8]) -> io::Result<usize>
    ensures bound { ReadsAtMost result buf.new }
    ensures bytes { IfOk result (λ n. Consumes (F.remaining file.old) (F.remaining file.new) (take n buf.new)) }
    ensures whole { IfOk result (λ n. n < length buf.new → IsAtEnd (F.remaining file.new)) }
{
    let mut bytes = 0;
    // No `for`: each read gives as many bytes as it will.
    while bytes < buf.len() {
        let more = file.read(&mut buf[bytes..])?;
        if more == 0 {
            break;
        }
        bytes += more;
    }
    Ok(bytes)
}

// Writes a text to standard output.
pub fn print<R: Print + Eprint + Alloc>(rt: &R, text: &[u8]) {
    if let Err(error) = rt.write_all(text) {
        tell(rt, "standard output", error);
    }
}

// Tells what failed, and why. What can't be told either is let go.
fn tell<R: Eprint + Alloc>(rt: &R, what: &str, error: io::Error) {
    let told = match format!(in rt.alloc(); "{error}") {
        Ok(text) => {
            let why = without_code(text.as_str());
            eprintln!(rt; "{what}: {why}")
        }
        Err(_) => eprintln!(rt; "{what}: {error}"),
    };
    told.unwrap_or(())
}

// An error's text without the number that std puts behind the system's words.
fn without_code(text: &str) -> &str {
    match text.split_once(" (os error ") {
        Some((words, _)) => words,
        None => text,
    }
}
