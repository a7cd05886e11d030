// Whole files: a read to the end, within the bound on a file's length, and a write of all.
ghost use Rattle.std.specs.Prelude.{◌≡◌, ◌≢◌, ◌≤◌, ◌^◌, ◌++◌, ◌↔◌, ℕ, List, length, OnOk, IfSome, IsUtf8};
ghost use Rattle.std.specs.IoError.{error_kind};
ghost use Rattle.std.specs.Io.KnownBytes.{Appends};

use crate::{ReadAnswer, WriteAnswer};
use std::fs::{File, OpenFile};
use std::io;
use std::io::{ErrorKind, Read, Write};
use std::rt::Files;

// The longest file that is read, in bytes.
const MOST_BYTES: u64 = 1 << 32;

/// Appends what the file at the path holds. Where memory is refused, what was read before that is taken back.
pub(crate) fn read_file<R: Files>(runtime: &R, name: &[u8], out: &mut Vec<u8>) -> ReadAnswer
    ensures appends { (more : List ℕ) × (out.new.items ≡ out.old.items ++ more) }
    ensures memory { result ≡ ReadAnswer.NoMemory → out.new.items ≡ out.old.items }
    ensures text_alone { ¬ (IsUtf8 name.now) → result ≡ ReadAnswer.Failed }
{
    let Ok(path) = str::from_utf8(name) else {
        return ReadAnswer::Failed;
    };
    let file = match File::open(runtime, path) {
        Ok(file) => file,
        Err(error) => return unopened(&error),
    };
    let held = out.len();
    match read_all(file, out) {
        Ok(()) => ReadAnswer::Done,
        Err(error) if error.kind() == ErrorKind::OutOfMemory => {
            out.truncate(held);
            ReadAnswer::NoMemory
        }
        Err(_) => ReadAnswer::Failed,
    }
}

// What a read answers where the file can't be opened.
fn unopened(error: &io::Error) -> ReadAnswer
    ensures missing { (result ≡ ReadAnswer.Missing) ↔ (error_kind error.now ≡ ErrorKind.NotFound) }
    ensures memory { (result ≡ ReadAnswer.NoMemory) ↔ (error_kind error.now ≡ ErrorKind.OutOfMemory) }
    ensures not_done { result ≢ ReadAnswer.Done }
{
    match error.kind() {
        ErrorKind::NotFound => ReadAnswer::Missing,
        ErrorKind::OutOfMemory => ReadAnswer::NoMemory,
        _ => ReadAnswer::Failed,
    }
}

// Appends all that is left of the file, unless that is more than the longest file.
fn read_all<F: Read + OpenFile + Drop>(file: F, out: &mut Vec<u8>) -> io::Result<()>
    ensures appends { (more : List ℕ) × (out.new.items ≡ out.old.items ++ more) }
    ensures bytes { OnOk result (IfSome (F.remaining file) (λ held. out.new.items ≡ out.old.items ++ held)) }
    ensures bound { OnOk result (IfSome (F.remaining file) (λ held. length held ≤ 2 ^ 32)) }
{
    let length = file.metadata()?.len();
    if length > MOST_BYTES {
        return Err(ErrorKind::FileTooLarge.into());
    }
    read_rest(file, length as usize, out)?;
    Ok(())
}

// The same for any reader, of which about `expected` bytes are left. One byte of room to spare saves the growth before the read that
// finds the end.
fn read_rest<F: Read + Drop>(reader: F, expected: usize, out: &mut Vec<u8>) -> io::Result<()>
    ensures appends { (more : List ℕ) × (out.new.items ≡ out.old.items ++ more) }
    ensures bytes { OnOk result (IfSome (F.remaining reader) (λ held. out.new.items ≡ out.old.items ++ held)) }
    ensures bound { OnOk result (IfSome (F.remaining reader) (λ held. length held ≤ 2 ^ 32)) }
{
    out.reserve(expected.saturating_add(1))?;
    let count = reader.take(MOST_BYTES + 1).read_to_end(out)?;
    if count as u64 > MOST_BYTES {
        return Err(ErrorKind::FileTooLarge.into());
    }
    Ok(())
}

/// Makes the file at the path hold these bytes and no others. Once the file is open, every error is a failure, since it may have been cut off.
pub(crate) fn write_file<R: Files>(runtime: &R, name: &[u8], bytes: &[u8]) -> WriteAnswer
    ensures text_alone { ¬ (IsUtf8 name.now) → result ≡ WriteAnswer.Failed }
{
    let Ok(path) = str::from_utf8(name) else {
        return WriteAnswer::Failed;
    };
    let mut file = match File::create(runtime, path) {
        Ok(file) => file,
        Err(error) if error.kind() == ErrorKind::OutOfMemory => return WriteAnswer::NoMemory,
        Err(_) => return WriteAnswer::Failed,
    };
    match write_all(&mut file, bytes) {
        Ok(()) => WriteAnswer::Done,
        Err(_) => WriteAnswer::Failed,
    }
}

// Writes all the bytes. A write that takes nothing of them is an error.
fn write_all<F: Write>(file: &mut F, bytes: &[u8]) -> io::Result<()>
    ensures { OnOk result (Appends (F.contents file.old) (F.contents file.new) bytes.now) }
{
    file.write_all(bytes)?;
    file.flush()?;
    Ok(())
}

#[cfg(test)]
mod tests {
    use super::{read_rest, write_all};
    use std::io;
    use std::io::{ErrorKind, Read, Write};
    use std::test::Fail;

    // Two reads give a byte each, and the third fails.
    #[derive(Drop)]
    struct Failing {
        left: u8,
    }

    impl Read for Failing {
        fn read(&mut self, buf: &mut [u8]) -> io::Result<usize> {
            if self.left == 0 {
                return Err(ErrorKind::Other.into());
            }
            if buf.is_empty() {
                return Ok(0);
            }
            self.left -= 1;
            buf[0] = b'a';
            Ok(1)
        }
    }

    // Takes nothing of what is written.
    #[derive(Drop)]
    struct Full;

    impl Write for Full {
        fn write(&mut self, _buf: &[u8]) -> io::Result<usize> {
            Ok(0)
        }

        fn flush(&mut self) -> io::Result<()> {
            Ok(())
        }
    }

    #[test]
    fn what_stops_in_the_middle_fails(rt: HostRuntime) -> Result<(), Fail> {
        let mut out = Vec::from_slice(rt.alloc(), b"kept")?;
        assert!(rt; read_rest(Failing { left: 2 }, 2, &mut out).is_err());
        assert!(rt; out.as_slice() == b"keptaa".as_slice());
        assert!(rt; write_all(&mut Full, b"").is_ok());
        assert!(rt; write_all(&mut Full, b"some").is_err());
        Ok(())
    }
}
