// What the loops of the programs have in common, whatever they make of the bytes: a read and what it answers, all of some
// bytes written, the bytes that wait for more moved to the front of a buffer, and the loop itself (machine).
#![tactic(auto)]

ghost use Rattle.std.specs.Prelude.{◌≡◌, ℕ, length, OnOk, OnErr};
ghost use Rattle.std.specs.Io.KnownBytes.{Appends};
ghost use Rattle.io.specs.Digits.{last_digits, IsDigitCount};
ghost use Rattle.reads.specs.Reads.{Moved, Brings, Bytes, HasWrittenSome, moved};

mod machine;

pub use machine::{End, Machine, Served, Stand, ends_by, serve, tell};
use std::io::{self as stream, ErrorKind, Read, Write};

// A proved loop has to end, and nothing says that the input does: a program ends where it has used so many bytes, which
// no run does.
const MOST_BYTES: u64 = 18446744073709000000;

// One read into the part: how many bytes it brought, 0 at the end of the input, or none where it failed. A read that a
// signal interrupts before it brings a byte counts as one that failed.
pub fn read_part<R: Read>(from: &mut R, part: &mut [u8]) -> Option<usize>
    ensures room { Moved (length part.old) result }
    ensures bytes { Brings (R.remaining from.old) (R.remaining from.new) result part.new }
    ensures are_bytes { Bytes part.new }
{
    from.read(part).ok()
}

// Writes all the bytes; where a write fails or takes nothing, what was written is a front of them. A write that a signal
// interrupts before it takes a byte is tried again. By hand, since the library's method says nothing of what a failed write left; the turns
// are counted, since a proved loop has to end: no run makes so many.
pub fn write_all<W: Write>(to: &mut W, bytes: &[u8]) -> stream::Result<()>
    ensures ok { OnOk result (Appends (W.contents to.old) (W.contents to.new) bytes.now) }
    ensures err { OnErr result (HasWrittenSome (W.contents to.old) (W.contents to.new) bytes.now) }
{
    let mut done = 0;
    for _turn in 0..u64::MAX {
        if done == bytes.len() {
            return Ok(());
        }
        match to.write(&bytes[done..]) {
            Ok(0) => return Err(stream::Error::from(ErrorKind::WriteZero)),
            Ok(n) => done += n,
            Err(e) => {
                if e.kind() != ErrorKind::Interrupted {
                    return Err(e);
                }
            }
        }
    }
    Err(stream::Error::from(ErrorKind::Other))
}

// Writes a number in decimal, with no line end, as `write_all` does.
// By digits and not by `write!`: the promise names them (`last_digits`), and `write!` promises its bytes of plain formatters alone.
pub fn write_number<W: Write>(to: &mut W, n: u64) -> stream::Result<()>
    ensures ok { OnOk result ((k : ℕ) × IsDigitCount 10 1 n k × Appends (W.contents to.old) (W.contents to.new) (last_digits 10 k n)) }
    ensures err { OnErr result ((k : ℕ) × IsDigitCount 10 1 n k × HasWrittenSome (W.contents to.old) (W.contents to.new) (last_digits 10 k n)) }
{
    let mut digits = [0u8; 20];
    let count = io::decimal(n, &mut digits);
    write_all(to, &digits[..count])
}

// Moves the bytes from `from` to `end` to the front, where there are such.
pub fn move_rest(input: &mut [u8], from: usize, end: usize)
    ensures { input.new ≡ moved from end input.old }
{
    if from <= end && end <= input.len() {
        input.copy_within(from..end, 0);
    }
}
