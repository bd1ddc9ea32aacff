// Bytes from a reader.
ghost use Rattle.std.specs.Prelude.{◌≤◌, length, take};
ghost use Rattle.std.specs.Io.KnownBytes.{Consumes};

use std::io::Read;

// Reads until `buf` is full, the input ends or a read fails, and answers how many bytes it put at the front of `buf`.
pub(crate) fn read_full<R: Read>(reader: &mut R, buf: &mut [u8]) -> usize
    ensures fits { result ≤ length buf.new }
    ensures bytes { Consumes (R.remaining reader.old) (R.remaining reader.new) (take result buf.new) }
{
    let mut done = 0;
    // each turn reads at least a byte, or it is the last
    for _ in 0..buf.len() {
        let Ok(n @ 1..) = reader.read(&mut buf[done..]) else {
            break;
        };
        done += n;
    }
    done
}
