// Lines of any length out of chunks of any size. The bytes of a line that goes on in the next chunk are kept in a lent buffer; of a longer line
// only as many as the buffer has places, so that a line without an end costs no memory.
#![tactic(auto)]

ghost use Rattle.std.specs.Prelude.{◌≡◌, min, length, take};
ghost use Rattle.expr.specs.Lent.{over};
ghost use Rattle.lines.specs.Lines.{up_to, has_end, used_of, kept};

// How many bytes of a chunk were read, how many of its line are kept, and whether the line has ended. No Option: both numbers count in either case.
#[derive(Clone, Copy)]
pub struct Taken {
    pub used: usize,
    pub have: usize,
    pub ended: bool,
}

// How many bytes stand before the first 0a; all of them where there is none.
#[tactic(auto, using(crate::proofs::KeepLaws::end_found))]
pub fn end_of(chunk: &[u8]) -> usize
    ensures { result ≡ length (up_to chunk.now) }
{
    memchr::memchr(b'\n', chunk).unwrap_or(chunk.len())
}

// Reads a chunk up to its first 0a: keeps the bytes before it in `line`, behind the `have` that are kept there. A `have` past the end of `line`
// stands for all of it. A count, here and in `Taken`, and no slice of what is kept: the caller lends `line` anew with each chunk.
pub fn keep(chunk: &[u8], line: &mut [u8], have: usize) -> Taken
    ensures used { result.used ≡ used_of chunk.now }
    ensures ended { result.ended ≡ has_end chunk.now }
    ensures have { result.have ≡ length (kept (length line.old) (take have line.old) chunk.now) }
    ensures written { line.new ≡ over (kept (length line.old) (take have line.old) chunk.now) line.old }
{
    let size = chunk.len();
    let end = end_of(chunk);
    let first = have.min(line.len());
    let room = line.len() - first;
    let count = end.min(room);
    line[first..first + count].copy_from_slice(&chunk[..count]);
    let ended = end < size;
    Taken {
        used: if ended { end + 1 } else { end },
        have: first + count,
        ended,
    }
}
