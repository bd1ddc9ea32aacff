// The report of standard input, on standard output. What is printed comes from `report_lines`. What is read and written cannot be said in a
// contract; that the state is the one after the bytes read so far can.
#![tactic(auto)]

ghost use Rattle.std.specs.Prelude.{◌+◌, ◌-◌, ◌≤◌, ◌≡◌, true, IfOk, OnOk, length, take};
ghost use Rattle.report_lines.specs.Steps.{ready};
ghost use Rattle.report.specs.Reading.{ReadsFront, ReadsChunk, ReadsSome};

use report_lines::{LINE_BYTES, MOST_LINES, State};
use std::io;
use std::io::Read;

// The state of a report, and the buffers that it is made in: for a line, for the words of its tree, for the chain's work, for 2,048 nodes, and for what
// is printed. The text of one read normally goes out in one write. Arrays, since the program has fixed memory and no heap.
#[derive(Drop)]
struct Report {
    state: State,
    line: [u8; LINE_BYTES],
    words: [u64; 1024],
    work: [u64; 4096],
    out: [u8; 131072],
    ghost out_length: { length out ≡ 131072 },
    ghost is_ready: { ready state (length line) (length words) (length work) (length out) ≡ true },
}

impl Report {
    fn new() -> Report {
        Report {
            state: State::default(),
            line: [0; LINE_BYTES],
            words: [0; 1024],
            work: [0; 4096],
            out: [0; 131072],
        }
    }

    // Reads from the front of a chunk and writes what is printed for it; how many bytes were read.
    fn feed_front(&mut self, rt: &impl Print, chunk: &[u8]) -> io::Result<usize>
        ensures { IfOk result (λ used. ReadsFront self.old.state self.old.line chunk.now used self.new.state self.new.line) }
    {
        let step = report_lines::feed(
            self.state,
            chunk,
            &mut self.line,
            &mut self.words,
            &mut self.work,
            &mut self.out,
        );
        self.state = step.state;
        rt.write_all(&self.out[..step.put])?;
        Ok(step.used)
    }

    // Reads a chunk to its end. It has no more bytes than lines are left, and each call has the whole output, so that each reads at least one byte.
    fn feed_chunk(&mut self, rt: &impl Print, chunk: &[u8]) -> io::Result<()>
        requires { self.old.state.totals.lines + length chunk.now ≤ 65535 }
        ensures { OnOk result (ReadsChunk self.old.state self.old.line chunk.now self.new.state self.new.line) }
    {
        let mut at = 0;
        // a `while`: each turn goes on by as many bytes as the one before has read
        while at < chunk.len() {
            at += self.feed_front(rt, &chunk[at..])?;
        }
        Ok(())
    }

    // Reads once, and feeds the bytes that it gave; how many they are.
    fn read_some(
        &mut self,
        rt: &impl Print,
        reader: &mut impl Read,
        input: &mut [u8],
    ) -> io::Result<usize>
        requires { length input.old ≡ 65536 }
        ensures { IfOk result (λ count. ReadsChunk self.old.state self.old.line (take count input.new) self.new.state self.new.line) }
    {
        let count = read_chunk(reader, self.state.totals.lines, input)?;
        self.feed_chunk(rt, &input[..count])?;
        Ok(count)
    }

    // Reads to the end of the input or to line 65,535. A proved loop has to end, and nothing says that the input does: the turns are counted up to a
    // number that no run reaches.
    fn read_all(&mut self, rt: &impl Print, reader: &mut impl Read) -> io::Result<()>
        ensures { OnOk result (ReadsSome self.old.state self.old.line self.new.state self.new.line) }
    {
        // fixed memory: as many bytes as a pipe holds
        let mut input = [0; 65536];
        for _ in 0..u64::MAX {
            if self.read_some(rt, reader, &mut input)? == 0 {
                return Ok(());
            }
        }
        Ok(())
    }

    // At the end of the input: writes what is left of the report.
    fn write_rest(&mut self, rt: &impl Print) -> io::Result<()> {
        let put = report_lines::finish(
            self.state,
            &self.line,
            &mut self.words,
            &mut self.work,
            &mut self.out,
        );
        rt.write_all(&self.out[..put])
    }
}

// Reads into the input buffer; 0 bytes at the end of the input and after line 65,535. It asks for as many bytes as lines are left up to that one: each
// of these has at least its 0a, so that no byte after the last 0a is taken.
fn read_chunk(reader: &mut impl Read, lines: u64, input: &mut [u8]) -> io::Result<usize>
    requires { length input.old ≡ 65536 }
    ensures { IfOk result (λ count. count ≤ 65535 - lines) }
{
    if lines >= MOST_LINES {
        return Ok(0);
    }
    let left = (MOST_LINES - lines) as usize;
    reader.read(&mut input[..left])
}

// After a failed read or write nothing more is read or written, and so no closing line: a report that was cut off does not look whole.
fn print_report(rt: &impl Print, reader: &mut impl Read) -> io::Result<()> {
    let mut report = Report::new();
    report.read_all(rt, reader)?;
    report.write_rest(rt)
}

fn main(rt: HostRuntime) {
    // nothing is left to do after a failed read or write: the missing closing line says it
    let _ = print_report(&rt, &mut rt.stdin());
}
