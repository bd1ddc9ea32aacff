// Bytes to standard output, through a buffer. What is written cannot be said in a contract; what waits to be written can.
ghost use Rattle.std.specs.Prelude.{◌≡◌, ◌≤◌, length, take};
ghost use Rattle.requests.specs.Promises.{waits_then};

use expr::refusal::{Reason, Refusal};
use std::fmt;

// The bytes that wait stand at the front of the buffer. That the number of its places stays is promised by each method: it is so of what is there before
// and after, which no ghost field says.
#[derive(Drop)]
pub(crate) struct Output<'a, P> {
    rt: &'a P,
    pub(crate) buffer: &'a mut [u8],
    pub(crate) waiting: usize,
    pub(crate) ghost fits: { waiting ≤ length buffer.now },
}

impl<'a, P: Print> Output<'a, P> {
    pub(crate) fn new(rt: &'a P, buffer: &'a mut [u8]) -> Self
        ensures waiting { result.waiting ≡ 0 }
        ensures places { length result.buffer.now ≡ length buffer.old }
    {
        Output {
            rt,
            buffer,
            waiting: 0,
        }
    }

    // Adds bytes to those that wait. Where there is no room for them, what waits is written first.
    pub(crate) fn put(&mut self, bytes: &[u8])
        ensures places { length self.new.buffer.now ≡ length self.old.buffer.now }
        ensures waiting { take self.new.waiting self.new.buffer.now
            ≡ waits_then (length self.old.buffer.now) (take self.old.waiting self.old.buffer.now) bytes.now }
    {
        if self.buffer.len() - self.waiting < bytes.len() {
            self.flush();
        }
        if self.buffer.len() < bytes.len() {
            write(self.rt, bytes);
            return;
        }
        let start = self.waiting;
        let end = start + bytes.len();
        self.buffer[start..end].copy_from_slice(bytes);
        self.waiting = end;
    }

    // A space, and a number. Not `write!`, which takes twice as long: lists are most of what is written.
    pub(crate) fn put_field(&mut self, n: u64)
        ensures { length self.new.buffer.now ≡ length self.old.buffer.now }
    {
        let mut field = [b' '; 17];
        let digits = hexadecimal::put_number(n, &mut field[1..]);
        self.put(&field[..1 + digits]);
    }

    // Writes the bytes that wait.
    pub(crate) fn flush(&mut self)
        ensures places { length self.new.buffer.now ≡ length self.old.buffer.now }
        ensures waiting { self.new.waiting ≡ 0 }
    {
        write(self.rt, &self.buffer[..self.waiting]);
        self.waiting = 0;
    }

    // What `write!` calls. It cannot fail. As far as contracts say, a `fmt` may leave any other `Output` in the place of the one that it is lent, so it is
    // lent one of its own over the same places, and `min` changes nothing. Nor does any contract say that a `fmt` succeeds, even that of a number, so what
    // waits afterwards is not said.
    pub(crate) fn write_fmt<D: fmt::Display + Drop>(&mut self, text: D)
        ensures { length self.new.buffer.now ≡ length self.old.buffer.now }
    {
        let mut lent = Output {
            rt: self.rt,
            buffer: &mut *self.buffer,
            waiting: self.waiting,
        };
        let _ = fmt::Write::write(&mut lent, text);
        self.waiting = lent.waiting.min(self.buffer.len());
    }
}

impl<P: Print> fmt::Write for Output<'_, P> {
    fn write_str(&mut self, s: &str) -> fmt::Result {
        self.put(s.as_bytes());
        Ok(())
    }
}

// All bytes to standard output. Where writing fails, what is left of them is passed over.
fn write(rt: &impl Print, bytes: &[u8]) {
    let _ = rt.write_all(bytes);
}

// A refusal as an answer has it: its number and two values.
#[derive(Clone, Copy)]
pub(crate) struct Refused(pub(crate) Refusal);

impl fmt::Display for Refused {
    fn fmt<W: fmt::Write>(&self, f: &mut fmt::Formatter<W>) -> fmt::Result {
        let reason = Reason::from(self.0);
        write!(
            f,
            "refused {:x} {:x} {:x}",
            reason.number, reason.first, reason.second
        )
    }
}
