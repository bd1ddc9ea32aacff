// What is printed, at the front of the output.
ghost use Rattle.std.specs.Prelude.{◌≡◌, true, ◌+◌, ◌-◌, ◌≤◌, length};
ghost use Rattle.report_lines.specs.Report.{outcome_of, closing};
ghost use Rattle.report_lines.specs.Steps.{is_open, sound_totals};
ghost use Rattle.report_lines.specs.Promises.{Prints, PrintsLast, Adds};

use crate::lent::{Ongoing, Scratch};
use crate::{MOST_LINES, TEXT_BYTES, Totals, text};

// The sums over the lines so far, and how many bytes are put into the output.
#[derive(Drop)]
pub(crate) struct Printer<'a> {
    pub(crate) totals: Totals,
    pub(crate) put: usize,
    pub(crate) out: &'a mut [u8],
    ghost sound: { sound_totals totals ≡ true },
    ghost inside: { put ≤ length out.now },
}

impl Printer<'_> {
    // Whether another line is printed and there is room for it.
    pub(crate) fn is_open(&self) -> bool
        ensures { result ≡ is_open self.now.totals.lines (length self.now.out.now - self.now.put) }
    {
        self.totals.lines < MOST_LINES && TEXT_BYTES <= self.out.len() - self.put
    }

    // Prints a line, its 0a not counted.
    pub(crate) fn put_line(&mut self, line: &[u8], scratch: &mut Scratch)
        requires { is_open self.old.totals.lines (length self.old.out.now - self.old.put) ≡ true }
        ensures prints { Prints (outcome_of line.now) self.old.totals self.old.put self.old.out.now self.new.totals self.new.put self.new.out.now }
        ensures same_out { self.new.out.ghost_name ≡ self.old.out.ghost_name }
    {
        let ongoing = Ongoing {
            totals: self.totals,
        };
        let l = ongoing.put_line(line, scratch, &mut self.out[self.put..]);
        self.put += l.put;
        self.totals = l.totals;
    }

    // Prints the last line, where these bytes of it are left at the end of the input.
    pub(crate) fn put_last(&mut self, line: &[u8], scratch: &mut Scratch)
        requires { self.old.put + 9400 ≤ length self.old.out.now }
        ensures prints { PrintsLast line.now self.old.totals self.old.put self.old.out.now self.new.totals self.new.put self.new.out.now }
        ensures same_out { self.new.out.ghost_name ≡ self.old.out.ghost_name }
    {
        if line.is_empty() || self.totals.lines == MOST_LINES {
            return;
        }
        self.put_line(line, scratch);
    }

    // Prints the closing line.
    pub(crate) fn put_closing(&mut self)
        requires { self.old.put + 53 ≤ length self.old.out.now }
        ensures adds { Adds (closing self.old.totals) self.old.put self.old.out.now self.new.put self.new.out.now }
        ensures same_out { self.new.out.ghost_name ≡ self.old.out.ghost_name }
    {
        self.put += text::put_closing(self.totals, &mut self.out[self.put..]);
    }
}
