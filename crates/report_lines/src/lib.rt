// Everything that the report prints, as functions on slices. The input comes in chunks of any size; between two of them a state holds the sums
// over the lines so far and how many bytes of the next line are kept.
#![tactic(auto)]

ghost use Rattle.std.specs.Prelude.{◌≡◌, true, false, ◌-◌, ◌≤◌, ◌<◌, length};
ghost use Rattle.report_lines.specs.Steps.{is_open, sound_totals, sound_room, ready, Feeds, Finishes};
ghost use Rattle.report_lines.specs.Promises.{state_of, Goes};

mod lent;
mod line;
mod printer;
mod text;

use lent::{Kept, Scratch};
use printer::Printer;

// Line 65,535 is the last that is read.
pub const MOST_LINES: u64 = 65535;

// The longest frame without its 0a, and one byte more, so that a longer line shows.
pub const LINE_BYTES: usize = 9219;

// Enough for what is printed of one line and the closing line.
pub const TEXT_BYTES: usize = 9400;

// The sums over lines, for the closing line: their number, how many were refused, and the nodes before and after over the others.
#[derive(Clone, Copy, Default)]
pub struct Totals {
    pub lines: u64,
    pub refused: u64,
    pub before: u64,
    pub after: u64,
}

// What is known between two chunks. `have` is a count and no slice: the kept bytes are lent by the caller, with each chunk anew.
#[derive(Clone, Copy, Default)]
pub struct State {
    pub totals: Totals,
    pub have: usize,
}

// How many bytes of the chunk were read, how many were put into the output, and the state then.
#[derive(Clone, Copy)]
pub struct Step {
    pub used: usize,
    pub put: usize,
    pub state: State,
}

// Whether the sums are within the bounds that every number of lines keeps.
fn sound_totals(t: Totals) -> bool
    ensures { result ≡ sound_totals t }
{
    t.lines <= MOST_LINES
        && t.refused <= t.lines
        && t.before <= 512 * t.lines
        && t.after <= 512 * t.lines
}

// Whether the places that are lent are large enough.
fn sound_room(line: usize, words: usize, work: usize, out: usize) -> bool
    ensures { result ≡ sound_room line words work out }
{
    line == LINE_BYTES && 1024 <= words && 4096 <= work && TEXT_BYTES <= out
}

// Whether a call goes on; else it does nothing. Five numbers in one test: it is made before there is a struct that holds the places.
fn is_ready(s: State, line: usize, words: usize, work: usize, out: usize) -> bool
    ensures { result ≡ ready s line words work out }
{
    sound_totals(s.totals) && s.have <= line && sound_room(line, words, work, out)
}

// Reads a chunk up to its first line end. A line that lies whole in the chunk is not copied. How many bytes were read.
fn turn(chunk: &[u8], kept: &mut Kept, printer: &mut Printer, scratch: &mut Scratch) -> usize
    requires { (is_open printer.old.totals.lines (length printer.old.out.now - printer.old.put) ≡ true) × (0 < length chunk.now) }
    ensures goes { Goes (state_of printer.old.totals kept.old.have) kept.old.line.now chunk.now printer.old.put printer.old.out.now result (state_of printer.new.totals kept.new.have) kept.new.line.now printer.new.put printer.new.out.now }
    ensures some { 1 ≤ result }
    ensures same_line { kept.new.line.ghost_name ≡ kept.old.line.ghost_name }
    ensures same_out { printer.new.out.ghost_name ≡ printer.old.out.ghost_name }
{
    if kept.have == 0 {
        let end = lines::end_of(chunk);
        if end < chunk.len() {
            printer.put_line(&chunk[..end], scratch);
            return end + 1;
        }
    }
    let t = lines::keep(chunk, kept.line, kept.have);
    kept.have = t.have;
    if t.ended {
        printer.put_line(&kept.line[..t.have], scratch);
        kept.have = 0;
    }
    t.used
}

// Reads a chunk as long as lines are printed and there is room for another one; how many bytes were read.
fn feed_lines(chunk: &[u8], kept: &mut Kept, printer: &mut Printer, scratch: &mut Scratch) -> usize
    ensures goes { Goes (state_of printer.old.totals kept.old.have) kept.old.line.now chunk.now printer.old.put printer.old.out.now result (state_of printer.new.totals kept.new.have) kept.new.line.now printer.new.put printer.new.out.now }
    ensures stops { result < length chunk.now → is_open printer.new.totals.lines (length printer.new.out.now - printer.new.put) ≡ false }
    ensures same_line { kept.new.line.ghost_name ≡ kept.old.line.ghost_name }
    ensures same_out { printer.new.out.ghost_name ≡ printer.old.out.ghost_name }
{
    let mut used = 0;
    // a `while`: each turn goes on by as many bytes as the one before has read
    while used < chunk.len() && printer.is_open() {
        used += turn(&chunk[used..], kept, printer, scratch);
    }
    used
}

// Reads a chunk: puts what is printed of its lines at the front of `out`, up to line 65,535, and as long as there is room for another line. What is
// left of the chunk is for the next call. `line` keeps the bytes of the line that goes on; what is behind them, and all of `words` and `work`, is free
// to be written. Of many parameters, as `finish` is: memory is fixed, so the caller lends each buffer, and none is part of another.
pub fn feed(
    s: State,
    chunk: &[u8],
    line: &mut [u8],
    words: &mut [u64],
    work: &mut [u64],
    out: &mut [u8],
) -> Step
    ensures { Feeds s chunk.now (record { line = line.old; words = words.old; work = work.old; out = out.old }) result (record { line = line.new; words = words.new; work = work.new; out = out.new }) }
{
    if !is_ready(s, line.len(), words.len(), work.len(), out.len()) {
        return Step {
            used: 0,
            put: 0,
            state: s,
        };
    }
    let mut kept = Kept { line, have: s.have };
    let mut printer = Printer {
        totals: s.totals,
        put: 0,
        out,
    };
    let used = feed_lines(chunk, &mut kept, &mut printer, &mut Scratch { words, work });
    Step {
        used,
        put: printer.put,
        state: State {
            totals: printer.totals,
            have: kept.have,
        },
    }
}

// At the end of the input: puts what is left of the report at the front of `out`, the closing line last; how many bytes that is.
pub fn finish(s: State, line: &[u8], words: &mut [u64], work: &mut [u64], out: &mut [u8]) -> usize
    ensures { Finishes s (record { line = line.now; words = words.old; work = work.old; out = out.old }) result (record { line = line.now; words = words.new; work = work.new; out = out.new }) }
{
    if !is_ready(s, line.len(), words.len(), work.len(), out.len()) {
        return 0;
    }
    let mut printer = Printer {
        totals: s.totals,
        put: 0,
        out,
    };
    printer.put_last(&line[..s.have], &mut Scratch { words, work });
    printer.put_closing();
    printer.put
}
