// What the test programs run: it reads requests, makes the calls that they name, and writes what these give. `replay` alone is public.
#![tactic(auto)]

ghost use Rattle.std.specs.Prelude.{◌≡◌, ◌≤◌, ◌<◌, List, ℕ, length, get_or};
ghost use Rattle.std.specs.Io.KnownBytes.{Consumes};

mod candidates;
mod chain;
mod frames;
mod input;
mod lent;
mod output;
mod plain;
mod rewrites;
mod text;
mod times;

use crate::frames::{chunks, digits, words};
use crate::input::read_full;
use crate::output::Output;
use std::io::Read;

// Answers the requests of a reader, one a line (oracle/README.md has their grammar): writes the line, ` = ` and its answer. The line is written
// too so that a change to either stored list shows. A line that is no request gets `?`, which no stored answer is.
// Its promise is about what it takes from the reader: no more than it has room for. It hands nothing else back; what is written no contract can say.
pub fn replay<P: Print, R: Read>(rt: &P, reader: &mut R)
    ensures { (bytes : List ℕ) × (length bytes ≤ 2097152) × Consumes (R.remaining reader.old) (R.remaining reader.new) bytes }
{
    // fixed sizes, since no crate uses the heap: `input` has room for more than the longest stored list, which is read whole, `buffer` for many answers,
    // and each array of a request for the largest one
    let mut input = zeros::<u8, 2097152>();
    let n = read_full(reader, &mut input);
    if n == input.len() {
        let _ = rt.write_all(b"input too long\n");
        return;
    }
    let mut buffer = [0u8; 65536];
    let mut out = Output::new(rt, &mut buffer);
    for line in input[..n].split_inclusive(|b| *b == b'\n') {
        put_line(&mut out, line);
    }
    out.flush();
}

// A last line without its end gets a line `?` alone, so that a list that is cut short or has bytes added to it does not match.
fn put_line(out: &mut Output<'_, impl Print>, line: &[u8]) {
    let Some(request) = line.strip_suffix(b"\n") else {
        out.put(b"?\n");
        return;
    };
    out.put(request);
    out.put(b" = ");
    if put_answer(request, out).is_none() {
        out.put(b"?");
    }
    out.put(b"\n");
}

// Writes the answer to a request, by the call that it names. `None` where the line is no request; nothing is written then.
fn put_answer(line: &[u8], out: &mut Output<'_, impl Print>) -> Option<()> {
    let (name, lists) = text::name(line)?;
    match name {
        "local" | "local_times" | "site" | "site_times" => rewrites::answer(name, lists, out),
        "chain" | "chain_times" | "chain_loop_times" => chain::answer(name, lists, out),
        "candidate" | "candidate_times" => candidates::answer(name, lists, out),
        "check_tree_at" => words::check_tree_at(lists, out),
        "copy_words" => words::copy_words(lists, out),
        "number" => digits::number(lists, out),
        "put_digits" => digits::put_digits(lists, out),
        "put_number" => digits::put_number(lists, out),
        "read_nodes" => digits::read_nodes(lists, out),
        "put_nodes" => digits::put_nodes(lists, out),
        "end_of" => chunks::end_of(lists, out),
        "keep" => chunks::keep(lists, out),
        "nodes_in" => frames::nodes_in(lists, out),
        "read_frame" => frames::read_frame(lists, out),
        "write_frame" => frames::write_frame(lists, out),
        _ => plain::answer(name, lists, out),
    }
}

// Zeros for an array whose length is too large to be computed: lending it as a slice needs `places`.
pub(crate) fn zeros<T: Copy + From<u8>, const N: usize>() -> [T; N]
    ensures places { N ≡ length result }
    ensures zero { (zero : T) × T.from_gives 0 zero × ((i : ℕ) (past : T) → i < N → get_or result i past ≡ zero) }
{
    [T::from(0); N]
}
