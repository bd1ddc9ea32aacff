// Requests to `atom_simplifier::chain`.
use crate::output::Output;
use crate::text::MOST_WORDS;
use crate::times::Call;
use crate::{lent, text, times, zeros};
use atom_simplifier::chain;
use atom_simplifier::chain::ChainEnd;
use expr::refusal::Refusal;

// More than the 26,104 words that the tree of 512 nodes with the largest D needs.
const MOST_WORK: usize = 26240;

pub(crate) fn answer(name: &str, lists: &[u8], out: &mut Output<'_, impl Print>) -> Option<()> {
    // first: made behind a `?`, the room would be set to zero twice
    let mut room = zeros::<u64, MOST_WORK>();
    let (numbers, lists) = text::first_list(lists)?;
    let (var_widths, words) = text::first_list(lists)?;
    let mut number_room = [0u32; 3];
    let mut width_room = [0u32; MOST_WORDS];
    let mut word_room = [0u64; MOST_WORDS];
    let numbers = text::numbers_in(numbers, &mut number_room)?;
    let var_widths = text::numbers_in(var_widths, &mut width_room)?;
    let words = text::numbers_in(words, &mut word_room)?;
    let (width, size, count) = match (name, numbers) {
        ("chain", [width, size]) => (*width, *size, 1),
        // the harness measures less in `chain_loop_times`; the call is the same
        ("chain_times" | "chain_loop_times", [width, size, count]) => (*width, *size, *count),
        _ => return None,
    };
    let chain = Chain {
        words,
        width,
        var_widths,
        work: lent::lend(&mut room, size)?,
    };
    chain.put(count, out);
    Some(())
}

// `work` has its marks.
#[derive(Drop)]
struct Chain<'a, 'b> {
    words: &'a [u64],
    width: u32,
    var_widths: &'a [u32],
    work: &'b mut [u64],
}

impl Call for Chain<'_, '_> {
    type Answer = Result<ChainEnd, Refusal>;

    fn call(&mut self) -> Result<ChainEnd, Refusal> {
        chain::chain(self.words, self.width, self.var_widths, self.work)
    }
}

impl Chain<'_, '_> {
    // What the last of so many calls gives and leaves.
    fn put(mut self, count: u32, out: &mut Output<'_, impl Print>) {
        let outcome = times::last_of(count, &mut self);
        let work = self.work;
        match outcome {
            Ok(end) => put_end(end, work, out),
            Err(r) => out.put_refused(r, work),
        }
    }
}

// The end tree, and whether the words behind it are 0.
fn put_end(end: ChainEnd, work: &[u64], out: &mut Output<'_, impl Print>) {
    let taken = lent::words_of(end.nodes, work);
    write!(out, "{:x} {:x}", end.nodes, end.rewrites);
    out.put_list(&work[..taken]);
    out.put(b" /");
    out.put_zero(work, taken);
}
