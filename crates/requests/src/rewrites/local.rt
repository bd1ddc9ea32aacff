// Requests for a local rewrite.
use crate::output::Output;
use crate::text::MOST_WORDS;
use crate::times::Call;
use crate::{lent, times};
use expr::refusal::Refusal;

// So many calls that are lent so many words. The numbers of a request: no struct, since they are used here alone.
pub(crate) fn answer(
    words: &[u64],
    width: u32,
    size: u32,
    count: u32,
    out: &mut Output<'_, impl Print>,
) -> Option<()> {
    let mut room = [0u64; MOST_WORDS];
    let local = Local {
        words,
        width,
        places: lent::lend(&mut room, size)?,
    };
    local.put(count, out);
    Some(())
}

// `places` have their marks.
#[derive(Drop)]
struct Local<'a, 'b> {
    words: &'a [u64],
    width: u32,
    places: &'b mut [u64],
}

impl Call for Local<'_, '_> {
    type Answer = Result<Option<usize>, Refusal>;

    fn call(&mut self) -> Result<Option<usize>, Refusal> {
        atom_simplifier::local_certifiable_atom_rewrite(self.words, self.width, self.places)
    }
}

impl Local<'_, '_> {
    // What the last of so many calls gives and leaves.
    fn put(mut self, count: u32, out: &mut Output<'_, impl Print>) {
        let rewritten = times::last_of(count, &mut self);
        let places = self.places;
        match rewritten {
            Ok(Some(nodes)) => {
                write!(out, "{nodes:x}");
                out.put_written(lent::words_of(nodes, places), places);
            }
            Ok(None) => {
                out.put(b"none");
                out.put_untouched(places);
            }
            Err(r) => out.put_refused(r, places),
        }
    }
}
