// Requests to `atom_identity_rewrite`.
use crate::output::Output;
use crate::text::MOST_WORDS;
use crate::times::Call;
use crate::{lent, text, times};
use atom_identity_rewrite::Found;
use expr::refusal::Refusal;

pub(crate) fn answer(name: &str, lists: &[u8], out: &mut Output<'_, impl Print>) -> Option<()> {
    let (numbers, words) = text::first_list(lists)?;
    let mut number_room = [0u64; 4];
    let mut word_room = [0u64; MOST_WORDS];
    let mut room = [0u64; MOST_WORDS];
    let numbers = text::numbers_in(numbers, &mut number_room)?;
    let words = text::numbers_in(words, &mut word_room)?;
    let (width, number, size, count) = match (name, numbers) {
        ("candidate", [width, number, size]) => (*width, *number, *size, 1),
        ("candidate_times", [width, number, size, count]) => (*width, *number, *size, *count),
        _ => return None,
    };
    let candidate = Candidate {
        words,
        width: u32::try_from(width).ok()?,
        number: usize::try_from(number).ok()?,
        places: lent::lend(&mut room, u32::try_from(size).ok()?)?,
    };
    candidate.put(u32::try_from(count).ok()?, out);
    Some(())
}

// `places` have their marks.
#[derive(Drop)]
struct Candidate<'a, 'b> {
    words: &'a [u64],
    width: u32,
    number: usize,
    places: &'b mut [u64],
}

impl Call for Candidate<'_, '_> {
    type Answer = Result<Found, Refusal>;

    fn call(&mut self) -> Result<Found, Refusal> {
        atom_identity_rewrite::try_match_all(self.words, self.width, self.number, self.places)
    }
}

impl Candidate<'_, '_> {
    // What the last of so many calls gives and leaves.
    fn put(mut self, count: u32, out: &mut Output<'_, impl Print>) {
        let found = times::last_of(count, &mut self);
        let places = self.places;
        match found {
            Ok(Found::Candidate { tag, nodes }) => {
                write!(out, "{:x} {nodes:x}", u64::from(tag));
                out.put_written(lent::words_of(nodes, places), places);
            }
            Ok(Found::NoMore { count: passed }) => {
                write!(out, "none {passed:x}");
                out.put_untouched(places);
            }
            Err(r) => out.put_refused(r, places),
        }
    }
}
