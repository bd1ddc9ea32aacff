// Requests to `atom_simplifier`.
mod local;
mod site;

use crate::output::Output;
use crate::text;
use crate::text::MOST_WORDS;

pub(crate) fn answer(name: &str, lists: &[u8], out: &mut Output<'_, impl Print>) -> Option<()> {
    let (numbers, words) = text::first_list(lists)?;
    let mut number_room = [0u32; 4];
    let mut word_room = [0u64; MOST_WORDS];
    let numbers = text::numbers_in(numbers, &mut number_room)?;
    let words = text::numbers_in(words, &mut word_room)?;
    match (name, numbers) {
        ("local", [width, size]) => local::answer(words, *width, *size, 1, out),
        ("local_times", [width, size, count]) => local::answer(words, *width, *size, *count, out),
        ("site", [width, size, bytes]) => site::answer(words, *width, *size, *bytes, 1, out),
        ("site_times", [width, size, bytes, count]) => {
            site::answer(words, *width, *size, *bytes, *count, out)
        }
        _ => None,
    }
}
