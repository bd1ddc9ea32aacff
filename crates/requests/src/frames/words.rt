// Requests to the calls of `expr` and `width` that frames share with candidates.
use crate::output::{Output, Refused};
use crate::text::MOST_WORDS;
use crate::{lent, text};

// A width, and the words of a tree.
pub(crate) fn check_tree_at(lists: &[u8], out: &mut Output<'_, impl Print>) -> Option<()> {
    let (width, words) = text::first_list(lists)?;
    let mut room = [0u64; MOST_WORDS];
    let words = text::numbers_in(words, &mut room)?;
    match width::check_tree_at(words, text::number_in(width)?) {
        Ok(nodes) => write!(out, "{nodes:x}"),
        Err(r) => write!(out, "{}", Refused(r)),
    }
    Some(())
}

// So many words, and those that are copied to them.
pub(crate) fn copy_words(lists: &[u8], out: &mut Output<'_, impl Print>) -> Option<()> {
    let (size, words) = text::first_list(lists)?;
    let mut from = [0u64; MOST_WORDS];
    let mut to = [0u64; MOST_WORDS];
    let words = text::numbers_in(words, &mut from)?;
    let places = lent::lend(&mut to, text::number_in(size)?)?;
    expr::copy_words(words, places);
    out.put(b"at");
    out.put_written(words.len(), places);
    Some(())
}
