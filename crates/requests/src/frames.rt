// Requests to `frame`, and to what its calls stand on.
pub(crate) mod chunks;
pub(crate) mod digits;
pub(crate) mod words;

use crate::output::Output;
use crate::text::{MOST_BYTES, MOST_WORDS};
use crate::{lent, text, zeros};
use frame::Frame;

// A number of bytes.
pub(crate) fn nodes_in(list: &[u8], out: &mut Output<'_, impl Print>) -> Option<()> {
    let nodes = frame::nodes_in(text::number_in(list)?).unwrap_or(0);
    write!(out, "{nodes:x}");
    Some(())
}

// So many words, and a line.
pub(crate) fn read_frame(lists: &[u8], out: &mut Output<'_, impl Print>) -> Option<()> {
    let (size, line) = text::first_list(lists)?;
    let mut from = zeros::<u8, MOST_BYTES>();
    let mut to = [0u64; MOST_WORDS];
    let line = text::numbers_in(line, &mut from)?;
    let places = lent::lend(&mut to, text::number_in(size)?)?;
    match frame::read_frame(line, places) {
        Ok(Frame { width, nodes }) => {
            write!(out, "{width:x} {nodes:x}");
            out.put_written(lent::words_of(nodes, places), places);
        }
        Err(r) => out.put_refused(r, places),
    }
    Some(())
}

// A width and so many bytes, and the words of a tree.
pub(crate) fn write_frame(lists: &[u8], out: &mut Output<'_, impl Print>) -> Option<()> {
    let (numbers, words) = text::first_list(lists)?;
    let mut number_room = [0u32; 2];
    let mut from = [0u64; MOST_WORDS];
    let mut to = zeros::<u8, MOST_BYTES>();
    let [width, size] = text::numbers_in(numbers, &mut number_room)? else {
        return None;
    };
    let words = text::numbers_in(words, &mut from)?;
    let places = lent::lend(&mut to, *size)?;
    match frame::write_frame(words, *width, places) {
        Ok(bytes) => {
            write!(out, "{bytes:x}");
            out.put_written(bytes, places);
        }
        Err(r) => out.put_refused(r, places),
    }
    Some(())
}
