// Requests to `hexadecimal`.
use crate::output::Output;
use crate::text::{MOST_BYTES, MOST_WORDS};
use crate::{lent, text, zeros};

// The digits.
pub(crate) fn number(list: &[u8], out: &mut Output<'_, impl Print>) -> Option<()> {
    let mut room = zeros::<u8, MOST_BYTES>();
    let parsed = hexadecimal::number(text::numbers_in(list, &mut room)?);
    write!(out, "{:x} {:x}", parsed.value, u8::from(parsed.good));
    Some(())
}

// A number, how many of its last digits, and so many bytes.
pub(crate) fn put_digits(list: &[u8], out: &mut Output<'_, impl Print>) -> Option<()> {
    let mut number_room = [0u64; 3];
    let mut room = zeros::<u8, MOST_BYTES>();
    let [n, count, size] = text::numbers_in(list, &mut number_room)? else {
        return None;
    };
    // the number of digits has 32 bits in a request
    let count = usize::try_from(u32::try_from(*count).ok()?).ok()?;
    let places = lent::lend(&mut room, u32::try_from(*size).ok()?)?;
    hexadecimal::put_digits(*n, count, places);
    out.put(b"at");
    out.put_written(count, places);
    Some(())
}

// A number, and so many bytes for all its digits.
pub(crate) fn put_number(list: &[u8], out: &mut Output<'_, impl Print>) -> Option<()> {
    let mut number_room = [0u64; 2];
    let mut room = zeros::<u8, MOST_BYTES>();
    let [n, size] = text::numbers_in(list, &mut number_room)? else {
        return None;
    };
    let places = lent::lend(&mut room, u32::try_from(*size).ok()?)?;
    let count = hexadecimal::put_number(*n, places);
    write!(out, "{count:x}");
    out.put_written(count, places);
    Some(())
}

// So many words, and the digits of nodes.
pub(crate) fn read_nodes(lists: &[u8], out: &mut Output<'_, impl Print>) -> Option<()> {
    let (size, digits) = text::first_list(lists)?;
    let mut from = zeros::<u8, MOST_BYTES>();
    let mut to = [0u64; MOST_WORDS];
    let digits = text::numbers_in(digits, &mut from)?;
    let places = lent::lend(&mut to, text::number_in(size)?)?;
    let good = hexadecimal::read_nodes(digits, places);
    let nodes = (digits.len() / 18).min(places.len() / 2);
    write!(out, "{:x}", u8::from(good));
    out.put_written(2 * nodes, places);
    Some(())
}

// So many bytes, and the words of nodes.
pub(crate) fn put_nodes(lists: &[u8], out: &mut Output<'_, impl Print>) -> Option<()> {
    let (size, words) = text::first_list(lists)?;
    let mut from = [0u64; MOST_WORDS];
    let mut to = zeros::<u8, MOST_BYTES>();
    let words = text::numbers_in(words, &mut from)?;
    let places = lent::lend(&mut to, text::number_in(size)?)?;
    hexadecimal::put_nodes(words, places);
    let nodes = (words.len() / 2).min(places.len() / 18);
    out.put(b"at");
    out.put_written(18 * nodes, places);
    Some(())
}
