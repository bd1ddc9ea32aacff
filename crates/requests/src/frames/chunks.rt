// Requests to `lines`.
use crate::output::Output;
use crate::text::MOST_BYTES;
use crate::{lent, text, zeros};

// A chunk.
pub(crate) fn end_of(list: &[u8], out: &mut Output<'_, impl Print>) -> Option<()> {
    let mut room = zeros::<u8, MOST_BYTES>();
    let end = lines::end_of(text::numbers_in(list, &mut room)?);
    write!(out, "{end:x}");
    Some(())
}

// How much of a line is kept and how many places it has; what it begins with; a chunk. The line is a part of one with all marks, so that it has what
// fits.
pub(crate) fn keep(lists: &[u8], out: &mut Output<'_, impl Print>) -> Option<()> {
    let (numbers, lists) = text::first_list(lists)?;
    let (start, chunk) = text::first_list(lists)?;
    let mut number_room = [0u32; 2];
    let mut line_room = zeros::<u8, MOST_BYTES>();
    let mut chunk_room = zeros::<u8, MOST_BYTES>();
    let [kept, size] = text::numbers_in(numbers, &mut number_room)? else {
        return None;
    };
    lent::mark_places(&mut line_room);
    text::numbers_in(start, &mut line_room)?;
    let chunk = text::numbers_in(chunk, &mut chunk_room)?;
    let line = line_room.get_mut(..usize::try_from(*size).ok()?)?;
    let taken = lines::keep(chunk, line, usize::try_from(*kept).ok()?);
    write!(
        out,
        "{:x} {:x} {:x}",
        taken.used,
        u8::from(taken.ended),
        taken.have
    );
    out.put_list(line);
    Some(())
}
