// The places that a call is lent: they hold marks before the call, so that one which it writes without need shows.
ghost use Rattle.std.specs.Prelude.{◌≡◌, ◌*◌, min, length, ℕ, IfSome};
ghost use Rattle.requests.specs.Promises.{word_mark, byte_mark, Marked};

use crate::output::{Output, Refused};
use expr::refusal::Refusal;

// What a lent place holds.
pub(crate) trait Place: Copy + PartialEq + Into<u64> {
    ghost mark_at: { ℕ → Self };

    // The mark of a place.
    fn mark(place: usize) -> Self
        ensures { result ≡ mark_at place };
}

impl Place for u64 {
    ghost mark_at = { word_mark };

    // No stored tree has such a word; they differ from place to place.
    fn mark(place: usize) -> u64 {
        place as u64 | 0xa5c3_0000_0000_0000
    }
}

impl Place for u8 {
    ghost mark_at = { byte_mark };

    // Neither a digit nor a byte of a path; they differ from place to place.
    fn mark(place: usize) -> u8 {
        255 - (place % 128) as u8
    }
}

// Puts its mark into each place.
pub(crate) fn mark_places<T: Place>(places: &mut [T])
    ensures { Marked T.mark_at places.new (length places.old) }
{
    for (i, place) in places.iter_mut().enumerate() {
        *place = T::mark(i);
    }
}

// So many places of a room, with their marks; `None` where it has not so many.
pub(crate) fn lend<T: Place>(room: &mut [T], size: u32) -> Option<&mut [T]>
    ensures { IfSome result (λ places. (length places.now ≡ size) × Marked T.mark_at places.now size) }
{
    let places = room.get_mut(..usize::try_from(size).ok()?)?;
    mark_places(places);
    Some(places)
}

// The first place from `from` on that is `other` than it should be.
fn first_other<T, F: Fn(usize, &T) -> bool>(places: &[T], from: usize, other: F) -> Option<usize>
    requires { F.IsAlwaysCallable other }
{
    (from..places.len()).find(|i| other(*i, &places[*i]))
}

// The number of words of so many nodes, as far as they are lent.
pub(crate) fn words_of(nodes: usize, words: &[u64]) -> usize
    ensures { result ≡ min (2 * nodes) (length words.now) }
{
    nodes.saturating_mul(2).min(words.len())
}

impl<P: Print> Output<'_, P> {
    // ` /` and the values.
    pub(crate) fn put_list<T: Copy + Into<u64>>(&mut self, values: &[T])
        ensures { length self.new.buffer.now ≡ length self.old.buffer.now }
    {
        self.put(b" /");
        for value in values {
            self.put_field((*value).into());
        }
    }

    // A place that has not what it should have, else what is said where there is none.
    pub(crate) fn put_place(&mut self, place: Option<usize>, good: &str)
        ensures { length self.new.buffer.now ≡ length self.old.buffer.now }
    {
        match place {
            Some(place) => write!(self, " {place:x}"),
            None => write!(self, " {good}"),
        }
    }

    // Whether the places from `from` on hold their marks.
    pub(crate) fn put_kept<T: Place>(&mut self, places: &[T], from: usize)
        ensures { length self.new.buffer.now ≡ length self.old.buffer.now }
    {
        let changed = first_other(places, from, |i, place| *place != T::mark(i));
        self.put_place(changed, "kept");
    }

    // Whether the words from `from` on are 0.
    pub(crate) fn put_zero(&mut self, words: &[u64], from: usize)
        ensures { length self.new.buffer.now ≡ length self.old.buffer.now }
    {
        let nonzero = first_other(words, from, |_, word| *word != 0);
        self.put_place(nonzero, "zero");
    }

    // So many values, and whether the places behind them hold their marks.
    pub(crate) fn put_written<T: Place>(&mut self, count: usize, places: &[T])
        ensures { length self.new.buffer.now ≡ length self.old.buffer.now }
    {
        let taken = count.min(places.len());
        self.put_list(&places[..taken]);
        self.put(b" /");
        self.put_kept(places, taken);
    }

    // Whether all places hold their marks.
    pub(crate) fn put_untouched<T: Place>(&mut self, places: &[T])
        ensures { length self.new.buffer.now ≡ length self.old.buffer.now }
    {
        self.put(b" /");
        self.put_kept(places, 0);
    }

    // A refusal, and whether all places hold their marks.
    pub(crate) fn put_refused<T: Place>(&mut self, refusal: Refusal, places: &[T])
        ensures { length self.new.buffer.now ≡ length self.old.buffer.now }
    {
        write!(self, "{}", Refused(refusal));
        self.put_untouched(places);
    }
}
