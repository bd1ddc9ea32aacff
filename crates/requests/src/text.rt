// The fields of a line, and the numbers that they stand for.
ghost use Rattle.std.specs.Prelude.{◌≡◌, ◌≤◌, ◌<◌, ◌++◌, ◌∷◌, length, slice_index, IfSome};

// More than the 1,024 words that a tree may have, so that a request can have too many of them.
pub(crate) const MOST_WORDS: usize = 1100;

// More than the 9,219 bytes of the longest frame.
pub(crate) const MOST_BYTES: usize = 9472;

// The first place where `byte` stands. A function, so that the contract is proved once: `position` promises the runs of its closure, and
// `first_list` needs what they say of this place.
fn find(text: &[u8], byte: u8) -> Option<usize>
    ensures { IfSome result (λ i. (i < length text.now) × (slice_index text.now i ≡ byte)) }
{
    text.iter().position(|b| *b == byte)
}

// What stands before the first space, and the text from it on.
fn to_space(text: &[u8]) -> (&[u8], &[u8])
    ensures { text.now ≡ result.0.now ++ result.1.now }
{
    text.split_at(find(text, b' ').unwrap_or(text.len()))
}

// The name of a request, and the text of its lists. A `str`: a `match` compares one as a whole, where one of bytes has a case for each byte, and the
// check of a program's cases would take half as long again as all the rest of it.
pub(crate) fn name(line: &[u8]) -> Option<(&str, &[u8])>
    ensures { IfSome result (λ p. line.now ≡ p.0.now ++ p.1.now) }
{
    let (name, lists) = to_space(line);
    Some((str::from_utf8(name).ok()?, lists))
}

// The first list of a text, and the text of the lists behind it; `None` where there is one list alone. A list ends where ` /` stands.
// A `/` without the space is left in it, where it is no number.
pub(crate) fn first_list(lists: &[u8]) -> Option<(&[u8], &[u8])>
    ensures { IfSome result (λ p. lists.now ≡ p.0.now ++ 32 ∷ 47 ∷ p.1.now) }
{
    let slash = find(lists, b'/')?;
    let first = lists[..slash].strip_suffix(b" ")?;
    Some((first, &lists[slash + 1..]))
}

// `char::to_digit` and `from_str_radix` take capital letters too, which are no part of a request. `hexadecimal` has such functions, but it is among
// what the requests test, and a test does not read its list by what it tests.
fn digit(byte: u8) -> Option<u64> {
    match byte {
        b'0'..=b'9' => Some(u64::from(byte - b'0')),
        b'a'..=b'f' => Some(u64::from(byte - b'a' + 10)),
        _ => None,
    }
}

// At most 16 digits, so that none is shifted out.
fn number(digits: &[u8]) -> Option<u64> {
    if digits.is_empty() || 16 < digits.len() {
        return None;
    }
    digits
        .iter()
        .try_fold(0, |n: u64, byte| Some((n << 4) | digit(*byte)?))
}

// The number that a list begins with, and the text behind it. A space stands before each number.
fn first_number(list: &[u8]) -> Option<(u64, &[u8])>
    ensures { IfSome result (λ p. length p.1.now < length list.now) }
{
    let fields = list.strip_prefix(b" ")?;
    let (digits, others) = to_space(fields);
    Some((number(digits)?, others))
}

// The numbers of a list, at the front of `values`; `None` where one is no such number, or they do not fit.
pub(crate) fn numbers_in<'a, T: TryFrom<u64> + Copy>(
    list: &[u8],
    values: &'a mut [T],
) -> Option<&'a [T]>
where
    T::Error: Drop,
    ensures { IfSome result (λ ns. length ns.now ≤ length values.entry.now) }
{
    // by hand: the check makes no proof of a `for` over `split` with an invariant in a generic function
    let mut rest = list;
    let mut count = 0;
    while !rest.is_empty() {
        let (value, others) = first_number(rest)?;
        if values.len() <= count {
            return None;
        }
        values[count] = T::try_from(value).ok()?;
        count += 1;
        rest = others;
    }
    Some(&values[..count])
}

// The only number of a list.
pub(crate) fn number_in<T: TryFrom<u64>>(list: &[u8]) -> Option<T>
where
    T::Error: Drop,
{
    let (value, others) = first_number(list)?;
    if !others.is_empty() {
        return None;
    }
    T::try_from(value).ok()
}
