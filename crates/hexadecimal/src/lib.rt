// Lower-case hexadecimal digits: numbers, and the words of nodes. Nothing here refuses: each call says what it does where a list is short or
// a byte is no digit.
#![tactic(auto)]

ghost use Rattle.std.specs.Prelude.{◌≡◌, min, ◌+◌, ◌*◌, ◌/◌, ◌%◌, ◌^◌, ◌<◌, ◌≤◌, ◌&&◌, length, take, is_some, unwrap_or, nat_lt};
ghost use Rattle.expr.specs.Lent.{over};
ghost use Rattle.expr.specs.Parts.{Laid};
ghost use Rattle.hexadecimal.specs.Hex.{glyph_of, digit_of, digits, all_digits, number_of, places};
ghost use Rattle.hexadecimal.specs.Promises.{all_zeros};
ghost use Rattle.hexadecimal.specs.Nodes.{nodes_text, words_of};

// What bytes stand for, and whether each of them is a digit. Not an Option: the value is promised, and used, also where a byte is no digit.
#[derive(Clone, Copy)]
pub struct Parsed {
    pub value: u64,
    pub good: bool,
}

// The digit of a byte, if it is one.
fn digit(b: u8) -> Option<u64>
    ensures there { is_some result ≡ nat_lt (digit_of b) 16 }
    ensures value { unwrap_or result 0 ≡ digit_of b % 16 }
{
    // no match on the ranges: whether a digit is a letter cannot be foretold, and a report of constants with letters then takes half as long again
    let x = u64::from(b);
    let d = x % 16 + 9 * (x / 64);
    let low = (47 < x) & (x < 58);
    let high = (96 < x) & (x < 103);
    (low | high).then_some(d)
}

// The byte of a digit.
fn glyph(d: u64) -> u8
    requires { d < 16 }
    ensures { result ≡ glyph_of d }
{
    if d < 10 {
        (48 + d) as u8
    } else {
        (87 + d) as u8
    }
}

// The number that the bytes stand for, of which more than 64 bits are cut off.
pub fn number(s: &[u8]) -> Parsed
    ensures { result ≡ record { value = number_of s.now % 2 ^ 64; good = all_digits s.now } }
{
    let none = Parsed {
        value: 0,
        good: true,
    };
    s.iter().fold(
        none,
        |before, b|
            ensures { result ≡ record { value = before.value % 2 ^ 60 * 16 + digit_of b.now % 16; good = before.good && nat_lt (digit_of b.now) 16 } }
        {
            let d = digit(*b);
            Parsed {
                value: (before.value % 0x1000_0000_0000_0000) * 16 + d.unwrap_or(0),
                good: before.good & d.is_some(),
            }
        },
    )
}

// Puts the last k digits of n at the front of `out`, or as many of the last digits as it has places.
pub fn put_digits(n: u64, k: usize, out: &mut [u8])
    ensures { out.new ≡ over (digits (min k (length out.old)) n) out.old }
{
    let count = k.min(out.len());
    let mut rest = n;
    // tried: `out[..count].iter_mut().rev()`: of what the places end as the check knows nothing
    for i in (0..count).rev() {
        out[i] = glyph(rest % 16);
        rest /= 16;
    }
}

// How many digits n has without zeros in front.
#[tactic(auto, using(crate::proofs::NumberLaws::places_of_log))]
fn count_places(n: u64) -> usize
    ensures { result ≡ places n }
{
    1 + n.max(1).ilog2() as usize / 4
}

// Puts n without zeros in front at the front of `out`, or as many of its last digits as `out` has places; how many digits those are.
pub fn put_number(n: u64, out: &mut [u8]) -> usize
    ensures count { result ≡ min (places n) (length out.old) }
    ensures written { out.new ≡ over (digits result n) out.old }
{
    let count = count_places(n).min(out.len());
    put_digits(n, count, out);
    count
}

// Whether every byte is the digit 0. No `all`: it looks at each of them, so that the compiler does so in one step where their count is fixed.
fn is_zeros(s: &[u8]) -> bool
    ensures { result ≡ all_zeros s.now }
{
    s.iter().fold(true, |zeros, b| zeros & (*b == b'0'))
}

// As `number`. Most operands are small, so most halves are zeros: these are read without a look at each digit's value.
fn half(s: &[u8]) -> Parsed
    ensures { result ≡ record { value = number_of s.now % 2 ^ 64; good = all_digits s.now } }
{
    if is_zeros(s) {
        return Parsed {
            value: 0,
            good: true,
        };
    }
    number(s)
}

// As `number`, of 16 bytes.
fn operand(s: &[u8]) -> Parsed
    requires { length s.now ≡ 16 }
    ensures { result ≡ record { value = number_of s.now % 2 ^ 64; good = all_digits s.now } }
{
    let high = half(&s[0..8]);
    let low = half(&s[8..16]);
    Parsed {
        value: high.value * 0x1_0000_0000 + low.value,
        good: high.good & low.good,
    }
}

// Puts the words of the one node whose digits `s` begins with at the front of `out`; whether each byte of it is a digit.
fn read_node(s: &[u8], out: &mut [u64]) -> bool
    requires { (18 ≤ length s.now) × (2 ≤ length out.old) }
    ensures good { result ≡ all_digits (take 18 s.now) }
    ensures written { Laid out.old out.new (words_of 1 s.now) }
{
    let kind = number(&s[0..2]);
    let operand = operand(&s[2..18]);
    out[0] = kind.value;
    out[1] = operand.value;
    kind.good & operand.good
}

// Puts the words of the nodes whose digits `s` is at the front of `out`, as many whole nodes as `s` has and `out` has room for; whether each
// byte that was read is a digit. The words are written also where one is not. By places: the library says of `chunks_exact_mut` only what the
// chunks are at first, and not what the slice ends as; with `as_chunks` for `s` alone, `out` would need the count and the place all the same.
pub fn read_nodes(s: &[u8], out: &mut [u64]) -> bool
    ensures good { result ≡ all_digits (take (18 * min (length s.now / 18) (length out.old / 2)) s.now) }
    ensures written { out.new ≡ over (words_of (min (length s.now / 18) (length out.old / 2)) s.now) out.old }
{
    let count = (s.len() / 18).min(out.len() / 2);
    let mut good = true;
    for i in 0..count {
        let from = 18 * i;
        let to = 2 * i;
        let right = read_node(&s[from..], &mut out[to..]);
        good = good & right;
    }
    good
}

// Fills the 8 places of `out` with the last 8 digits of n. Most operands are small, so most halves are 0: these are written without working out
// each digit.
fn put_half(n: u64, out: &mut [u8])
    requires { length out.old ≡ 8 }
    ensures { out.new ≡ digits 8 n }
{
    if n == 0 {
        out.fill(b'0');
    } else {
        put_digits(n, 8, out);
    }
}

// Puts the digits of the one node that `words` begins with at the front of `out`.
fn put_node(words: &[u64], out: &mut [u8])
    requires { (2 ≤ length words.now) × (18 ≤ length out.old) }
    ensures { Laid out.old out.new (nodes_text 1 words.now) }
{
    put_digits(words[0], 2, out);
    put_half(words[1] / 0x1_0000_0000, &mut out[2..10]);
    put_half(words[1] % 0x1_0000_0000, &mut out[10..18]);
}

// Puts the digits of nodes at the front of `out`, as many whole nodes as there are words for and `out` has room for. Of a kind its last two digits
// are written. By places, as in `read_nodes`.
pub fn put_nodes(words: &[u64], out: &mut [u8])
    ensures { out.new ≡ over (nodes_text (min (length words.now / 2) (length out.old / 18)) words.now) out.old }
{
    let count = (words.len() / 2).min(out.len() / 18);
    for i in 0..count {
        let from = 2 * i;
        let to = 18 * i;
        put_node(&words[from..], &mut out[to..]);
    }
}
