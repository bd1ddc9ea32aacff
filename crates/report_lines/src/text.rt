// Numbers as fields of a line.
ghost use Rattle.std.specs.Prelude.{◌≡◌, true, ◌*◌, ◌≤◌, ltb, length, if◌then◌else◌};
ghost use Rattle.expr.specs.Parts.{Laid};
ghost use Rattle.report_lines.specs.Report.{fields, closing, percentage_of};
ghost use Rattle.report_lines.specs.Steps.{sound_totals};
ghost use Rattle.report_lines.specs.Promises.{field};

use crate::Totals;

// A number and the byte that ends its field; how many bytes that is.
fn put_field(n: u64, end: u8, out: &mut [u8]) -> usize
    requires { 17 ≤ length out.old }
    ensures { Laid out.old out.new (field n end) × (result ≡ length (field n end)) }
{
    let k = hexadecimal::put_number(n, out);
    out[k] = end;
    k + 1
}

// A space, or a line end behind the last of so many fields.
fn field_end(done: usize, count: usize) -> u8
    ensures { result ≡ (if ltb done count then 32 else 10) }
{
    if done < count { b' ' } else { b'\n' }
}

// Numbers with one space between them and a line end behind the last; how many bytes that is.
pub(crate) fn put_fields(numbers: &[u64], out: &mut [u8]) -> usize
    requires { (17 * length numbers.now ≤ length out.old) × (length numbers.now ≤ 6) }
    ensures { Laid out.old out.new (fields numbers.now) × (result ≡ length (fields numbers.now)) × (result ≤ 102) }
{
    let mut at = 0;
    for (i, n) in numbers.iter().enumerate() {
        let end = field_end(i + 1, numbers.len());
        at += put_field(*n, end, &mut out[at..]);
    }
    at
}

// The percentage of nodes left, cut down to a whole number.
fn percentage(before: u64, after: u64) -> u64
    requires { (before ≤ 33553920) × (after ≤ 33553920) }
    ensures { result ≡ percentage_of before after }
{
    (100 * after).checked_div(before).unwrap_or(0)
}

// The closing line.
pub(crate) fn put_closing(totals: Totals, out: &mut [u8]) -> usize
    requires { (sound_totals totals ≡ true) × (53 ≤ length out.old) }
    ensures { Laid out.old out.new (closing totals) × (result ≡ length (closing totals)) }
{
    let percent = percentage(totals.before, totals.after);
    out[0] = b'=';
    out[1] = b' ';
    let numbers = [totals.lines, totals.refused, percent];
    2 + put_fields(&numbers, &mut out[2..])
}
