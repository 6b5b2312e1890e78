// What the lines of the programs are made of: a text, a number in decimal behind a space, and the newline at the end; and whether
// bytes are those of a word. Each puts at a place in lent memory and gives the place behind, as `Put` states it, whether or not it has room.
#![tactic(auto)]

ghost use Rattle.std.specs.Prelude.{◌+◌, ◌≤◌, ◌<◌, ◌≡◌, length};
ghost use Rattle.text.specs.Text.{decimal, same, field_in, end_in, text_in, Put};

// A space, and the digits: no number has more than 20.
const LONGEST_FIELD: usize = 21;

// How many digits a number below 10,000 has.
#[tactic(auto, using(crate::proofs::Figures::short_widths))]
fn short_width(n: u64) -> usize
    requires { n < 10000 }
    ensures { result ≡ length (decimal n) }
{
    if n < 100 {
        if n < 10 {
            return 1;
        }
        return 2;
    }
    if n < 1000 {
        return 3;
    }
    4
}

// How many digits a number has; found by tests, since a loop of divisions would double the time of a line.
#[tactic(auto, using(crate::proofs::Figures::widths))]
fn width(n: u64) -> usize
    ensures { result ≡ length (decimal n) }
{
    if n < 10000 {
        return short_width(n);
    }
    if n < 100000000 {
        return 4 + short_width(n / 10000);
    }
    if n < 1000000000000 {
        return 8 + short_width(n / 100000000);
    }
    if n < 10000000000000000 {
        return 12 + short_width(n / 1000000000000);
    }
    16 + short_width(n / 10000000000000000)
}

// The digits from the last to the first; by hand, since `write!` makes a line three times as slow.
#[tactic(auto, using(crate::proofs::Writing::digits))]
fn put_digits(out: &mut [u8], at: usize, n: u64) -> usize
    requires { at + 20 ≤ length out.old }
    ensures { Put out.old at (decimal n) out.new result }
{
    let end = at + width(n);
    let mut rest = n;
    for i in (at + 1..end).rev() {
        out[i] = b'0' + (rest % 10) as u8;
        rest /= 10;
    }
    out[at] = b'0' + rest as u8;
    end
}

// A space and the digits at the place `at`, and the place behind them; nothing, and `at` itself, where there may be no room.
pub fn put_field(out: &mut [u8], at: usize, n: u64) -> usize
    ensures { Put out.old at (field_in out.old at n) out.new result }
{
    if out.len() < at {
        return at;
    }
    if out.len() - at < LONGEST_FIELD {
        return at;
    }
    out[at] = b' ';
    put_digits(out, at + 1, n)
}

// A newline at the place `at`, and the place behind it; nothing, and `at` itself, where there is no room.
pub fn put_end(out: &mut [u8], at: usize) -> usize
    ensures { Put out.old at (end_in out.old at) out.new result }
{
    if out.len() <= at {
        return at;
    }
    out[at] = b'\n';
    at + 1
}

// A text at the place `at`, and the place behind it; nothing, and `at` itself, where it has no room.
#[tactic(auto, using(crate::proofs::Writing::put_part))]
pub fn put_text(out: &mut [u8], at: usize, text: &[u8]) -> usize
    ensures { Put out.old at (text_in out.old at text.now) out.new result }
{
    if out.len() < at {
        return at;
    }
    if out.len() - at < text.len() {
        return at;
    }
    let end = at + text.len();
    out[at..end].copy_from_slice(text);
    end
}

// Whether the bytes are those of a word.
pub fn is_same(s: &[u8], word: &[u8]) -> bool
    ensures { result ≡ same s.now word.now }
{
    s == word
}
