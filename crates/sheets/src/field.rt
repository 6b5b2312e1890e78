// A field of a line: decimal digits, and the number that they say.
ghost use Rattle.std.specs.Prelude.{◌≡◌, ◌≤◌, true, length};
ghost use Rattle.text.specs.Text.{number};
ghost use Rattle.sheets.specs.Sheet.{digits, is_number};
ghost use Rattle.sheets.specs.Private.{number_read, number_seen};

// "one to four decimal digits"
const MOST_DIGITS: usize = 4;

// How many digits the bytes begin with.
fn digit_count(s: &[u8]) -> usize
    ensures { result ≡ length (digits s.now) }
{
    s.iter().take_while(|b| b.is_ascii_digit()).count()
}

// "without leading zeros (0 alone stands)"
#[tactic(auto, unfolding(crate::specs::Sheet::is_number))]
fn is_number(digits: &[u8]) -> bool
    ensures { result ≡ is_number digits.now }
{
    match digits {
        [] => false,
        [_] => true,
        [first, ..] => *first != b'0' && digits.len() <= MOST_DIGITS,
    }
}

fn value(s: &[u8]) -> u32
    requires { (digits s.now ≡ s.now) × (number s.now ≤ 9999) }
    ensures { result ≡ number s.now }
{
    let mut n = 0;
    for digit in s {
        n = n * 10 + u32::from(digit - b'0');
    }
    n
}

// The number that the bytes begin with, and what stands behind it.
#[tactic(auto, using(crate::proofs::Scan::cuts), unfolding(crate::specs::Private::number_read))]
pub(crate) fn number(s: &[u8]) -> Option<(u32, &[u8])>
    ensures { number_seen result ≡ number_read s.now }
{
    let (digits, rest) = s.split_at(digit_count(s));
    if !is_number(digits) {
        return None;
    }
    Some((value(digits), rest))
}
