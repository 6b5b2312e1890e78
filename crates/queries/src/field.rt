// The pieces of a line: where the first ends, and the number that a field says.
ghost use Rattle.std.specs.Prelude.{◌≡◌, true, ◌≤◌};
ghost use Rattle.queries.specs.Meaning.{until, behind, is_digit};
ghost use Rattle.queries.specs.Private.{fields_in, with_digit, number_read};

pub(crate) const SPACE: u8 = b' ';

// The first piece, and what stands behind the space that ends it.
pub(crate) fn cut(line: &[u8]) -> (&[u8], Option<&[u8]>)
    ensures first { result.0.now ≡ until 32 line.now }
    ensures rest { behind 32 line.now ≡ fields_in result.1 }
{
    match line.iter().position(|&b| b == SPACE) {
        Some(at) => (&line[..at], Some(&line[at + 1..])),
        None => (line, None),
    }
}

// Above every limit, so that a number above it may be taken for it.
const MOST: u32 = 9999;

fn with_digit(n: u32, byte: u8) -> u32
    requires { (is_digit byte ≡ true) × (n ≤ 9999) }
    ensures { result ≡ with_digit n byte }
{
    (n * 10 + u32::from(byte - b'0')).min(MOST)
}

// The number of a field, held to the largest; none where it is no string of digits.
pub(crate) fn number_of(field: &[u8]) -> Option<u32>
    ensures { result ≡ number_read field.now }
{
    if field.is_empty() {
        return None;
    }
    let mut n = 0;
    for &byte in field {
        if !byte.is_ascii_digit() {
            return None;
        }
        n = with_digit(n, byte);
    }
    Some(n)
}
