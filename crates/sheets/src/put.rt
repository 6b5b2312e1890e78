// One line of a sheet, put at a place.
ghost use Rattle.std.specs.Prelude.{◌+◌, ◌≤◌, length};
ghost use Rattle.text.specs.Text.{decimal, text_in, Put};
ghost use Rattle.sheets.specs.Sheet.{line_of};

// A field of `text`: a space and at most 20 digits.
const FIELD: usize = 21;

// The digits of n, where they have room.
// By `text`, whose `Put` says what stands where, as the definitions of a sheet do.
fn put_number(out: &mut [u8], at: usize, n: u32) -> usize
    ensures { Put out.old at (text_in out.old at (decimal n)) out.new result }
{
    let mut field = [0; FIELD];
    let end = text::put_field(&mut field, 0, u64::from(n));
    text::put_text(out, at, &field[1..end])
}

pub(crate) fn put_line(out: &mut [u8], at: usize, period: u32, cost: u32) -> usize
    requires { (at + 10 ≤ length out.old) × (period ≤ 9999) × (cost ≤ 9999) }
    ensures { Put out.old at (line_of period cost) out.new result }
{
    let space = put_number(out, at, period);
    out[space] = b' ';
    let end = put_number(out, space + 1, cost);
    text::put_end(out, end)
}
