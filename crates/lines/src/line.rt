// The line of a reply: `ok TIME RUN USABLE TIMER BROUGHT` or `no NUMBER DETAIL`, and a newline. It is put into the lent buffer: `writeln!`
// was timed, and costs three times as much a line.
ghost use Rattle.std.specs.Prelude.{◌+◌, ◌≤◌, ◌≡◌, ◌∷◌, length, Ok};
ghost use Rattle.text.specs.Text.{over, Put};
ghost use Rattle.turns.specs.Written.{number_in, moment_in};
ghost use Rattle.lines.specs.Text.{dashed, or_dash, refusal_text, refusal_in, line_of, line_in, longest};
ghost use Rattle.lines.specs.Text.{row_of, record_row};

use records::BadRecord;
use text::{put_end, put_field, put_text};
use turns::{Refusal, Report};
use units::{Moment, Tunnel};

// No line has more bytes: two letters, five numbers of at most 20 digits, each behind a space, and a newline.
pub const LONGEST_LINE: usize = 108;

// A refusal as its line tells it: of a call, of a record, or any other.
#[derive(Clone, Copy, Debug, PartialEq, Eq)]
pub struct Row {
    pub number: u8,
    pub detail: u64,
}

impl From<Refusal> for Row {
    ghost from_gives = { λ refusal row. row ≡ row_of refusal };

    fn from(refusal: Refusal) -> Row {
        Row {
            number: refusal.number(),
            detail: refusal.detail(),
        }
    }
}

impl From<BadRecord> for Row {
    ghost from_gives = { λ bad row. row ≡ record_row bad };

    fn from(bad: BadRecord) -> Row {
        Row {
            number: bad.number(),
            detail: bad.detail(),
        }
    }
}

// RUN and TIMER: a space and the number, or a space and `-` where there is none.
fn put_or_dash(out: &mut [u8], at: usize, number: Option<u64>) -> usize
    requires { at + 21 ≤ length out.old }
    ensures { Put out.old at (32 ∷ dashed number) out.new result × (result ≤ at + 21) }
{
    match number {
        Some(number) => put_field(out, at, number),
        None => put_text(out, at, b" -"),
    }
}

fn number(run: Option<Tunnel>) -> Option<u64>
    ensures { dashed result ≡ or_dash (number_in run) }
{
    run.map(|id| u64::from(id.number()))
}

fn ticks(timer: Option<Moment>) -> Option<u64>
    ensures { dashed result ≡ or_dash (moment_in timer) }
{
    timer.map(Moment::ticks)
}

// (That there is room from a place on is a clause, here and below: a fact of lent memory, as `Put` states it.)
fn put_report(out: &mut [u8], at: usize, report: Report) -> usize
    requires { at + longest ≤ length out.old }
    ensures { Put out.old at (line_of (Ok report)) out.new result × (result ≤ at + longest) }
{
    let at = put_text(out, at, b"ok");
    let at = put_field(out, at, report.time.ticks());
    let at = put_or_dash(out, at, number(report.run));
    let at = put_field(out, at, u64::from(report.usable.ticks()));
    let at = put_or_dash(out, at, ticks(report.timer));
    let at = put_field(out, at, u64::from(report.brought.ticks()));
    put_end(out, at)
}

pub(crate) fn put_refusal(out: &mut [u8], at: usize, number: u8, detail: u64) -> usize
    requires { at + longest ≤ length out.old }
    ensures { Put out.old at (refusal_text (record { number = number; detail = detail })) out.new result × (result ≤ at + longest) }
{
    let at = put_text(out, at, b"no");
    let at = put_field(out, at, u64::from(number));
    let at = put_field(out, at, detail);
    put_end(out, at)
}

pub(crate) fn put_line(out: &mut [u8], at: usize, reply: Result<Report, Refusal>) -> usize
    requires { at + longest ≤ length out.old }
    ensures { Put out.old at (line_of reply) out.new result × (result ≤ at + longest) }
{
    match reply {
        Ok(report) => put_report(out, at, report),
        Err(refusal) => put_refusal(out, at, refusal.number(), refusal.detail()),
    }
}

// The line of any refusal by its numbers alone: what `write_line` writes of such a row.
// 0 and no Option where there is no room: `refusal_in` is what it promises, as `line_in` of `write_line`.
pub fn write_refusal(number: u8, detail: u64, out: &mut [u8]) -> usize
    ensures { (result ≡ length (refusal_in number detail out.old)) × (out.new ≡ over (refusal_in number detail out.old) out.old) }
{
    if out.len() < LONGEST_LINE {
        return 0;
    }
    put_refusal(out, 0, number, detail)
}

// The reply's line at the start of `out`, and how many bytes it has; nothing where a longest line would have no room.
// A host that hands on replies of its own has refusals of other numbers too, so the refusal is a row: a call's is made one by
// `map_err(Row::from)`.
pub fn write_line(reply: Result<Report, Row>, out: &mut [u8]) -> usize
    ensures { (result ≡ length (line_in reply out.old)) × (out.new ≡ over (line_in reply out.old) out.old) }
{
    if out.len() < LONGEST_LINE {
        return 0;
    }
    match reply {
        Ok(report) => put_report(out, 0, report),
        Err(row) => put_refusal(out, 0, row.number, row.detail),
    }
}
