// For the people who sell: a question and the old tool's sheet from standard input, and to standard output what the sizing
// half answers for the sheet's tasks, in both forms. One run, one sheet.
#![tactic(auto)]

ghost use Rattle.std.specs.Prelude.{suc, ◌+◌, ◌≤◌, ◌<◌, ◌≡◌, cond, [], ◌∷◌, ◌++◌, eqb, length, drop, None};
ghost use Rattle.reads.specs.Machine.{HasServed};
ghost use Rattle.text.specs.Text.{Put};
ghost use Rattle.model.specs.Reply.{refuses};
ghost use Rattle.queries.specs.Text.{longest, said, bad_word, bad_field, Written, line_of};
ghost use Rattle.queries.specs.Meaning.{until, line_means};
ghost use Rattle.sheets.specs.Paper.{text_of, paper_read, line_detail};
ghost use Rattle.sales.specs.Sales.{aligned, task_fields, named, both_forms, wanted as wantedOf, wants_of, given as givenIn, unasked, to_sizing, to_sheet, answered as answer_of, answer_to};
ghost use Rattle.sales.specs.Program.{end_of, run_of, unasked_yet};
ghost use Rattle.sales.specs.Laws.{runs_nil, runs_more, runs_few};

use queries::LONGEST_ANSWER;
use reads::{End, Machine, Served, Stand};
use sheets::{BadLine, NoRoom, Sheet};
use std::io::{Read, Write};
use text::{is_same, put_end, put_field, put_text};

// No input has more bytes; a longer one is answered that it is bad.
const LONGEST_INPUT: usize = 65535;

// Room for "aligned ", a question and the fields of 16 tasks, of two numbers behind a space each: 65,535 + 8 + 16 · 42.
const LINE_ROOM: usize = 66560;

// Room for the longest answer to an input, with some to spare.
const LONGEST_ANSWERS: usize = 1024;

// Where the question begins, behind "aligned ".
const QUESTION: usize = 8;

// How many bytes of an answer were handed on to be written.
#[derive(Clone, Copy, Debug, PartialEq, Eq)]
struct Sale {
    served: usize,
}

// The place of the first such byte; the end where there is none. One call of the library, as `line_end` of sizing: a function for both
// would be a public promise more.
fn until(bytes: &[u8], byte: u8) -> usize
    ensures { result ≡ length (until byte bytes.now) }
{
    bytes.iter().position(|&b| b == byte).unwrap_or(bytes.len())
}

// Where the sheet begins, behind the newline; the end where there is none.
// A place and no Option of a slice: a sheet of no bytes is a sheet.
fn sheet_from(input: &[u8], end: usize) -> usize
    requires { end ≤ length input.now }
    ensures { (result ≤ length input.now) × (drop result input.now ≡ drop (suc end) input.now) }
{
    if end == input.len() {
        return end;
    }
    end + 1
}

// The tasks' periods and costs, each behind a space.
// By `text`, here and below, whose `Put` says what stands where; words are compared by its `is_same`, of which the definitions speak.
fn put_tasks(sheet: &Sheet, line: &mut [u8], at: usize) -> usize
    requires { at + 672 ≤ length line.old }
    ensures { Put line.old at (task_fields sheet.now.periods sheet.now.costs) line.new result × (result ≤ at + 672) }
{
    let mut next = at;
    // By places: a sheet gives a period and a cost by the task's place, and lends no slice.
    for k in 0..sheet.count() {
        next = put_field(line, next, u64::from(sheet.period(k)));
        next = put_field(line, next, u64::from(sheet.cost(k)));
    }
    next
}

// "aligned ", and behind it the line that asks the question of the sheet's tasks.
fn put_line(question: &[u8], sheet: &Sheet, line: &mut [u8]) -> usize
    requires { (length question.now ≤ 65535) × (66560 ≤ length line.old) }
    ensures { Put line.old 0 (aligned ++ (question.now ++ task_fields sheet.now.periods sheet.now.costs)) line.new result × (result ≤ 66560) }
{
    let from = put_text(line, 0, b"aligned ");
    let behind = put_text(line, from, question);
    put_tasks(sheet, line, behind)
}

// The answer to a line behind the name of its form; where there is no answer, nothing. It is made first, since only then it
// is known whether there is one.
fn put_named(name: &[u8], line: &[u8], out: &mut [u8], at: usize) -> usize
    requires { at + length name.now + longest ≤ length out.old }
    ensures { Put out.old at (named name.now (line_means line.now)) out.new result
        × (result ≤ at + length name.now + longest) }
{
    // Room for the longest, and how much of it is put: no heap.
    let mut answer = [0u8; LONGEST_ANSWER];
    let size = queries::answer(line, &mut answer);
    if size == 0 {
        return at;
    }
    let from = put_text(out, at, name);
    put_text(out, from, &answer[..size])
}

// What the line is answered in the ordinary form and in the aligned one.
// (How much room there is, and that the question is no longer than an input, are clauses, here and below: the room is a slice
// that `reads` lends, so no type has its length.)
fn both_forms(question: &[u8], sheet: &Sheet, out: &mut [u8]) -> usize
    requires { (length question.now ≤ 65535) × (1024 ≤ length out.old) }
    ensures { Written (both_forms (question.now ++ task_fields sheet.now.periods sheet.now.costs)) out.old out.new result }
{
    // (As in `put_named`.)
    let mut line = [0u8; LINE_ROOM];
    let end = put_line(question, sheet, &mut line);
    let next = put_named(b"ordinary ", &line[QUESTION..end], out, 0);
    put_named(b"aligned ", &line[..end], out, next)
}

// The sheet written back. It has room, so that the other case does not come.
fn put_sheet(sheet: &Sheet, out: &mut [u8]) -> usize
    requires { 1024 ≤ length out.old }
    ensures { Written (text_of sheet.now) out.old out.new result }
{
    match sheet.write(out) {
        Ok(size) => size,
        Err(NoRoom) => 0,
    }
}

// The refusal of the sheet's first bad line.
// Three functions, here and below, and not one of a text and its numbers, as queries has for seven answers: that one is a loop with an
// invariant and clauses on both lengths, which three short ones do not need.
fn put_bad_line(line: BadLine, out: &mut [u8]) -> usize
    requires { 1024 ≤ length out.old }
    ensures { Written (line_of (refuses 37 (line_detail line))) out.old out.new result }
{
    let number = put_text(out, 0, b"no");
    let detail = put_field(out, number, u64::from(line.number()));
    let end = put_field(out, detail, u64::from(line.detail()));
    put_end(out, end)
}

// How many fields a question of this word has; none where the word asks nothing of a sheet.
#[tactic(auto, unfolding(crate::specs::Sales::wanted))]
fn wanted(word: &[u8]) -> Option<usize>
    ensures { (result ≡ wants_of (wantedOf word.now)) × (wantedOf word.now ≤ 2) }
{
    if is_same(word, b"check") {
        return Some(2);
    }
    if is_same(word, b"least") || is_same(word, b"best") {
        return Some(1);
    }
    None
}

// How many fields stand behind the word: one behind each space.
fn given(question: &[u8]) -> usize
    ensures { result ≡ givenIn question.now }
{
    question.iter().filter(|&&b| b == b' ').count()
}

// The first field that is missing, or one too many.
fn put_bad_field(k: usize, out: &mut [u8]) -> usize
    requires { 1024 ≤ length out.old }
    ensures { Written (said bad_field (k ∷ [])) out.old out.new result }
{
    let field = put_text(out, 0, b"bad field");
    let end = put_field(out, field, k as u64);
    put_end(out, end)
}

fn put_bad_word(out: &mut [u8]) -> usize
    requires { 1024 ≤ length out.old }
    ensures { Written (said bad_word []) out.old out.new result }
{
    put_text(out, 0, b"bad word\n")
}

// A question that wants so many fields and has another number of them: its first missing one, or the first too many.
fn put_unasked(wants: usize, has: usize, out: &mut [u8]) -> usize
    requires { (1 ≤ wants) × (wants ≤ 2) × (1024 ≤ length out.old) }
    ensures { Written (unasked wants has) out.old out.new result }
{
    put_bad_field(has.min(wants) + 1, out)
}

// A question with its own fields and no others is put to the sizing half; it would take what is missing from the sheet.
fn to_sizing(question: &[u8], sheet: &Sheet, out: &mut [u8]) -> usize
    requires { (length question.now ≤ 65535) × (1024 ≤ length out.old) }
    ensures { Written (to_sizing question.now sheet.now) out.old out.new result }
{
    let end = until(question, b' ');
    let Some(wants) = wanted(&question[..end]) else {
        return put_bad_word(out);
    };
    let has = given(question);
    if has == wants {
        return both_forms(question, sheet, out);
    }
    put_unasked(wants, has, out)
}

// What the question asks of a sheet whose lines are all good.
fn asked(question: &[u8], sheet: &Sheet, out: &mut [u8]) -> usize
    requires { (length question.now ≤ 65535) × (1024 ≤ length out.old) }
    ensures { Written (to_sheet question.now sheet.now) out.old out.new result }
{
    if is_same(question, b"sheet") {
        return put_sheet(sheet, out);
    }
    to_sizing(question, sheet, out)
}

fn answered(question: &[u8], sheet: Result<Sheet, BadLine>, out: &mut [u8]) -> usize
    requires { (length question.now ≤ 65535) × (1024 ≤ length out.old) }
    ensures { Written (answer_of question.now (paper_read sheet)) out.old out.new result }
{
    match sheet {
        Ok(sheet) => asked(question, &sheet, out),
        Err(line) => put_bad_line(line, out),
    }
}

// The answer to a whole input, at the start of `out`, and how many bytes it has.
fn answer_to(input: &[u8], out: &mut [u8]) -> usize
    requires { 1024 ≤ length out.old }
    ensures { Written (answer_to input.now) out.old out.new result }
{
    if LONGEST_INPUT < input.len() {
        return queries::bad_line(out);
    }
    let end = until(input, b'\n');
    let size = queries::trimmed_size(&input[..end]);
    if is_same(&input[..size], b"help") {
        return put_text(
            out,
            0,
            b"help | sheet | check P B | least P | best PMAX, a newline, and the sheet: lines of period, one space, cost\n",
        );
    }
    let from = sheet_from(input, end);
    let sheet = Sheet::read(&input[from..]);
    answered(&input[..size], sheet, out)
}

// Why nothing more is read where the input is too long.
fn end_of(input: &[u8]) -> Option<End>
    ensures { result ≡ end_of input.now }
{
    if LONGEST_INPUT < input.len() {
        return Some(End::ByteLimit);
    }
    None
}

// Every byte waits, until the input has ended or is too long; then it is answered whole.
impl Machine for Sale {
    ghost run = { run_of };

    ghost ending = { None };

    fn end_byte(&self) -> Option<u8> {
        None
    }

    fn serve_part(&mut self, part: &[u8], offset: u64, last: bool, out: &mut [u8]) -> Served {
        let end = end_of(part);
        if out.len() < LONGEST_ANSWERS || (!last && end.is_none()) {
            return Served {
                used: 0,
                written: 0,
                end: None,
            };
        }
        self.served = answer_to(part, out);
        Served {
            used: 0,
            written: self.served,
            end,
        }
    }

    ghost run_nil = { runs_nil };

    ghost run_more = { runs_more };

    ghost few_wait = { runs_few };
}

// Reads until the input has ended or there is another reason to end.
fn run<R: Read, W: Write>(from: &mut R, output: &mut W) -> (Sale, Stand)
    ensures { HasServed run_of None unasked_yet result.0 result.1 (R.remaining from.old) (R.remaining from.new) (W.contents output.old) (W.contents output.new) }
{
    let mut sale = Sale { served: 0 };
    let stand = reads::serve(&mut sale, from, output, &mut []);
    (sale, stand)
}

fn main(rt: HostRuntime) {
    let (_, stand) = run(&mut rt.stdin(), &mut rt.stdout());
    reads::tell(
        &mut rt.stderr(),
        stand.end,
        b"sales: a read failed\n",
        b"sales: a write failed\n",
    );
}
