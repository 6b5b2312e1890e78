// What a line asks: its form, its word, its fields, and the question that it puts to `shares`.
ghost use Rattle.std.specs.Prelude.{◌≡◌, ◌∷◌, ◌≤◌, ◌<◌, length, get_or, Some};
ghost use Rattle.model.specs.Asked.{reply_to};
ghost use Rattle.shares.specs.Paper.{paper_form};
ghost use Rattle.queries.specs.declared.ask.Spoken.TheVariants.{Known};
ghost use Rattle.queries.specs.Text.{line_of};
ghost use Rattle.queries.specs.Meaning.{spoken_of, heads as headsOf, too_many, question, fields_mean, word_in, pieces_mean, bytes_mean};
ghost use Rattle.queries.specs.Private.{text_of, kept_at, pieces, fields_in, FieldsAre, EveryOther, Answers, Begins};

use crate::answers::{Fault, Told};
use crate::field::{SPACE, cut, number_of};
use shares::Form;
use std::array;

#[derive(Clone, Copy, Debug, PartialEq, Eq)]
pub(crate) enum Word {
    Supply,
    Demand,
    Check,
    Least,
    Best,
}

#[derive(Clone, Copy, Debug, PartialEq, Eq)]
pub(crate) enum Spoken {
    Known(Word),
    Help,
}

// The numbers of the first fields are kept: three fields and 17 tasks, too many already, are 37. The array has its count beside
// it, since no memory is allocated.
const KEPT: usize = 37;

#[derive(Clone, Copy, Debug, PartialEq, Eq)]
pub(crate) struct Fields {
    pub(crate) numbers: [u32; KEPT],
    pub(crate) count: usize,
}

// One test after the other: a `match` on byte strings leaves a goal open for each byte at which a word may differ.
#[tactic(auto, using(crate::proofs::Words::same_is), unfolding(crate::specs::Meaning::spoken_of))]
fn word_of(word: &[u8]) -> Option<Spoken>
    ensures { result ≡ spoken_of word.now }
{
    if word == b"supply".as_slice() {
        return Some(Spoken::Known(Word::Supply));
    }
    if word == b"demand".as_slice() {
        return Some(Spoken::Known(Word::Demand));
    }
    if word == b"check".as_slice() {
        return Some(Spoken::Known(Word::Check));
    }
    if word == b"least".as_slice() {
        return Some(Spoken::Known(Word::Least));
    }
    if word == b"best".as_slice() {
        return Some(Spoken::Known(Word::Best));
    }
    if word == b"help".as_slice() {
        return Some(Spoken::Help);
    }
    None
}

// `aligned` stands before four words; the others are unknown there.
fn word_in(form: Form, word: &[u8]) -> Option<Spoken>
    ensures { result ≡ word_in (paper_form form) (spoken_of word.now) }
{
    let spoken = word_of(word)?;
    match (form, spoken) {
        (Form::Aligned, Spoken::Help | Spoken::Known(Word::Demand)) => None,
        _ => Some(spoken),
    }
}

// How many fields a word has at the least, before its tasks.
fn heads(word: Word) -> usize
    ensures { (result ≡ headsOf word) × (result ≤ 3) }
{
    match word {
        Word::Supply => 3,
        Word::Demand | Word::Check => 2,
        Word::Least | Word::Best => 1,
    }
}

fn is_too_many(word: Word, k: usize) -> bool
    ensures { result ≡ too_many word k }
{
    word == Word::Supply && 3 < k
}

fn keep(numbers: &mut [u32; KEPT], at: usize, n: u32)
    ensures { numbers.new ≡ kept_at numbers.old at n }
{
    if at < KEPT {
        numbers[at] = n;
    }
}

// The numbers of the fields, or the first bad field.
fn fields_of(word: Word, line: &[u8]) -> Result<Fields, Fault>
    ensures { FieldsAre word (pieces 32 line.now) result }
{
    let mut numbers = [0; KEPT];
    // Counted beside the iterator: how many fields there are is handed on.
    let mut count = 0;
    for field in line.split(|&b| b == SPACE) {
        let k = count + 1;
        if is_too_many(word, k) {
            return Err(Fault::BadField(k));
        }
        let Some(n) = number_of(field) else {
            return Err(Fault::BadField(k));
        };
        keep(&mut numbers, count, n);
        count = k;
    }
    let next = count + 1;
    if next <= heads(word) {
        return Err(Fault::BadField(next));
    }
    Ok(Fields { numbers, count })
}

// The form of a line, its word, and what stands behind that: behind `aligned` the next piece is the word.
fn first_word(line: &[u8]) -> Result<(Form, &[u8], Option<&[u8]>), Fault>
    requires { 0 < length line.now }
    ensures { Begins (bytes_mean line.now) result }
{
    let (first, rest) = cut(line);
    if first != b"aligned".as_slice() {
        return Ok((Form::Ordinary, first, rest));
    }
    let (word, fields) = cut(rest.ok_or(Fault::BadWord)?);
    Ok((Form::Aligned, word, fields))
}

// As many tasks are too many already.
const TOO_MANY: usize = 17;

// Every other number from a place on.
fn every_other(numbers: &[u32; KEPT], from: usize) -> [u32; TOO_MANY]
    requires { from ≤ 4 }
    ensures { EveryOther numbers.now from result }
{
    array::from_fn(|i| numbers[from + 2 * i])
}

// What the word asks in this form, with the first three numbers and the tasks.
fn put_to_shares(
    form: Form,
    word: Word,
    numbers: &[u32; KEPT],
    periods: &[u32],
    costs: &[u32],
) -> Result<Told, Fault>
    ensures { text_of result ≡ line_of (reply_to (question (paper_form form) word (get_or numbers.now 0 0) (get_or numbers.now 1 0) (get_or numbers.now 2 0) (record { periods = periods.now; costs = costs.now }))) }
{
    let [a, b, c, ..] = *numbers;
    Ok(match word {
        Word::Supply => Told::Number(shares::supply(form, a, b, c)?),
        Word::Demand => Told::Number(shares::demand(periods, costs, a, b)?),
        Word::Check => Told::Number(u32::from(shares::check(form, periods, costs, a, b)?)),
        Word::Least => Told::Number(shares::least(form, periods, costs, a)?),
        Word::Best => Told::Share(shares::best(form, periods, costs, a)?),
    })
}

// The question of a word and its numbers: the tasks stand behind the word's own, a period and a cost after the other. They go to
// `shares` as two slices, since row 30 speaks of lists of unlike lengths.
fn asked(form: Form, word: Word, fields: &Fields) -> Result<Told, Fault>
    requires { headsOf word ≤ fields.now.count }
    ensures { Answers (paper_form form) word fields.now (text_of result) }
{
    let h = heads(word);
    let n = (fields.count - h).min(2 * TOO_MANY);
    let periods = every_other(&fields.numbers, h);
    let costs = every_other(&fields.numbers, h + 1);
    put_to_shares(
        form,
        word,
        &fields.numbers,
        &periods[..(n + 1) / 2],
        &costs[..n / 2],
    )
}

// The answer to a known word and what stands behind it. A function of its own: in `word_asked` its array would be zeroed for every word.
fn known_asked(form: Form, word: Word, line: &[u8]) -> Result<Told, Fault>
    ensures { text_of result ≡ fields_mean (paper_form form) (Some (Known word)) (pieces 32 line.now) }
{
    asked(form, word, &fields_of(word, line)?)
}

// The answer to a word and its fields; none stands behind `help`.
fn word_asked(form: Form, word: &[u8], fields: Option<&[u8]>) -> Result<Told, Fault>
    ensures { text_of result ≡ pieces_mean (paper_form form) (word.now ∷ fields_in fields.entry) }
{
    let Some(spoken) = word_in(form, word) else {
        return Err(Fault::BadWord);
    };
    match spoken {
        Spoken::Help => match fields {
            Some(_) => Err(Fault::BadField(1)),
            None => Ok(Told::Help),
        },
        Spoken::Known(known) => match fields {
            Some(rest) => known_asked(form, known, rest),
            None => Err(Fault::BadField(1)),
        },
    }
}

// The answer to the bytes of a line, without a carriage return at its end. One call asks in both forms: the tables of the
// search lie in its frame, and a second place of the call would have the frame made anew for each line.
pub(crate) fn answer_to(line: &[u8]) -> Result<Told, Fault>
    requires { 0 < length line.now }
    ensures { text_of result ≡ bytes_mean line.now }
{
    let (form, word, fields) = first_word(line)?;
    word_asked(form, word, fields)
}
