// Fallbacks between two ticks (02, T-10): questions that a log's index answers from two short stretches of the log, and
// an append.
#![tactic(auto)]

ghost use Rattle.std.specs.Prelude.{◌≡◌};
ghost use Rattle.answer_records.specs.Numbers.{numbered};
ghost use Rattle.index_building.specs.Indexes.{greatest, standing};
ghost use Rattle.fallback_index.specs.Questions.{stretch_bytes, question_of, question_in};
ghost use Rattle.fallback_index.specs.Appends.{update_of, appended_over};

mod appends;
mod questions;

use admission::Refusal;
use answer_records::Answer;
use index_building::{APART, ENTRY_BYTES, Extent, GREATEST, HEAD_BYTES};

// What each question and each append rests on: the lengths of log and index, and the index's first 13 bytes.
#[derive(Clone, Copy)]
pub struct Head<'a> {
    pub log_length: usize,
    pub index_length: usize,
    pub bytes: &'a [u8],
}

// What the fallbacks before a record rest on: the index's entry at or before it (8 bytes from 13 + 8 * (a / 64) on), and
// the log from where that one points, `most_bytes` or what there is.
#[derive(Clone, Copy)]
pub struct Side<'a> {
    pub entry: &'a [u8],
    pub stretch: &'a [u8],
}

// How many answers from record a up to but not including record b were outcomes 3, 4 or 5, by the log's index. Refused,
// in this order: an index whose length does not match its bytes (2), its version (1), missing fields or an entry number
// that does not go with the record count (2); a log of another length than the index names (12); a > b, or b over the
// record count (13); an entry used that points beyond the log (2); a bad record on the walk to a, then on that to b (1
// or 2); fewer fallbacks before b than before a (2).
pub fn count_fallbacks(log: &[u8], index: &[u8], a: usize, b: usize) -> Result<u64, Refusal>
    ensures { numbered result ≡ question_in log.now index.now a b }
{
    let head = questions::start_within(index.len(), HEAD_BYTES);
    let at_a = questions::start_within(index.len(), index_building::entry_at(a));
    let to_a = questions::end_within(index.len(), at_a, ENTRY_BYTES);
    let at_b = questions::start_within(index.len(), index_building::entry_at(b));
    let to_b = questions::end_within(index.len(), at_b, ENTRY_BYTES);
    let from_a = questions::start_within(log.len(), words::word_at(&index[at_a..to_a], 0) as usize);
    let past_a = questions::end_within(log.len(), from_a, most_bytes(a));
    let from_b = questions::start_within(log.len(), words::word_at(&index[at_b..to_b], 0) as usize);
    let past_b = questions::end_within(log.len(), from_b, most_bytes(b));
    count_by_parts(
        Head {
            log_length: log.len(),
            index_length: index.len(),
            bytes: &index[0..head],
        },
        Side {
            entry: &index[at_a..to_a],
            stretch: &log[from_a..past_a],
        },
        Side {
            entry: &index[at_b..to_b],
            stretch: &log[from_b..past_b],
        },
        a,
        b,
    )
}

// How many bytes of the log a question rests on at most, from where the last entry at or before a record points.
pub fn most_bytes(a: usize) -> usize
    ensures { result ≡ stretch_bytes a }
{
    Answer::BYTES * (a % APART)
}

// `count_fallbacks` by what it rests on.
pub fn count_by_parts(head: Head, from: Side, to: Side, a: usize, b: usize) -> Result<u64, Refusal>
    ensures { numbered result ≡ question_of head.entry.log_length head.entry.index_length head.entry.bytes.now
        from.entry.entry.now to.entry.entry.now from.entry.stretch.now to.entry.stretch.now a b }
{
    let first = words::word_at(from.entry, 0) as usize;
    let second = words::word_at(to.entry, 0) as usize;
    questions::judge(head, first, second, a, b)?;
    let before_a = questions::count_before(from, a % APART)?;
    let before_b = questions::count_before(to, b % APART)?;
    questions::count_between(before_a, before_b)
}

// Brings the index of a log, the buffer's first `length` bytes, up to date for one record more, which the caller puts
// behind the log; bytes behind the index keep their contents. It answers the index's new length. Refused, with the
// buffer as it was: a length over the buffer's (2); a question's refusals for 0 and the record count; bytes that are
// not one answer record (1 or 2); a number of the index over 4,294,967,295 (4); a buffer shorter than the new index
// (10).
pub fn append_record(
    log: &[u8],
    buffer: &mut [u8],
    length: usize,
    record: &[u8],
) -> Result<usize, Refusal>
    ensures { standing (numbered result) buffer.new ≡ appended_over log.now buffer.old length
        «record».now }
{
    if length > buffer.len() {
        return Err(Refusal::MissingOrLeftOver);
    }
    let extent = appends::update_in(log, &buffer[0..length], record)?;
    index_building::store_update(buffer, extent)
}

// An append's numbers by what it rests on: the index's first entry, the side of the record count, and the new record.
pub fn update_by_parts(
    head: Head,
    first: &[u8],
    last: Side,
    record: &[u8],
) -> Result<Extent, Refusal>
    ensures { numbered result ≡ update_of greatest head.entry.log_length head.entry.index_length head.entry.bytes.now
        first.now last.entry.entry.now last.entry.stretch.now «record».now }
{
    let named = words::word_at(head.bytes, 5) as usize;
    let count = words::word_at(head.bytes, 9) as usize;
    count_by_parts(
        head,
        Side {
            entry: first,
            stretch: &[],
        },
        last,
        0,
        count,
    )?;
    let before = questions::count_before(last, count % APART)?;
    appends::grown_by(GREATEST, named, count, before, record)
}
