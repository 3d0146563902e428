// The steps of a question: where the parts of a log and an index lie, their faults, and the fallbacks before a record.
ghost use Rattle.std.specs.Prelude.{◌≡◌, ◌+◌, ◌*◌, ◌%◌, ◌≤◌, ◌<◌, get_or, Ok};
ghost use Rattle.admission.specs.Faults.{◌⊳◌, fault_of};
ghost use Rattle.answer_records.specs.Numbers.{numbered};
ghost use Rattle.fallback_index.specs.Questions.{named_log, named_count, head_fault, range_fault, places_fault, before, between};
ghost use Rattle.fallback_index.specs.Parts.{up_to, count_in};
ghost use Rattle.index_building.specs.Indexes.{greatest};

use crate::{Head, Side};
use admission::{Judged, Refusal};
use index_building::{APART, ENTRY_BYTES, HEAD_BYTES, VERSION};

// A place, or the end of all bytes where it lies past that.
pub(crate) fn start_within(all: usize, at: usize) -> usize
    ensures { (result ≡ up_to all at) × (result ≤ all) }
{
    at.min(all)
}

// The end of so many bytes from a place on, or that of all bytes.
pub(crate) fn end_within(all: usize, at: usize, count: usize) -> usize
    requires { at ≤ all }
    ensures { (result ≡ up_to all (at + count)) × (at ≤ result) × (result ≤ all) }
{
    at + count.min(all - at)
}

// The first fault of the parts but for the walks.
pub(crate) fn judge(head: Head, first: usize, second: usize, a: usize, b: usize) -> Judged
    ensures { fault_of result ≡ (head_fault head.entry.index_length head.entry.bytes.now ⊳ places_fault head.entry.log_length
        (named_log head.entry.bytes.now) (named_count head.entry.bytes.now) first second a b) }
{
    let named = words::word_at(head.bytes, 5) as usize;
    let count = words::word_at(head.bytes, 9) as usize;
    judge_head(head.index_length, head.bytes)?;
    judge_places(head.log_length, named, count, first, second, a, b)
}

// The first fault of the fields before the entries, and of the index's length.
fn judge_head(n: usize, head: &[u8]) -> Judged
    ensures { fault_of result ≡ head_fault n head.now }
{
    Refusal::MissingOrLeftOver.unless(n >= 4)?;
    Refusal::MissingOrLeftOver.unless(n == 4 + words::word_at(head, 0) as usize)?;
    Refusal::MissingOrLeftOver.unless(n >= 5)?;
    Refusal::OtherVersion.unless(version_of(head) == VERSION)?;
    Refusal::MissingOrLeftOver.unless(n >= HEAD_BYTES)?;
    let count = words::word_at(head, 9) as usize;
    Refusal::MissingOrLeftOver.unless(n == HEAD_BYTES + ENTRY_BYTES * (count / APART + 1))
}

// The version byte; 0 where it is missing.
fn version_of(head: &[u8]) -> u8
    ensures { result ≡ get_or head.now 4 0 }
{
    head.get(4).copied().unwrap_or(0)
}

// The first fault of the question: the log's length against the one named, then its records and entries.
fn judge_places(
    total: usize,
    named: usize,
    count: usize,
    first: usize,
    second: usize,
    a: usize,
    b: usize,
) -> Judged
    ensures { fault_of result ≡ places_fault total named count first second a b }
{
    let log = Refusal::AnotherLog.unless(total == named);
    let range = judge_range(total, count, first, second, a, b);
    log.and(range)
}

// The records against their count, and the two entries' offsets against the log's length.
fn judge_range(
    total: usize,
    count: usize,
    first: usize,
    second: usize,
    a: usize,
    b: usize,
) -> Judged
    ensures { fault_of result ≡ range_fault total count first second a b }
{
    Refusal::NoSuchRecords.unless(a <= b)?;
    Refusal::NoSuchRecords.unless(b <= count)?;
    Refusal::MissingOrLeftOver.unless(first <= total)?;
    Refusal::MissingOrLeftOver.unless(second <= total)
}

// The fallbacks before a record: those before its entry's record, and those met on the walk of `count` records from there.
pub(crate) fn count_before(side: Side, count: usize) -> Result<u64, Refusal>
    requires { count < 64 }
    ensures { (numbered result ≡ before count side.entry.entry.now side.entry.stretch.now)
        × (count_in (numbered result) ≤ greatest + 63) }
{
    let found = log_walks::walk(side.stretch, count)?;
    Ok(words::word_at(side.entry, 4) as u64 + found)
}

// The fallbacks between two records, from those before each.
pub(crate) fn count_between(before_a: u64, before_b: u64) -> Result<u64, Refusal>
    ensures { numbered result ≡ between (Ok before_a) (Ok before_b) }
{
    if before_b < before_a {
        return Err(Refusal::MissingOrLeftOver);
    }
    Ok(before_b - before_a)
}
