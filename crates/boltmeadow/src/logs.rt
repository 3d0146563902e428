// Answer records and logs of them: one read, a day's figures, the index of fallbacks.
ghost use Rattle.std.specs.Prelude.{◌≡◌, []};
ghost use Rattle.answer_logs.specs.Logs.{most_records, records_in};
ghost use Rattle.answer_records.specs.Replies.{answer_in};
ghost use Rattle.daily_tally.specs.Figures.{tally_of, tallied};
ghost use Rattle.index_building.specs.Indexes.{standing};
ghost use Rattle.index_building.specs.Builds.{built_over};
ghost use Rattle.fallback_index.specs.Questions.{question_in};
ghost use Rattle.fallback_index.specs.Appends.{appended_over};
ghost use Rattle.boltmeadow.specs.Logs.{reply, reply_told, page, tally_told, index_left, fallbacks_told};

use crate::scenes::{BmWritten, written};
use answer_records::Reply;
use daily_tally::{DayTally, RefusedAt};

// An answer record that was read: its code, 1 to 5 or 128 and the number that it refuses with; the bits of x and y, the
// failed line (FFFF for none) and the probes, as they stand in the record. Beside a refusal all else is 0.
#[repr(C)]
#[derive(Clone, Copy)]
pub struct BmReply {
    pub refusal: u32,
    pub code: u32,
    pub x: u32,
    pub y: u32,
    pub failed_line: u32,
    pub probes: u32,
}

// The figures of a log; beside a refusal all are 0, and `place` is that of the record that is refused.
#[repr(C)]
#[derive(Clone, Copy)]
pub struct BmTally {
    pub refusal: u32,
    pub place: u64,
    pub outcomes: [u64; 6],
    pub refusals: [u64; 16],
    pub probes: u64,
    pub largest: u64,
    pub failed: u64,
}

// How many fallbacks lie between two records; beside a refusal 0.
#[repr(C)]
#[derive(Clone, Copy)]
pub struct BmFallbacks {
    pub refusal: u32,
    pub count: u64,
}

// Reads one answer record; or tells the number of a refusal, as `answer_records::read_answer` tells a fault.
#[unsafe(no_mangle)]
pub extern "C" fn bm_read_answer(answer: &[u8]) -> BmReply
    ensures { result ≡ reply_told (answer_in answer.now) }
{
    match answer_records::read_answer(answer) {
        Ok(Reply::Outcome(told)) => replied(
            0,
            u32::from(told.code),
            told.x,
            told.y,
            u32::from(told.failed),
            told.probes,
        ),
        Ok(Reply::Refusal(refusal)) => replied(0, 128 + u32::from(refusal.number()), 0, 0, 0, 0),
        Err(refusal) => replied(u32::from(refusal.number()), 0, 0, 0, 0, 0),
    }
}

fn replied(refusal: u32, code: u32, x: u32, y: u32, failed_line: u32, probes: u32) -> BmReply
    ensures { result ≡ reply refusal code x y failed_line probes }
{
    BmReply {
        refusal,
        code,
        x,
        y,
        failed_line,
        probes,
    }
}

// The figures of a whole log; or the number of a refusal with the place of the record that is refused, as
// `daily_tally::tally_log` refuses.
#[unsafe(no_mangle)]
pub extern "C" fn bm_tally_log(log: &[u8]) -> BmTally
    ensures { result ≡ tally_told (tallied (records_in most_records log.now)) }
{
    match daily_tally::tally_log(log) {
        Ok(tally) => paged(0, 0, tally),
        Err(RefusedAt { refusal, place }) => {
            paged(u32::from(refusal.number()), place, no_figures())
        }
    }
}

#[tactic(auto, unfolding(daily_tally::specs::Figures::tally_of, daily_tally::specs::Figures::below, daily_tally::specs::Figures::count_of, daily_tally::specs::Figures::sum_of, daily_tally::specs::Figures::largest_of, daily_tally::specs::Figures::one))]
fn no_figures() -> DayTally
    ensures { result ≡ tally_of [] }
{
    DayTally {
        outcomes: [0; 6],
        refusals: [0; 16],
        probes: 0,
        largest: 0,
        failed: 0,
    }
}

fn paged(refusal: u32, place: u64, tally: DayTally) -> BmTally
    ensures { result ≡ page refusal place tally }
{
    let outcomes = tally.outcomes;
    let refusals = tally.refusals;
    BmTally {
        refusal,
        place,
        outcomes,
        refusals,
        probes: tally.probes,
        largest: tally.largest,
        failed: tally.failed,
    }
}

// Writes a log's index to the buffer's start; bytes behind it keep their contents. Refused, with the buffer as it was,
// as `index_building::build_index` refuses.
#[unsafe(no_mangle)]
pub extern "C" fn bm_build_index(log: &[u8], buffer: &mut [u8]) -> BmWritten
    ensures { standing result buffer.new ≡ index_left (built_over log.now buffer.old) }
{
    let built = index_building::build_index(log, buffer);
    written(built)
}

// How many answers from record a up to but not including record b were fallbacks; or the number of a refusal, as
// `fallback_index::count_fallbacks` refuses.
#[unsafe(no_mangle)]
pub extern "C" fn bm_count_fallbacks(log: &[u8], index: &[u8], a: usize, b: usize) -> BmFallbacks
    ensures { result ≡ fallbacks_told (question_in log.now index.now a b) }
{
    match fallback_index::count_fallbacks(log, index, a, b) {
        Ok(count) => BmFallbacks { refusal: 0, count },
        Err(refusal) => BmFallbacks {
            refusal: u32::from(refusal.number()),
            count: 0,
        },
    }
}

// Brings the index in the buffer's first `length` bytes up to date for one record more; bytes behind it keep their
// contents. Refused, with the buffer as it was, as `fallback_index::append_record` refuses.
#[unsafe(no_mangle)]
pub extern "C" fn bm_append_record(
    log: &[u8],
    buffer: &mut [u8],
    length: usize,
    record: &[u8],
) -> BmWritten
    ensures { standing result buffer.new
        ≡ index_left (appended_over log.now buffer.old length «record».now) }
{
    written(fallback_index::append_record(log, buffer, length, record))
}
