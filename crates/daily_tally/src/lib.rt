// The daily tally of an answer log (02, T-02): how many answers of each outcome, how many refusals of each number, the sum
// and the largest of the probes, and how many answers name a failed line.
#![tactic(auto)]

ghost use Rattle.std.specs.Prelude.{◌≡◌, ◌-◌, ◌^◌, ◌<◌, [], Ok};
ghost use Rattle.answer_logs.specs.Logs.{most_records, entry_of, logged_of, records_in};
ghost use Rattle.answer_logs.specs.Parts.{wholes_from};
ghost use Rattle.daily_tally.specs.Figures.{probes_of, tally_of, refused_by, tallied_of, tallied};
ghost use Rattle.daily_tally.specs.Adding.{sum64, has_place, names_line, with_outcome, with_refusal, with_entry};
ghost use Rattle.daily_tally.specs.Steps.{whole_within, going, advance_of, largest_in, advanced, finished};

use admission::Refusal;
use answer_logs::Logged;
use answer_records::{Answer, Reply};

// The figures of a log. An outcome is counted at its code, a refusal at its number; the places that no answer has stay 0.
#[derive(Clone, Copy, Debug, PartialEq, Eq)]
pub struct DayTally {
    pub outcomes: [u64; 6],
    pub refusals: [u64; 16],
    pub probes: u64,
    pub largest: u64,
    pub failed: u64,
}

impl DayTally {
    // The records that a log may have.
    pub const MOST: u64 = 4_294_967_295;
}

// Why the walk stopped before the log's end, and the place of the record that is refused, from 0 on.
#[derive(Clone, Copy, Debug, PartialEq, Eq)]
pub struct RefusedAt {
    pub refusal: Refusal,
    pub place: u64,
}

// How far the tally of a log came: the bytes of the part that are used, the place of the next record, and the figures
// so far.
#[derive(Clone, Copy, Debug, PartialEq, Eq)]
pub struct Progress {
    pub used: usize,
    pub place: u64,
    pub tally: DayTally,
}

// The tally of a log of answer records. Refused, at each record in turn: the 4,294,967,296th (4); then fewer than two
// bytes, a length that is neither 16 nor 2, or fewer bytes than it names (2); another version (1); a code not of its
// length (2).
pub fn tally_log(log: &[u8]) -> Result<DayTally, RefusedAt>
    ensures { tallied_of result ≡ tallied (records_in most_records log.now) }
{
    finish_within(log, 0, nothing(), DayTally::MOST)
}

// The tally before the first part of a log.
pub fn start() -> Progress
    ensures { advance_of (Ok result) ≡ going 0 0 (tally_of []) }
{
    Progress {
        used: 0,
        place: 0,
        tally: nothing(),
    }
}

// Tallies the records of a part of a log behind those before it, as far as whole records reach; the bytes that are left
// belong before the next part. A refusal is told with its place, and no figures. Totals that no log gave may wrap.
pub fn advance(part: &[u8], place: u64, tally: DayTally) -> Result<Progress, RefusedAt>
    ensures { advance_of result ≡ advanced most_records part.now place tally }
{
    advance_within(part, place, tally, DayTally::MOST)
}

// The log's end behind the bytes that the last step left: they are a record cut short, which gets 2. Where none are left,
// the tally is told.
pub fn finish(rest: &[u8], place: u64, tally: DayTally) -> Result<DayTally, RefusedAt>
    ensures { tallied_of result ≡ finished most_records rest.now place tally }
{
    finish_within(rest, place, tally, DayTally::MOST)
}

// `advance` of a log that may have so many records. Its probes being of 32 bits, no total from an empty tally on wraps.
fn advance_within(
    part: &[u8],
    place: u64,
    tally: DayTally,
    most: u64,
) -> Result<Progress, RefusedAt>
    ensures { (advance_of result ≡ advanced most part.now place tally)
        × (largest_in (wholes_from (most - place) place part.now) < 2 ^ 32) }
{
    let mut sum = tally;
    let mut next = place;
    let mut at = 0;
    loop {
        // kept: tried, the proof does not close with `map_err(..)?`: the closure stays in the goals
        match whole_within(part, at, most.saturating_sub(next)) {
            Err(refusal) => return Err(refused(refusal, next)),
            Ok(None) => {
                return Ok(Progress {
                    used: at,
                    place: next,
                    tally: sum,
                });
            }
            Ok(Some((reply, behind))) => {
                sum = add_reply(sum, reply);
                next += 1;
                at = behind;
            }
        }
    }
}

// `finish` of a log that may have so many records.
fn finish_within(rest: &[u8], place: u64, tally: DayTally, most: u64) -> Result<DayTally, RefusedAt>
    ensures { (tallied_of result ≡ finished most rest.now place tally)
        × (largest_in (wholes_from (most - place) place rest.now) < 2 ^ 32) }
{
    let progress = advance_within(rest, place, tally, most)?;
    if progress.used < rest.len() {
        return Err(RefusedAt {
            refusal: Refusal::MissingOrLeftOver,
            place: progress.place,
        });
    }
    Ok(progress.tally)
}

// The record at a byte of a part, through the log's reader. Where no more may begin, any byte is refused with 4.
fn whole_within(part: &[u8], at: usize, left: u64) -> Logged
    ensures { logged_of result ≡ whole_within left part.now at }
{
    if left > 0 {
        return answer_logs::whole_at(part, at);
    }
    if at < part.len() {
        return Err(Refusal::TooMany);
    }
    Ok(None)
}

fn refused(refusal: Refusal, place: u64) -> RefusedAt
    ensures { result ≡ refused_by refusal place }
{
    RefusedAt { refusal, place }
}

// The tally of no records.
fn nothing() -> DayTally
    ensures { result ≡ tally_of [] }
{
    DayTally {
        outcomes: [0; 6],
        refusals: [0; 16],
        probes: 0,
        largest: 0,
        failed: 0,
    }
}

// The tally with one record more, whose probes are of 32 bits.
fn add_reply(tally: DayTally, reply: Reply) -> DayTally
    requires { has_place (entry_of reply) }
    ensures { (result ≡ with_entry sum64 tally (entry_of reply)) × (probes_of (entry_of reply) < 2 ^ 32) }
{
    match reply {
        Reply::Outcome(answer) => add_outcome(tally, answer),
        Reply::Refusal(refusal) => add_refusal(tally, refusal.number()),
    }
}

// The tally with one outcome more.
fn add_outcome(tally: DayTally, answer: Answer) -> DayTally
    requires { answer.code < 6 }
    ensures { result ≡ with_outcome sum64 tally answer }
{
    let code = answer.code as usize;
    let mut outcomes = tally.outcomes;
    outcomes[code] = outcomes[code].wrapping_add(1);
    let probes = answer.probes as u64;
    DayTally {
        outcomes,
        probes: tally.probes.wrapping_add(probes),
        largest: tally.largest.max(probes),
        failed: tally.failed.wrapping_add(names_line(answer.failed)),
        ..tally
    }
}

// The tally with one refusal more.
fn add_refusal(tally: DayTally, number: u8) -> DayTally
    requires { number < 16 }
    ensures { result ≡ with_refusal sum64 tally number }
{
    let index = number as usize;
    let mut refusals = tally.refusals;
    refusals[index] = refusals[index].wrapping_add(1);
    DayTally { refusals, ..tally }
}

// 1 where the two bytes name a line, 0 where they say that none failed.
fn names_line(failed: u16) -> u64
    ensures { result ≡ names_line failed }
{
    if failed == Answer::NO_LINE {
        return 0;
    }
    1
}
