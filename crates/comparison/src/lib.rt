// The comparison of two logs of answer records, ours and a partner's (02, T-09), part by part as the logs are read.
#![tactic(auto)]

ghost use Rattle.std.specs.Prelude.{◌≡◌};
ghost use Rattle.admission.specs.Refusals.{number_of};
ghost use Rattle.answer_logs.specs.Logs.{logged_of};
ghost use Rattle.comparison.specs.Agreeing.{is_zero, same_number, matched_outcomes, matched_refusals};
ghost use Rattle.comparison.specs.Verdicts.{compared_of, found_of, progress_in};
ghost use Rattle.comparison.specs.Places.{said_turn};
ghost use Rattle.comparison.specs.Turns.{against_end, against_outcome, against_refusal, turn_in, turn_by, part_turn, whole_turn};
ghost use Rattle.comparison.specs.Comparing.{next_place, compared_from, told_in, found_by, stopped_at, advanced};

use admission::Refusal;
use answer_logs::Logged;
use answer_records::{Answer, Reply};

// The first field in which two records of one place differ, ours and theirs: the point by its bits; an outcome's number beside a
// refusal's; or the side that has no record there.
// kept: no plainer: refusals by their numbers, as all fields are told as the records say them.
#[derive(Clone, Copy, Debug, PartialEq, Eq)]
pub enum Difference {
    Outcome(u8, u8),
    PointX(u32, u32),
    PointY(u32, u32),
    FailedLine(u16, u16),
    Probes(u32, u32),
    Refusal(u8, u8),
    OutcomeAndRefusal(u8, u8),
    RefusalAndOutcome(u8, u8),
    NoneOfOurs,
    NoneOfTheirs,
}

// The first place that differs, and how. Places are counted from 0.
#[derive(Clone, Copy, Debug, PartialEq, Eq)]
pub struct Differing {
    pub place: u64,
    pub difference: Difference,
}

// An unreadable answer: its fault, and its place.
#[derive(Clone, Copy, Debug, PartialEq, Eq)]
pub struct UnreadableAt {
    pub refusal: Refusal,
    pub place: u64,
}

// What a comparison tells: the first place that differs, or none where all agree; or an unreadable answer.
pub type Compared = Result<Option<Differing>, UnreadableAt>;

// How far two parts were compared: the bytes of each that are used, the next place, and what is told whatever follows, if
// that is known; else more of the logs is needed.
#[derive(Clone, Copy, Debug, PartialEq, Eq)]
pub struct Progress {
    pub ours: usize,
    pub theirs: usize,
    pub place: u64,
    pub found: Option<Compared>,
}

// What stands at one place: two records that agree, with the bytes behind them; an unreadable answer of theirs; two that differ;
// both logs ended, or one of them.
#[derive(Clone, Copy)]
pub(crate) enum Turn {
    Onward(usize, usize),
    Unreadable(Refusal),
    Different(Difference),
    BothEnded,
    OneEnded(Difference),
}

// Compares a part of each log from its start on, the first record of each at the place, as far as whole records reach. It ends at
// two whole records that differ, and at an unreadable answer of theirs: a length over 16, or a whole record of another length,
// version or code. Else more of the logs is needed.
pub fn advance(ours: &[u8], theirs: &[u8], place: u64) -> Progress
    ensures { progress_in result ≡ advanced place ours.now theirs.now }
{
    let mut at = 0usize;
    let mut by = 0usize;
    let mut next = place;
    loop {
        let turn = part_turn(ours, theirs, at, by);
        let Turn::Onward(j, k) = turn else {
            return stopped(at, by, next, turn);
        };
        at = j;
        by = k;
        next = next_place(next);
    }
}

// Compares what is left of both logs where both have ended, the first record of each at the place; of the whole logs
// and from place 0, all of it. A missing, a surplus and a differing record is told by its place; an unreadable answer
// of theirs by its fault (1 or 2) and its place, before a difference at the same place.
pub fn finish(ours: &[u8], theirs: &[u8], place: u64) -> Compared
    ensures { compared_of result ≡ compared_from place ours.now theirs.now }
{
    let progress = advance(ours, theirs, place);
    match progress.found {
        Some(verdict) => verdict,
        None => {
            let turn = whole_turn(ours, theirs, progress.ours, progress.theirs);
            told(progress.place, turn)
        }
    }
}

// What is told where a comparison stops at a place; a place that agrees is no such place.
#[tactic(auto, unfolding(crate::specs::Comparing::told_in))]
fn told(place: u64, turn: Turn) -> Compared
    ensures { compared_of result ≡ told_in place (said_turn turn) }
{
    match turn {
        Turn::Onward(_, _) => Ok(None),
        Turn::Unreadable(refusal) => Err(UnreadableAt { refusal, place }),
        Turn::Different(difference) => Ok(Some(Differing { place, difference })),
        Turn::BothEnded => Ok(None),
        Turn::OneEnded(difference) => Ok(Some(Differing { place, difference })),
    }
}

// How far two parts were compared that stop at a place.
fn stopped(ours: usize, theirs: usize, place: u64, turn: Turn) -> Progress
    ensures { progress_in result ≡ stopped_at ours theirs place (said_turn turn) }
{
    let found = found_by(place, turn);
    Progress {
        ours,
        theirs,
        place,
        found,
    }
}

// What is told whatever follows. Where a part has ended, more of the logs is needed.
#[tactic(auto, unfolding(crate::specs::Comparing::told_in, crate::specs::Comparing::found_by))]
fn found_by(place: u64, turn: Turn) -> Option<Compared>
    ensures { found_of result ≡ found_by place (said_turn turn) }
{
    match turn {
        Turn::Onward(_, _) => None,
        Turn::Unreadable(_) => Some(told(place, turn)),
        Turn::Different(_) => Some(told(place, turn)),
        Turn::BothEnded => None,
        Turn::OneEnded(_) => None,
    }
}

// The next place. No file reaches the last, which stands for all behind it.
fn next_place(place: u64) -> u64
    ensures { result ≡ next_place place }
{
    place.saturating_add(1)
}

// The turn at a byte of each part.
fn part_turn(ours: &[u8], theirs: &[u8], at: usize, by: usize) -> Turn
    ensures { said_turn result ≡ part_turn ours.now theirs.now at by }
{
    let mine = answer_logs::whole_at(ours, at);
    let other = answer_logs::whole_at(theirs, by);
    judged(mine, other)
}

// The turn at a byte of each log, where both have ended.
fn whole_turn(ours: &[u8], theirs: &[u8], at: usize, by: usize) -> Turn
    ensures { said_turn result ≡ whole_turn ours.now theirs.now at by }
{
    let mine = answer_logs::record_at(ours, at);
    let other = answer_logs::record_at(theirs, by);
    judged(mine, other)
}

// What two records make of a place. An unreadable one of theirs comes before all else.
#[tactic(auto, unfolding(crate::specs::Turns::turn_in))]
fn judged(ours: Logged, theirs: Logged) -> Turn
    ensures { said_turn result ≡ turn_in (logged_of ours) (logged_of theirs) }
{
    match theirs {
        Err(refusal) => Turn::Unreadable(refusal),
        Ok(None) => against_end(ours),
        Ok(Some((Reply::Outcome(answer), behind))) => against_outcome(ours, answer, behind),
        Ok(Some((Reply::Refusal(refusal), behind))) => against_refusal(ours, refusal, behind),
    }
}

#[tactic(auto, unfolding(crate::specs::Turns::against_end))]
fn against_end(ours: Logged) -> Turn
    ensures { said_turn result ≡ against_end (logged_of ours) }
{
    match ours {
        Ok(None) => Turn::BothEnded,
        Ok(Some(_)) => Turn::OneEnded(Difference::NoneOfTheirs),
        Err(_) => Turn::OneEnded(Difference::NoneOfOurs),
    }
}

#[tactic(auto, unfolding(crate::specs::Turns::against_outcome))]
fn against_outcome(ours: Logged, theirs: Answer, behind: usize) -> Turn
    ensures { said_turn result ≡ against_outcome (logged_of ours) theirs behind }
{
    match ours {
        Ok(None) => Turn::OneEnded(Difference::NoneOfOurs), // theirs is surplus
        Err(_) => Turn::Different(Difference::NoneOfOurs),
        Ok(Some((Reply::Refusal(refusal), _))) => Turn::Different(Difference::RefusalAndOutcome(
            refusal.number(),
            theirs.code,
        )),
        Ok(Some((Reply::Outcome(answer), next))) => {
            onward(matched_outcomes(answer, theirs), next, behind)
        }
    }
}

#[tactic(auto, unfolding(crate::specs::Turns::against_refusal))]
fn against_refusal(ours: Logged, theirs: Refusal, behind: usize) -> Turn
    ensures { said_turn result ≡ against_refusal (logged_of ours) (number_of theirs) behind }
{
    match ours {
        Ok(None) => Turn::OneEnded(Difference::NoneOfOurs),
        Err(_) => Turn::Different(Difference::NoneOfOurs),
        Ok(Some((Reply::Outcome(answer), _))) => Turn::Different(Difference::OutcomeAndRefusal(
            answer.code,
            theirs.number(),
        )),
        Ok(Some((Reply::Refusal(refusal), next))) => onward(
            matched_refusals(refusal.number(), theirs.number()),
            next,
            behind,
        ),
    }
}

// Behind two records that agree the comparison goes on.
#[tactic(auto, unfolding(crate::specs::Turns::turn_by))]
fn onward(matched: Option<Difference>, next: usize, behind: usize) -> Turn
    ensures { said_turn result ≡ turn_by matched next behind }
{
    match matched {
        None => Turn::Onward(next, behind),
        Some(difference) => Turn::Different(difference),
    }
}

// The first of outcome, point, failed line and probes in which two outcomes differ, or none where they agree.
fn matched_outcomes(ours: Answer, theirs: Answer) -> Option<Difference>
    ensures { result ≡ matched_outcomes ours theirs }
{
    if ours.code != theirs.code {
        return Some(Difference::Outcome(ours.code, theirs.code));
    }
    if !same_number(ours.x, theirs.x) {
        return Some(Difference::PointX(ours.x, theirs.x));
    }
    if !same_number(ours.y, theirs.y) {
        return Some(Difference::PointY(ours.y, theirs.y));
    }
    if ours.failed != theirs.failed {
        return Some(Difference::FailedLine(ours.failed, theirs.failed));
    }
    if ours.probes != theirs.probes {
        return Some(Difference::Probes(ours.probes, theirs.probes));
    }
    None
}

fn matched_refusals(ours: u8, theirs: u8) -> Option<Difference>
    ensures { result ≡ matched_refusals ours theirs }
{
    if ours != theirs {
        return Some(Difference::Refusal(ours, theirs));
    }
    None
}

// Whether two patterns are the same, or both a zero's.
#[tactic(auto, unfolding(crate::specs::Agreeing::same_number))]
fn same_number(a: u32, b: u32) -> bool
    ensures { result ≡ same_number a b }
{
    a == b || (is_zero(a) && is_zero(b))
}

#[tactic(auto, unfolding(crate::specs::Agreeing::is_zero))]
fn is_zero(pattern: u32) -> bool
    ensures { result ≡ is_zero pattern }
{
    pattern == 0 || pattern == 0x8000_0000
}
