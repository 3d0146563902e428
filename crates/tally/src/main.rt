// Reads a log of answer records from standard input to its end and writes the page of its figures to standard output
// (02, T-02), or the line `refused R at N`. A read or a write that fails is told on standard error, the one sign of it
// that the program gives: its exit status is 0 all the same.
#![tactic(auto)]

ghost use Rattle.std.specs.Prelude.{◌≡◌, ◌≤◌, length};
ghost use Rattle.tally.specs.Turns.{turned_of, held, ended_over, read_over, Follows};

use daily_tally::{DayTally, Progress, RefusedAt};
use std::io;
use std::io::Read;

// What is kept from turn to turn: how many bytes wait at the input's start, the place of the next record, and the figures.
#[derive(Clone, Copy)]
struct Reading {
    kept: usize,
    place: u64,
    tally: DayTally,
}

// What a turn comes to: there may be more to read, the walk has ended, or a read has failed.
// kept: no plainer: three ways on, of which a refusal is no error of the reading.
#[derive(Clone, Copy)]
enum Stage {
    Open(Reading),
    Ended(Result<DayTally, RefusedAt>),
    Failed,
}

fn begin() -> Reading {
    let Progress { used, place, tally } = daily_tally::start();
    Reading {
        kept: used,
        place,
        tally,
    }
}

// Tallies what the input's first bytes hold, and keeps what is left of them for the next read.
fn tally_read(input: &mut [u8], there: usize, before: Reading) -> Stage
    requires { there ≤ length input.old }
    ensures { held (turned_of result) input.new ≡ read_over input.old there before }
{
    match daily_tally::advance(&input[0..there], before.place, before.tally) {
        Ok(progress) => Stage::Open(Reading {
            kept: kept::keep(input, progress.used, there),
            place: progress.place,
            tally: progress.tally,
        }),
        Err(refused) => Stage::Ended(Err(refused)),
    }
}

// One read, behind the bytes that wait. At the input's end, bytes that are left are a record cut short.
fn turn<R: Input + Eprint>(rt: &R, input: &mut [u8], before: Reading) -> Stage
    ensures { Follows before input.old (turned_of result) input.new }
{
    let kept = before.kept;
    if input.len() < kept {
        return Stage::Open(before);
    }
    let mut reader = rt.reader();
    let got = match reader.read(&mut input[kept..]) {
        Ok(got) => got,
        Err(error) => {
            troubles::tell(rt, "tally: standard input", error);
            return Stage::Failed;
        }
    };
    if got == 0 {
        return Stage::Ended(daily_tally::finish(&input[0..kept], before.place, before.tally));
    }
    let there = kept + got;
    tally_read(input, there, before)
}

// Turn behind turn until one ends it: what the walk told, where no read has failed. The count only bounds the loop.
fn turns<R: Input + Eprint>(rt: &R, input: &mut [u8]) -> Option<Result<DayTally, RefusedAt>> {
    let mut reading = begin();
    for _ in 0..u64::MAX {
        match turn(rt, input, reading) {
            Stage::Open(next) => reading = next,
            Stage::Ended(told) => return Some(told),
            Stage::Failed => return None,
        }
    }
    None
}

// One line of the page: what is counted, and the figure.
fn line(rt: &impl Print, meaning: &str, figure: u64) -> io::Result<()> {
    println!(rt; "{meaning}: {figure}")
}

fn tell_outcomes(rt: &impl Print, of: [u64; 6]) -> io::Result<()> {
    line(rt, "outcome 1, every line is met", of[1])?;
    line(rt, "outcome 2, neighbours' lines were relaxed", of[2])?;
    line(rt, "outcome 3, as 1, the cart taken at rest", of[3])?;
    line(rt, "outcome 4, as 2, the cart taken at rest", of[4])?;
    line(rt, "outcome 5, walls cannot be met at rest either", of[5])
}

// The numbers that an answer may have.
fn tell_refusals(rt: &impl Print, of: [u64; 16]) -> io::Result<()> {
    line(rt, "refusal 1, the version is not 1", of[1])?;
    line(rt, "refusal 2, bytes are missing or left over", of[2])?;
    line(
        rt,
        "refusal 3, an obstacle is neither closed nor open",
        of[3],
    )?;
    line(
        rt,
        "refusal 4, a count or the length is over its limit",
        of[4],
    )?;
    line(rt, "refusal 5, an open obstacle has no vertices", of[5])?;
    line(
        rt,
        "refusal 6, a number is not finite or out of its range",
        of[6],
    )?;
    line(
        rt,
        "refusal 7, a line's direction is out of its band",
        of[7],
    )?;
    line(
        rt,
        "refusal 8, the ends of an interval are not in order",
        of[8],
    )?;
    line(
        rt,
        "refusal 9, an edge's line breaks the admission of lines",
        of[9],
    )?;
    line(rt, "refusal 10, an answer buffer is too short", of[10])?;
    line(rt, "refusal 14, an obstacle has a doubled vertex", of[14])
}

fn tell_figures(rt: &impl Print, tally: DayTally) -> io::Result<()> {
    tell_outcomes(rt, tally.outcomes)?;
    tell_refusals(rt, tally.refusals)?;
    line(rt, "probes, their sum", tally.probes)?;
    line(rt, "probes, the largest of one answer", tally.largest)?;
    line(rt, "answers that name a failed line", tally.failed)
}

fn tell_refused(rt: &impl Print, refused: RefusedAt) -> io::Result<()> {
    let number = refused.refusal.number();
    let place = refused.place;
    println!(rt; "refused {number} at {place}")
}

fn tell<R: Print + Eprint>(rt: &R, told: Result<DayTally, RefusedAt>) {
    let written = match told {
        Ok(tally) => tell_figures(rt, tally),
        Err(refused) => tell_refused(rt, refused),
    };
    let _ = troubles::told(rt, "tally: standard output", written);
}

// Each read asks for 64 KiB behind a record cut short, of which at most 17 bytes are there.
fn main(rt: HostRuntime) {
    let mut input = [0u8; 65553];
    if let Some(told) = turns(&rt, &mut input) {
        tell(&rt, told);
    }
}
