// Compares a partner's answer records with ours (02, T-09): `compare SCENES ANSWERS` reads both files in turns, answers
// the scenes as `feed` does, and writes `all agree`, `differs at N` and how, or `refused R at N`. A file that cannot be
// opened or read is told on standard error by its name, the one sign of it that the program gives: its exit status is 0
// all the same.
#![tactic(auto)]

ghost use Rattle.std.specs.Prelude.{◌≡◌, true, ◌≤◌, length, IfSome};
ghost use Rattle.std.specs.Result.{result_ok};
ghost use Rattle.comparison.specs.Reads.{wants};
ghost use Rattle.compare.specs.Turns.{brought_in, beginning, Ready, Advances, Follows};

use answer_records::Answer;
use comparison::{Compared, Difference, Differing, UnreadableAt};
use records::Stream;
use std::fs::File;
use std::io::Read;
use std::{fmt, io, rt};

// What is kept from turn to turn: where the stream of scenes stands, how many bytes of our answers and of theirs wait
// at the start of their buffers, whether there may be more of theirs, the next place, and the verdict, once it is found.
#[derive(Clone, Copy)]
struct Reading {
    stream: Stream,
    ours: usize,
    theirs: usize,
    more: bool,
    place: u64,
    found: Option<Compared>,
}

// An open file and its name.
#[derive(Drop)]
struct Opened<'a> {
    file: File,
    name: &'a str,
}

// The two files.
#[derive(Drop)]
struct Files<'a> {
    scenes: Opened<'a>,
    answers: Opened<'a>,
}

// How many bytes a read brings, none at the file's end; or nothing where it has failed.
fn read(rt: &impl Eprint, buffer: &mut [u8], from: &Opened<'_>) -> Option<usize>
    ensures { brought_in result ≤ length buffer.new }
{
    let mut file = &from.file;
    let got = file.read(buffer);
    told(rt, from.name, got)
}

// Whether a side wants more: fewer bytes wait than the longest answer has, and there may be more.
#[tactic(auto, unfolding(comparison::specs::Reads::wants))]
fn is_wanted(waiting: usize, more: bool) -> bool
    ensures { result ≡ wants waiting more }
{
    waiting < Answer::BYTES && more
}

// Compares what is there of both sides, and keeps what is left of each.
fn compare_next(
    ours: &mut [u8],
    theirs: &mut [u8],
    mine: usize,
    other: usize,
    before: Reading,
) -> Reading
    requires { (mine ≤ length ours.old) × (other ≤ length theirs.old) }
    ensures { Advances before mine ours.old other theirs.old result ours.new
        theirs.new }
{
    let progress = comparison::advance(&ours[0..mine], &theirs[0..other], before.place);
    if let Some(verdict) = progress.found {
        return Reading {
            ours: mine,
            theirs: other,
            found: Some(verdict),
            ..before
        };
    }
    Reading {
        ours: kept::keep(ours, progress.ours, mine),
        theirs: kept::keep(theirs, progress.theirs, other),
        place: progress.place,
        found: None,
        ..before
    }
}

// One read of the scenes, behind what waits; their answers go behind ours that wait. Nothing where the read has failed.
fn scenes_turn(
    rt: &impl Eprint,
    input: &mut [u8],
    ours: &mut [u8],
    theirs: &mut [u8],
    file: &Opened<'_>,
    before: Reading,
) -> Option<Reading>
    requires { Ready (length input.old) (length ours.old) (length theirs.old) before
        × (wants before.ours before.stream.more ≡ true) }
    ensures follows { IfSome result (λ next. Follows before input.old ours.old theirs.old next input.new
        ours.new theirs.new) }
    ensures ready { IfSome result (λ next. Ready (length input.new) (length ours.new) (length theirs.new) next) }
{
    let stream = before.stream;
    let kept = stream.kept;
    let brought = read(rt, &mut input[kept..], file)?;
    let waiting = before.ours;
    let next = records::turn(input, &mut ours[waiting..], stream, brought);
    let mine = waiting + next.put;
    let other = before.theirs;
    Some(compare_next(
        ours,
        theirs,
        mine,
        other,
        Reading {
            stream: next,
            ..before
        },
    ))
}

// One read of the answers, behind those that wait. Nothing where it has failed.
fn answers_turn(
    rt: &impl Eprint,
    input: &[u8],
    ours: &mut [u8],
    theirs: &mut [u8],
    file: &Opened<'_>,
    before: Reading,
) -> Option<Reading>
    requires { Ready (length input.now) (length ours.old) (length theirs.old) before }
    ensures follows { IfSome result (λ next. Follows before input.now ours.old theirs.old next
        input.now ours.new theirs.new) }
    ensures ready { IfSome result (λ next. Ready (length input.now) (length ours.new) (length theirs.new) next) }
{
    let waiting = before.theirs;
    let brought = read(rt, &mut theirs[waiting..], file)?;
    let more = brought > 0;
    let mine = before.ours;
    let other = waiting + brought;
    Some(compare_next(ours, theirs, mine, other, Reading { more, ..before }))
}

// One read of the side that wants more; where neither does, the verdict is told.
fn turn(
    rt: &impl Eprint,
    input: &mut [u8],
    ours: &mut [u8],
    theirs: &mut [u8],
    files: &Files<'_>,
    before: Reading,
) -> Option<Reading>
    requires { Ready (length input.old) (length ours.old) (length theirs.old) before }
    ensures follows { IfSome result (λ next. Follows before input.old ours.old theirs.old next input.new
        ours.new theirs.new) }
    ensures ready { IfSome result (λ next. Ready (length input.new) (length ours.new) (length theirs.new) next) }
{
    let mine = before.ours;
    let other = before.theirs;
    let stream = before.stream;
    if is_wanted(mine, stream.more) {
        return scenes_turn(rt, input, ours, theirs, &files.scenes, before);
    }
    if is_wanted(other, before.more) {
        return answers_turn(rt, input, ours, theirs, &files.answers, before);
    }
    let verdict = comparison::finish(&ours[0..mine], &theirs[0..other], before.place);
    Some(Reading {
        found: Some(verdict),
        ..before
    })
}

// Turn behind turn until a verdict is found; nothing where a read fails. The count only bounds the loop.
fn turns(
    rt: &impl Eprint,
    input: &mut [u8],
    ours: &mut [u8],
    theirs: &mut [u8],
    files: &Files<'_>,
) -> Option<Compared>
    requires { Ready (length input.old) (length ours.old) (length theirs.old) beginning }
{
    let mut reading = Reading {
        stream: Stream::START,
        ours: 0,
        theirs: 0,
        more: true,
        place: 0,
        found: None,
    };
    for _ in 0..u64::MAX {
        reading = turn(rt, input, ours, theirs, files, reading)?;
        if reading.found.is_some() {
            return reading.found;
        }
    }
    None
}

// The buffers: scenes as `feed` reads them, their answers behind a record of ours that waits, and 64 KiB behind one of theirs.
fn compare(rt: &impl Eprint, files: &Files<'_>) -> Option<Compared> {
    let mut input = [0u8; Stream::INPUT];
    let mut ours = [0u8; Stream::OUTPUT + Answer::BYTES];
    let mut theirs = [0u8; 65536 + Answer::BYTES];
    turns(rt, &mut input, &mut ours, &mut theirs, files)
}

// ---- what is told

// A failed line's two bytes as text.
#[derive(Clone, Copy)]
struct Line(u16);

impl fmt::Display for Line {
    fn fmt<W: fmt::Write>(&self, f: &mut fmt::Formatter<W>) -> fmt::Result {
        let failed = self.0;
        if failed == Answer::NO_LINE {
            return write!(f, "none");
        }
        write!(f, "{failed}")
    }
}

// The line of a field's name and its two values, ours and theirs; bits as eight hex digits.
fn tell_difference(rt: &impl Print, difference: Difference) -> io::Result<()> {
    match difference {
        Difference::Outcome(ours, theirs) => println!(rt; "outcome: ours {ours}, theirs {theirs}"),
        Difference::PointX(ours, theirs) => println!(rt; "x: ours {ours:08x}, theirs {theirs:08x}"),
        Difference::PointY(ours, theirs) => println!(rt; "y: ours {ours:08x}, theirs {theirs:08x}"),
        Difference::FailedLine(ours, theirs) => {
            println!(rt; "failed line: ours {}, theirs {}", Line(ours), Line(theirs))
        }
        Difference::Probes(ours, theirs) => println!(rt; "probes: ours {ours}, theirs {theirs}"),
        Difference::Refusal(ours, theirs) => println!(rt; "refusal: ours {ours}, theirs {theirs}"),
        Difference::OutcomeAndRefusal(ours, theirs) => {
            println!(rt; "answer: ours outcome {ours}, theirs refusal {theirs}")
        }
        Difference::RefusalAndOutcome(ours, theirs) => {
            println!(rt; "answer: ours refusal {ours}, theirs outcome {theirs}")
        }
        Difference::NoneOfOurs => println!(rt; "record: ours has none"),
        Difference::NoneOfTheirs => println!(rt; "record: theirs has none"),
    }
}

fn tell(rt: &impl Print, verdict: Compared) -> io::Result<()> {
    match verdict {
        Ok(None) => println!(rt; "all agree"),
        Ok(Some(Differing { place, difference })) => {
            println!(rt; "differs at {place}")?;
            tell_difference(rt, difference)
        }
        Err(UnreadableAt { refusal, place }) => {
            let number = refusal.number();
            println!(rt; "refused {number} at {place}")
        }
    }
}

// ---- files

// What was tried with a file: its value, or none where it failed, which is told by the file's name.
fn told<T>(rt: &impl Eprint, name: &str, tried: io::Result<T>) -> Option<T>
    ensures { result ≡ result_ok tried }
{
    if tried.is_err() {
        let _ = rt.eprint("compare: ");
    }
    troubles::told(rt, name, tried)
}

fn open<'a, R: rt::Files<File = File> + Eprint>(rt: &R, name: &'a str) -> Option<Opened<'a>> {
    let file = told(rt, name, File::open(rt, name))?;
    Some(Opened { file, name })
}

// Nothing where a file cannot be opened or read, or the verdict cannot be told.
fn compare_files<R: rt::Files<File = File> + Print + Eprint>(
    rt: &R,
    scenes: &str,
    answers: &str,
) -> Option<()> {
    let scenes = open(rt, scenes)?;
    let answers = open(rt, answers)?;
    let verdict = compare(rt, &Files { scenes, answers })?;
    troubles::told(rt, "compare: standard output", tell(rt, verdict))
}

fn main(rt: HostRuntime) {
    let mut scenes = [0u8; 4096];
    let first = troubles::argument(&rt, 1, &mut scenes);
    let Some(first) = troubles::told(&rt, "compare: the name of the scenes", first) else {
        return;
    };
    let mut answers = [0u8; 4096];
    let second = troubles::argument(&rt, 2, &mut answers);
    let Some(second) = troubles::told(&rt, "compare: the name of the answers", second) else {
        return;
    };
    compare_files(&rt, first, second);
}
