// Replays the set `histories`: the calls of sessions one after the other, each with how it is judged and how the
// session stands then, by the Rust's answer for the lines that stand. A record is one call; the session goes on from
// record to record, up to the next start. Where each word of a head stands is below.
#![tactic(auto)]

ghost use Rattle.std.specs.Prelude.{◌≡◌, ◌<◌, ◌≤◌, length};
ghost use Rattle.session.specs.Calls.{fed_of};
ghost use Rattle.session.specs.Sessions.{blank_session, started_as};

use admission::{Judged, Refusal};
use common::Vec2;
use linear_programming::Phase;
use lines::{Line, Origin};
use replay_records::{Walk, first_numbers, number_at, vector_at};
use replay_standings::is_standing;
use session::Session;

// A number of a head. From 0 on: how many bytes come behind the head, the call's kind, its two arguments, how it is
// judged, the line count, the rigid count, how many numbers of origins are told, the answer (seven), the wish (two; of
// a change by origin the kind and the place), and of a change how many indices there are, or were withdrawn.
fn size_at(head: &[u8], at: usize) -> usize
    ensures { result < 4294967296 }
{
    words::word_at(head, at) as usize
}

// Reads words, one behind the other.
fn read_words(bytes: &[u8], words: &mut [u32])
    requires { length words.old ≤ 776 }
{
    for (i, word) in words.iter_mut().enumerate() {
        *word = words::word_at(bytes, 4 * i);
    }
}

// The call of a record, made of the session, and how it is judged: nothing where no record is of it, or where it tells
// another thing than the record has.
fn called(session: &mut Session, head: &[u8], rest: &[u8]) -> Option<Judged> {
    let index = size_at(head, 8);
    match words::word_at(head, 4) {
        0 => Some(started(session, vector_at(head, 60), number_at(head, 12), index)),
        1 => Some(session.batch(batch_of(head, rest).numbers())),
        2 => {
            let batch = batch_of(head, rest);
            Some(session.batch_with_origins(batch.numbers(), batch.origins()))
        }
        3 | 4 => Some(session.withdraw(index)),
        5 => asked(session, head, rest),
        6 => Some(changed(session, head, rest)),
        7 => changed_by_origin(session, head, rest),
        _ => None,
    }
}

// A session that starts in place of the one before; where it is refused, a blank one does.
fn started(session: &mut Session, wish: Vec2, limit: f32, rigid: usize) -> Judged
    ensures { fed_of result session.new ≡ started_as wish limit rigid }
{
    *session = blank();
    *session = Session::start(wish, limit, rigid)?;
    Ok(())
}

// The session that stands beside a refusal to start: nothing is wished, and nothing stands in the way.
#[tactic(auto, unfolding(session::specs::Sessions::blank_session, session::specs::Sessions::blank_lines, session::specs::Sessions::blank_origins))]
fn blank() -> Session
    ensures { result ≡ blank_session }
{
    Session {
        lines: [Line::new(Vec2::ZERO, Vec2::ZERO); Line::MOST],
        origins: [Origin::UNKNOWN; Line::MOST],
        count: 0,
        rigid: 0,
        wish: Vec2::ZERO,
        limit: 0.0,
        phase: Phase::Solving(Vec2::ZERO),
        failed: None,
        probes: 0,
    }
}

// The numbers of a record's lines and of their origins, and the indices of a change, so many of each, and then zeros.
#[derive(Clone, Copy)]
struct Batch {
    lines: [f32; 1280],
    count: usize,
    brought: [u32; 776],
    known: usize,
    indices: [usize; 264],
    gone: usize,
    ghost few: { count ≤ 1280 },
    ghost few_known: { known ≤ 776 },
    ghost few_gone: { gone ≤ 264 },
}

impl Batch {
    fn numbers(&self) -> &[f32] {
        &self.lines[..self.count]
    }

    fn origins(&self) -> &[u32] {
        &self.brought[..self.known]
    }

    fn withdrawn(&self) -> &[usize] {
        &self.indices[..self.gone]
    }
}

// The batch of a record, behind the origins that are told, and the indices behind it; nothing of each where the record
// does not hold as many numbers as its head says, or there are more than any has.
fn batch_of(head: &[u8], rest: &[u8]) -> Batch {
    let told = 4 * size_at(head, 28);
    let count = size_at(head, 8);
    let known = named_origins(head);
    let gone = named_indices(head);
    let behind = told + 4 * count + 4 * known;
    if count > 1280 || known > 776 || gone > 264 || behind > rest.len() {
        return Batch {
            lines: [0.0; 1280],
            count: 0,
            brought: [0; 776],
            known: 0,
            indices: [0; 264],
            gone: 0,
        };
    }
    let mut brought = [0u32; 776];
    read_words(&rest[told + 4 * count..], &mut brought[..known]);
    let mut indices = [0u32; 264];
    read_words(&rest[behind..], &mut indices[..gone]);
    Batch {
        lines: first_numbers(&rest[told..], count),
        count,
        brought,
        known,
        indices: indices.map(|index| index as usize),
        gone,
    }
}

// How many numbers of origins a batch brings: a question brings none.
fn named_origins(head: &[u8]) -> usize
    ensures { result < 4294967296 }
{
    if words::word_at(head, 4) == 5 {
        return 0;
    }
    size_at(head, 12)
}

// How many indices a change has.
fn named_indices(head: &[u8]) -> usize
    ensures { result < 4294967296 }
{
    if words::word_at(head, 4) == 6 {
        return size_at(head, 68);
    }
    0
}

// The change of a record.
fn changed(session: &mut Session, head: &[u8], rest: &[u8]) -> Judged {
    let batch = batch_of(head, rest);
    session.change(batch.withdrawn(), batch.numbers(), batch.origins())
}

// The change by origin of a record, which withdraws as many lines as the record has: else the session is as it was.
fn changed_by_origin(session: &mut Session, head: &[u8], rest: &[u8]) -> Option<Judged> {
    let before = *session;
    let batch = batch_of(head, rest);
    let kind = words::word_at(head, 60);
    let place = words::word_at(head, 64);
    let changed = session.change_origin(kind, place, batch.numbers(), batch.origins());
    if changed.unwrap_or(0) != size_at(head, 68) {
        *session = before;
        return None;
    }
    Some(changed.map(|_| ()))
}

// What a session answers about the batch of a record, which leaves it as it is: the line that the record names, by its
// index, or FFFFFFFF for none.
fn asked(session: &Session, head: &[u8], rest: &[u8]) -> Option<Judged> {
    let batch = batch_of(head, rest);
    match session.first_unmet(batch.numbers()) {
        Ok(unmet) if unmet.unwrap_or(0xffff_ffff) == size_at(head, 12) => Some(Ok(())),
        Ok(_) => None,
        Err(refusal) => Some(Err(refusal)),
    }
}

// Whether a call was judged as the record has it: 0 taken, else the number of the refusal.
fn is_judged(head: &[u8], judged: Option<Judged>) -> bool {
    let word = words::word_at(head, 16);
    match judged {
        Some(Ok(())) => word == 0,
        Some(Err(refusal)) => word == refusal.number() as u32,
        None => false,
    }
}

// Whether all origins are those that are told, and unknown behind them.
fn are_origins(origins: &[Origin], head: &[u8], rest: &[u8]) -> bool {
    let told = size_at(head, 28);
    if told > 768 {
        return false;
    }
    let mut words = [0u32; 768];
    read_words(rest, &mut words[..told]);
    origins
        .iter()
        .enumerate()
        .all(|(i, origin)| *origin == lines::origin_at(&words, i))
}

// Whether the session stands as the record has it, with as many lines, its rigid count and its origins.
fn stands(session: &Session, head: &[u8], rest: &[u8]) -> bool {
    session.count == size_at(head, 20)
        && session.rigid == size_at(head, 24)
        && are_origins(&session.origins, head, rest)
        && is_standing(head, 32, session.phase, session.failed, session.probes)
}

// Whether a session with more lines than it holds gets 4, whatever is asked of it: before an index (15), numbers and
// origins (2) are looked at.
fn is_forged_refused(given: &Session, head: &[u8]) -> bool {
    let mut forged = Session {
        count: Line::MOST + 1,
        ..*given
    };
    let index = size_at(head, 8);
    let five = [0.0f32; 5];
    forged.withdraw(index) == Err(Refusal::TooMany)
        && forged.change(&[index], &five, &[0]) == Err(Refusal::TooMany)
        && forged.change_origin(0, 0, &five, &[0]) == Err(Refusal::TooMany)
        && forged.first_unmet(&five) == Err(Refusal::TooMany)
}

// A record that was read: the call made, and compared. Kind 4 is only tried: the next call is made of the session before.
fn replayed(read: Walk, session: &mut Session, head: &[u8], rest: &[u8]) -> Walk
    requires { 0 < read.left }
    ensures { result.left < read.left }
{
    let before = *session;
    let judged = called(session, head, rest);
    let good = is_judged(head, judged)
        && stands(session, head, rest)
        && is_forged_refused(&before, head);
    if words::word_at(head, 4) == 4 {
        *session = before;
    }
    let tally = read.tally;
    let index = read.index();
    read.behind(tally.with(good, index))
}

// One record more: read, and replayed.
fn turn(walk: Walk, session: &mut Session, head: &mut [u8], rest: &mut [u8]) -> Walk
    requires { 0 < walk.left }
    ensures { result.left < walk.left }
{
    let begun = walk.read_head(head);
    let read = begun.read_rest(size_at(head, 0), rest);
    if read.left == 0 {
        return read;
    }
    replayed(read, session, head, rest)
}

// The walk to its end.
fn walked(start: Walk) -> Walk {
    let mut walk = start;
    let mut session = blank();
    let mut head: [u8; 72] = [0; 72];
    // 256 origins that stand; 257 lines, and as many origins; 264 indices.
    let mut rest: [u8; 11324] = [0; 11324];
    // kept: no plainer: a walk is over where its file is
    while walk.left > 0 {
        walk = turn(walk, &mut session, &mut head, &mut rest);
    }
    walk
}

fn main(rt: HostRuntime) {
    walked(Walk::open(&rt, b"histories")).tell(&rt, b"histories");
}
