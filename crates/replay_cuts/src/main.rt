// Replays the set `cuts`: admitted line lists, each with the Rust's answers to its first lines, from none to all. They
// go to sessions in batches that are cut in several ways, with origins and without, and after each batch, refused ones
// too, the session must stand as the answer to the lines so far, and have the origins that they were fed with. The
// tally counts these comparisons.
#![tactic(auto)]

ghost use Rattle.std.specs.Prelude.{◌≡◌, ◌+◌, ◌-◌, ◌/◌, ◌≤◌, ◌<◌, length, min};
ghost use Rattle.session.specs.Calls.{fed_of};
ghost use Rattle.session.specs.Sessions.{blank_session, started_as};

use admission::{Judged, Refusal};
use common::Vec2;
use linear_programming::Phase;
use lines::{Line, Origin};
use replay_records::{Walk, first_numbers, number_at, vector_at};
use replay_standings::is_standing;
use session::Session;
use verdict::Tally;

// A list's lines as numbers, numbers for their origins, and the answers to its first lines, from none to all.
#[derive(Clone, Copy)]
struct List<'a> {
    numbers: &'a [f32],
    origins: &'a [u32],
    answers: &'a [u8],
    ghost few: { length numbers.now ≤ 1024 },
    ghost known: { length origins.now ≡ 768 },
}

// A session on its way through a list: the origins that it was fed, how many lines, the last number drawn, the record's
// name, and the comparisons so far.
#[derive(Clone, Copy)]
struct Feeding<'a> {
    list: List<'a>,
    session: Session,
    kept: [Origin; Line::MOST],
    place: usize,
    drawn: u32,
    name: u32,
    tally: Tally,
    ghost among: { place ≤ length list.numbers.now / 4 },
}

// How lines are cut into batches: one each; 0 to 5, as drawn; one each with an empty batch before it, or with refused ones.
#[derive(Clone, Copy)]
enum Cut {
    Single,
    Drawn,
    Spaced,
    Refusing,
}

impl Feeding<'_> {
    // All lines in batches of the cut, with one more at the end for those that are left.
    fn feed_all(&mut self, cut: Cut) {
        let lines = self.list.numbers.len() / 4;
        for _ in 0..lines {
            self.feed_next(cut);
        }
        self.feed(lines);
    }

    // One batch of the cut, and what goes before it.
    fn feed_next(&mut self, cut: Cut) {
        match cut {
            Cut::Single => self.feed(1),
            Cut::Drawn => self.feed_drawn(),
            Cut::Spaced => {
                self.feed(0);
                self.feed(1)
            }
            Cut::Refusing => {
                self.feed_refused();
                self.feed(1)
            }
        }
    }

    // A batch of 0 to 5 lines, as drawn.
    fn feed_drawn(&mut self) {
        self.drawn = draw(self.drawn);
        self.feed((self.drawn / 10923) as usize)
    }

    // A batch of the next `size` lines, or of those that are left: never refused. By its place and the record, every
    // third brings no origins.
    fn feed(&mut self, size: usize)
        ensures { self.new.place ≡ self.old.place + min size (length self.old.list.numbers.now / 4 - self.old.place) }
    {
        let from = self.place;
        let numbers = self.list.numbers;
        let place = from + size.min(numbers.len() / 4 - from);
        let batch = &numbers[4 * from..4 * place];
        let judged = if (from + self.name as usize) % 3 == 0 {
            self.session.batch(batch)
        } else {
            let origins = self.list.origins;
            keep(&mut self.kept[from..place], origins, from);
            self.session
                .batch_with_origins(batch, &origins[3 * from..3 * place])
        };
        self.place = place;
        self.compare(judged, Ok(()), place)
    }

    // Batches with each fault of a batch, without origins and with them.
    fn feed_refused(&mut self)
        ensures { self.new.place ≡ self.old.place }
    {
        self.feed_miscounts();
        self.feed_faults();
        self.feed_refused_origins()
    }

    // Five numbers (2), and more lines than there is room for (4).
    fn feed_miscounts(&mut self)
        ensures { self.new.place ≡ self.old.place }
    {
        let many = [f32::NAN; 1028];
        self.refuse(&[f32::NAN; 5], Refusal::MissingOrLeftOver);
        self.refuse(&many[0..4 * (257 - self.place)], Refusal::TooMany)
    }

    // Two lines, the second a NaN (6) or out of its band (7).
    fn feed_faults(&mut self)
        ensures { self.new.place ≡ self.old.place }
    {
        let unknown = [0.0, 4096.0, 1.0, 0.0, f32::NAN, 0.0, 1.0, 0.0];
        let steep = [0.0, 4096.0, 1.0, 0.0, 0.0, 0.0, 1.0, 1.0];
        self.refuse(&unknown, self.told_of_two(Refusal::OutOfRange));
        self.refuse(&steep, self.told_of_two(Refusal::OutOfBand))
    }

    // The same with origins: another count of them (2), and the right one beside a line at fault, whose origins must
    // not be kept.
    fn feed_refused_origins(&mut self)
        ensures { self.new.place ≡ self.old.place }
    {
        let two = [0.0, 4096.0, 1.0, 0.0, f32::NAN, 0.0, 1.0, 0.0];
        self.feed_miscounted_origins();
        self.feed_origins_alone();
        self.refuse_with(
            &two,
            &[1, 2, 3, 4, 5, 6],
            self.told_of_two(Refusal::OutOfRange),
        )
    }

    // Too few and too many origins beside a line (2).
    fn feed_miscounted_origins(&mut self)
        ensures { self.new.place ≡ self.old.place }
    {
        let one = [0.0, 4096.0, 1.0, 0.0];
        self.refuse_with(&one, &[1, 2], Refusal::MissingOrLeftOver);
        self.refuse_with(&one, &[1, 2, 3, 4], Refusal::MissingOrLeftOver)
    }

    // Origins beside no line, and one number beside more lines than there is room for: 2, told before room is looked for.
    fn feed_origins_alone(&mut self)
        ensures { self.new.place ≡ self.old.place }
    {
        let many = [f32::NAN; 1028];
        self.refuse_with(&[], &[1, 2, 3], Refusal::MissingOrLeftOver);
        self.refuse_with(
            &many[0..4 * (257 - self.place)],
            &[1],
            Refusal::MissingOrLeftOver,
        )
    }

    // What is told of two lines with a fault: too many comes first, where there is no room for two.
    fn told_of_two(&self, fault: Refusal) -> Refusal {
        if self.place > 254 {
            Refusal::TooMany
        } else {
            fault
        }
    }

    // A session with more lines than it holds gets 4 whatever the batch: for numbers that are no whole lines, too, and a
    // wrong count of origins beside them.
    fn feed_forged(&mut self) {
        self.session.count = Line::MOST + 1;
        self.refuse(&[], Refusal::TooMany);
        self.refuse(&[0.0; 5], Refusal::TooMany);
        self.refuse_with(&[0.0; 5], &[0], Refusal::TooMany)
    }

    // A batch that must be refused.
    fn refuse(&mut self, numbers: &[f32], refusal: Refusal)
        ensures { self.new.place ≡ self.old.place }
    {
        let count = self.session.count;
        let judged = self.session.batch(numbers);
        self.compare(judged, Err(refusal), count)
    }

    // The same for a batch that brings origins.
    fn refuse_with(&mut self, numbers: &[f32], origins: &[u32], refusal: Refusal)
        ensures { self.new.place ≡ self.old.place }
    {
        let count = self.session.count;
        let judged = self.session.batch_with_origins(numbers, origins);
        self.compare(judged, Err(refusal), count)
    }

    // Compares what a call left: it was judged as expected, and the session has `count` lines and the origins that were
    // fed, and stands as the answer at the place.
    fn compare(&mut self, judged: Judged, expected: Judged, count: usize)
        ensures { self.new.place ≡ self.old.place }
    {
        let session = &self.session;
        let good = judged == expected
            && session.count == count
            && session.origins == self.kept
            && is_standing(
                self.list.answers,
                (28 * self.place) as u16,
                session.phase,
                session.failed,
                session.probes,
            );
        self.tally = self.tally.with(good, self.name);
    }
}

// The origins of lines, as they are fed from a place on.
fn keep(kept: &mut [Origin], origins: &[u32], from: usize)
    requires { from ≤ 256 }
{
    for (i, origin) in kept.iter_mut().enumerate() {
        *origin = lines::origin_at(origins, from + i);
    }
}

// The number behind the last one drawn, below 65,537.
fn draw(last: u32) -> u32
    ensures { result < 65537 }
{
    (last % 65537 * 17364 + 1) % 65537
}

// Numbers of all sizes for the origins of 256 lines.
fn drawn_origins(name: u32) -> [u32; 768] {
    let mut origins = [0u32; 768];
    let mut drawn = name % 65537;
    for origin in origins.iter_mut() {
        drawn = draw(drawn);
        *origin = drawn * 65535;
    }
    origins
}

// Starts a session; where it is refused, it is a blank one.
fn started(session: &mut Session, wish: Vec2, limit: f32, rigid: usize) -> Judged
    ensures { fed_of result session.new ≡ started_as wish limit rigid }
{
    *session = blank();
    *session = Session::start(wish, limit, rigid)?;
    Ok(())
}

// The session that stands beside a refusal to start: nothing is wished, and nothing stands in the way.
#[tactic(auto, unfolding(session::specs::Sessions::blank_session, session::specs::Sessions::blank_lines, session::specs::Sessions::blank_origins))]
fn blank() -> Session
    ensures { result ≡ blank_session }
{
    Session {
        lines: [Line::new(Vec2::ZERO, Vec2::ZERO); Line::MOST],
        origins: [Origin::UNKNOWN; Line::MOST],
        count: 0,
        rigid: 0,
        wish: Vec2::ZERO,
        limit: 0.0,
        phase: Phase::Solving(Vec2::ZERO),
        failed: None,
        probes: 0,
    }
}

// The tally with the comparisons of a record, of a blank session where the start is refused. One with numbers left over,
// or more than its bytes hold, is bad.
fn with_record(tally: Tally, head: &[u8], rest: &[u8], name: u32) -> Tally {
    let count = words::word_at(head, 0) as usize;
    if count > 4 * Line::MOST || count % 4 != 0 || 4 * count > rest.len() {
        return tally.with(false, name);
    }
    let rigid = words::word_at(head, 4) as usize;
    let mut session = blank();
    let judged = started(&mut session, vector_at(head, 12), number_at(head, 8), rigid);
    let numbers = first_numbers(rest, count);
    let origins = drawn_origins(name);
    let list = List {
        numbers: &numbers[0..count],
        origins: &origins,
        answers: &rest[4 * count..],
    };
    let begun = Feeding {
        list,
        session,
        kept: [Origin::UNKNOWN; Line::MOST],
        place: 0,
        drawn: name,
        name,
        tally,
    };
    with_cuts(begun, judged)
}

// The tally with the comparisons of a session as it was started, and of all cuts, each from there.
fn with_cuts(begun: Feeding, judged: Judged) -> Tally {
    let mut feeding = begun;
    feeding.compare(judged, Ok(()), 0);
    let begun = feeding;
    feeding.feed(begun.list.numbers.len() / 4);
    let mut tally = feeding.tally;
    for cut in [Cut::Single, Cut::Drawn, Cut::Spaced, Cut::Refusing] {
        tally = with_cut(begun, tally, cut);
    }
    tally
}

// The tally with the comparisons of one cut, and of what is refused once all lines are fed.
fn with_cut(begun: Feeding, tally: Tally, cut: Cut) -> Tally {
    let mut feeding = begun;
    feeding.tally = tally;
    feeding.feed_all(cut);
    feeding.feed_refused();
    feeding.feed_forged();
    feeding.tally
}

// How many bytes a head says are behind it: the list's numbers, and an answer for none and for each line.
fn rest_length(head: &[u8]) -> usize {
    11 * (words::word_at(head, 0) as usize) + 28
}

// One record more: read, and compared.
fn turn(walk: Walk, head: &mut [u8], rest: &mut [u8]) -> Walk
    requires { 0 < walk.left }
    ensures { result.left < walk.left }
{
    let begun = walk.read_head(head);
    let read = begun.read_rest(rest_length(head), rest);
    if read.left == 0 {
        return read;
    }
    let tally = read.tally;
    let index = read.index();
    read.behind(with_record(tally, head, rest, index))
}

// The walk to its end.
fn walked(start: Walk) -> Walk {
    let mut walk = start;
    let mut head: [u8; 20] = [0; 20];
    // The longest rest: 256 lines, 44 bytes each, and an answer.
    let mut rest: [u8; 11292] = [0; 11292];
    // kept: no plainer: a walk is over where its file is
    while walk.left > 0 {
        walk = turn(walk, &mut head, &mut rest);
    }
    walk
}

fn main(rt: HostRuntime) {
    walked(Walk::open(&rt, b"cuts")).tell(&rt, b"cuts");
}
