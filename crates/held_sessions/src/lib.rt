// A session in a caller's memory: four arrays of plain numbers, as C can hold them. Whatever they hold, they say a
// session; and a session is laid out in them in one way.
#![tactic(auto)]

ghost use Rattle.std.specs.Prelude.{◌≡◌, ◌*◌, length};
ghost use Rattle.lines.specs.Lines.{most_lines, numbers_of};
ghost use Rattle.session.specs.Withdrawals.{threes_of};
ghost use Rattle.held_sessions.specs.Blocks.{block, session_in, numbers_in, words_in, block_of, fed_in, left, left_by};

use common::Vec2;
use linear_programming::Phase;
use lines::{Line, Origin};
use pass_2d::Failure;
use session::Session;

// The session that four arrays say, whatever they hold.
// kept: C interface: the caller lends four arrays, each its own argument.
pub fn session_in(
    lines: &[f32; 1024],
    origins: &[u32; 768],
    numbers: &[f32; 6],
    words: &[usize; 8],
) -> Session
    ensures { result ≡ session_in (block lines.now origins.now numbers.now
        words.now) }
{
    let mut held = [Line::new(Vec2::ZERO, Vec2::ZERO); Line::MOST];
    let mut known = [Origin::UNKNOWN; Line::MOST];
    for i in 0..Line::MOST {
        held[i] = lines::line_at(lines, i);
        known[i] = lines::origin_at(origins, i);
    }
    Session {
        lines: held,
        origins: known,
        count: words[0],
        rigid: words[1],
        wish: Vec2::new(numbers[0], numbers[1]),
        limit: numbers[2],
        phase: plain_numbers::phase_in(words[2], words[3], numbers[3], numbers[4], numbers[5]),
        failed: plain_numbers::failed_in(words[4], words[5], words[6]),
        probes: (words[7] % 4294967296) as u32,
    }
}

// Lines and their origins laid out as numbers.
fn put_lines(held: &[Line], known: &[Origin], lines: &mut [f32], origins: &mut [u32])
    requires holds { (length held.now ≡ most_lines) × (length known.now ≡ most_lines) }
    requires takes { (length lines.old ≡ 4 * most_lines) × (length origins.old ≡ 3 * most_lines) }
    ensures lines { lines.new ≡ numbers_of held.now }
    ensures origins { origins.new ≡ threes_of known.now }
{
    for n in 0..Line::MOST {
        lines::put_line(lines, n, held[n]);
        lines::put_origin(origins, n, known[n]);
    }
}

// Wish, limit, point and penetration, which is 0 where nothing is relaxed.
fn numbers_of(wish: Vec2, limit: f32, phase: Phase) -> [f32; 6]
    ensures { result ≡ numbers_in wish limit phase }
{
    match phase {
        Phase::Solving(p) => [wish.x, wish.y, limit, p.x, p.y, 0.0],
        Phase::Relaxing(p, penetration) => [wish.x, wish.y, limit, p.x, p.y, penetration],
        Phase::RigidFailure(_, p) => [wish.x, wish.y, limit, p.x, p.y, 0.0],
    }
}

// Line count, rigid count, phase and the index of a rigid failure, cause and index of the failed line, the earlier line
// that the cause names, probes.
fn words_of(session: &Session) -> [usize; 8]
    ensures { result ≡ words_in session.now.count session.now.rigid session.now.phase session.now.failed session.now.probes }
{
    let failed = session.failed;
    [
        session.count,
        session.rigid,
        plain_numbers::phase_kind(session.phase) as usize,
        plain_numbers::phase_index(session.phase),
        plain_numbers::failed_kind(failed) as usize,
        plain_numbers::failed_index(failed),
        plain_numbers::failed_cause(failed),
        session.probes as usize,
    ]
}

// A session laid out in four arrays.
#[tactic(auto, unfolding(crate::specs::Blocks::block_of))]
pub fn put_session(
    session: Session,
    lines: &mut [f32; 1024],
    origins: &mut [u32; 768],
    numbers: &mut [f32; 6],
    words: &mut [usize; 8],
)
    ensures { block lines.new origins.new numbers.new words.new
        ≡ block_of session }
{
    put_lines(&session.lines, &session.origins, lines, origins);
    *numbers = numbers_of(session.wish, session.limit, session.phase);
    *words = words_of(&session);
}

// What a call on a session answered, nothing or the number of a refusal, and the session that it left, told in the four
// arrays: 0, and they say the session; or the number, whichever it is, and they are as they were.
#[tactic(auto, unfolding(crate::specs::Blocks::left_by))]
pub fn leave(
    judged: Result<(), u8>,
    session: &Session,
    lines: &mut [f32; 1024],
    origins: &mut [u32; 768],
    numbers: &mut [f32; 6],
    words: &mut [usize; 8],
) -> u32
    ensures { left result (block lines.new origins.new numbers.new words.new)
        ≡ left_by (fed_in judged session.now) (block lines.old origins.old numbers.old words.old) }
{
    if judged.is_ok() {
        put_session(*session, lines, origins, numbers, words);
    }
    match judged {
        Ok(()) => 0,
        Err(number) => number as u32,
    }
}
