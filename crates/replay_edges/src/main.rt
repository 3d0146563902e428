// Replays the set `edges`: the lines that the Rust gives for an agent and an obstacle, or the number of the refusal
// where one of them is not admitted or the obstacle is at fault. A record is, in words: kind, how many numbers, answer
// (how many lines, or 100 + the number of a refusal), count of the vertices (2), position (2), velocity (2), margin,
// horizon; the numbers, two a vertex; then the lines, four numbers each.
#![tactic(auto)]

ghost use Rattle.std.specs.Prelude.{◌≡◌, ◌<◌, ◌≤◌, length};
ghost use Rattle.replay_edges.specs.EdgesSet.{long_at, are_numbers, is_answer, is_replayed};

use admission::{Head, Refusal};
use edges::Agent;
use obstacles::ObstacleLines;
use replay_records::{Walk, agrees, first_numbers, number_at, vector_at};

// How many lines stand behind the numbers: none where the answer is a refusal.
fn line_count(answer: u32) -> usize
    ensures { result < 100 }
{
    if answer < 100 { answer as usize } else { 0 }
}

// Whether the record's answer is the one that `obstacles` gives.
#[tactic(auto, unfolding(crate::specs::EdgesSet::is_replayed))]
fn is_replayed(head: &[u8], rest: &[u8]) -> bool
    ensures { result ≡ is_replayed head.now rest.now }
{
    let kind = words::word_at(head, 0);
    if kind > 255 {
        return false;
    }
    let count = words::word_at(head, 4) as usize;
    if count > 384 {
        return false;
    }
    let agent = Agent {
        position: vector_at(head, 20),
        velocity: vector_at(head, 28),
    };
    let numbers = first_numbers(rest, count);
    let made = obstacles::get_lines_for_agent_to_obstacle(
        agent,
        kind as u8,
        &numbers[..count],
        long_at(head, 12),
        number_at(head, 36),
        number_at(head, 40),
    );
    is_answer(words::word_at(head, 8), rest, 4 * count, made)
}

// The two words at the place as one number, the high one first.
// kept: no plainer: a place within a record, as the set has it
#[tactic(auto, unfolding(crate::specs::EdgesSet::long_at))]
fn long_at(bytes: &[u8], at: usize) -> usize
    requires { at < 65536 }
    ensures { result ≡ long_at bytes.now at }
{
    let high = words::word_at(bytes, at) as usize;
    high * 0x1_0000_0000 + words::word_at(bytes, at + 4) as usize
}

// Whether the lines, or the refusal, are the answer, with its lines at the place.
#[tactic(auto, unfolding(crate::specs::EdgesSet::is_answer, crate::specs::EdgesSet::is_lines_or_refusal))]
fn is_answer(answer: u32, bytes: &[u8], at: usize, made: Result<ObstacleLines, Refusal>) -> bool
    requires { at < 65536 }
    ensures { result ≡ is_answer answer bytes.now at made }
{
    match made {
        Ok(found) => {
            if found.count > Head::MOST {
                return false;
            }
            let lines = found.lines;
            answer as usize == found.count && are_numbers(bytes, at, &lines[..4 * found.count])
        }
        Err(refusal) => answer == 100 + refusal.number() as u32,
    }
}

// Whether the numbers are those at the place, bit for bit but for the sign of a zero.
#[tactic(auto, unfolding(crate::specs::EdgesSet::are_numbers))]
fn are_numbers(bytes: &[u8], at: usize, numbers: &[f32]) -> bool
    requires { (at < 65536) × (length numbers.now ≤ 256) }
    ensures { result ≡ are_numbers bytes.now at numbers.now (length numbers.now) }
{
    let mut all = true;
    for (i, number) in numbers.iter().enumerate() {
        all &= agrees(*number, words::word_at(bytes, at + 4 * i));
    }
    all
}

// How many bytes a head says are behind it: the obstacle's numbers, and the lines that answer it.
fn rest_length(head: &[u8]) -> usize {
    4 * (words::word_at(head, 4) as usize) + 16 * line_count(words::word_at(head, 8))
}

// One record more: read, and compared.
fn turn(walk: Walk, head: &mut [u8], rest: &mut [u8]) -> Walk
    requires { 0 < walk.left }
    ensures { result.left < walk.left }
{
    let begun = walk.read_head(head);
    let read = begun.read_rest(rest_length(head), rest);
    if read.left == 0 {
        return read;
    }
    let tally = read.tally;
    let index = read.index();
    read.behind(tally.with(is_replayed(head, rest), index))
}

// The walk to its end.
fn walked(start: Walk) -> Walk {
    let mut walk = start;
    let mut head: [u8; 44] = [0; 44];
    // The longest rest: 192 vertices and 99 lines.
    let mut rest: [u8; 3120] = [0; 3120];
    // kept: no plainer: a walk is over where its file is
    while walk.left > 0 {
        walk = turn(walk, &mut head, &mut rest);
    }
    walk
}

fn main(rt: HostRuntime) {
    walked(Walk::open(&rt, b"edges")).tell(&rt, b"edges");
}
