// Replays the set `failures`: scenes that are not refused, each with what an answer record does not carry, the cause
// and the origin of the last pass's failed line. A record is its head (how many bytes the scene has, the failed line,
// its cause, its origin) and the scene's record.
#![tactic(auto)]

ghost use Rattle.std.specs.Prelude.{◌<◌};

use dodgy_2d::SceneAnswer;
use lines::Origin;
use replay_records::Walk;
use replay_standings::is_failed;

// Whether failed line, cause and origin are those that the head has. A record that is not read, or is refused, is bad.
fn is_replayed(head: &[u8], rest: &[u8]) -> bool {
    let Some(record) = rest.get(..words::word_at(head, 0) as usize) else {
        return false;
    };
    let Ok(scene) = scene_records::read_scene_version_1(record) else {
        return false;
    };
    let Ok(answer) = dodgy_2d::compute_avoiding_velocity(scene) else {
        return false;
    };
    is_failed(
        words::word_at(head, 4),
        words::word_at(head, 8),
        answer.failed,
    ) && SceneAnswer::origin::<u8>(Ok(by_number(answer))) == origin_at(head)
}

// The answer with its outcome's number, as a caller may keep it: its origin is asked whatever tells the outcome.
fn by_number(answer: SceneAnswer) -> SceneAnswer<u8> {
    SceneAnswer {
        outcome: answer.outcome.number(),
        velocity: answer.velocity,
        failed: answer.failed,
        probes: answer.probes,
        origin: answer.origin,
    }
}

// The origin that the head's last three words tell.
fn origin_at(head: &[u8]) -> Origin {
    Origin {
        kind: words::word_at(head, 12),
        place: words::word_at(head, 16),
        vertex: words::word_at(head, 20),
    }
}

// One record more: read, and compared.
fn turn(walk: Walk, head: &mut [u8], rest: &mut [u8]) -> Walk
    requires { 0 < walk.left }
    ensures { result.left < walk.left }
{
    let begun = walk.read_head(head);
    let read = begun.read_rest(words::word_at(head, 0) as usize, rest);
    if read.left == 0 {
        return read;
    }
    let tally = read.tally;
    let index = read.index();
    read.behind(tally.with(is_replayed(head, rest), index))
}

// The walk to its end.
fn walked(start: Walk) -> Walk {
    let mut walk = start;
    let mut head: [u8; 24] = [0; 24];
    // The longest scene record.
    let mut rest: [u8; 2633] = [0; 2633];
    // kept: no plainer: a walk is over where its file is
    while walk.left > 0 {
        walk = turn(walk, &mut head, &mut rest);
    }
    walk
}

fn main(rt: HostRuntime) {
    walked(Walk::open(&rt, b"failures")).tell(&rt, b"failures");
}
