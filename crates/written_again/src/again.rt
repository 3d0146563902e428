// One record read, its parts lent and written again, to buffers of several lengths.
ghost use Rattle.std.specs.Prelude.{◌≤◌};

use admission::Refusal;
use dodgy_2d::Scene;
use scene_records::Cart;
use verdict::Tally;

// What stands in a buffer before the writer is called.
const SENTINEL: u8 = 0xa5;

// The tally with the record in the first `end` bytes; as it is, where the reader refuses that record.
pub(crate) fn with_record(tally: Tally, bytes: &[u8], end: usize, index: u32) -> Tally {
    if end > bytes.len() {
        return tally.with(false, index);
    }
    match scene_records::read_scene_version_1(&bytes[..end]) {
        Ok(scene) => tally.with(is_written_again(&scene, &bytes[..end]), index),
        Err(_) => tally,
    }
}

// A record of up to 128 bytes is written to buffers of every length; a longer one from one byte less on.
fn first_length(size: usize) -> usize
    ensures { result ≤ size }
{
    if size > 128 { size - 1 } else { 0 }
}

// Whether a scene is written to its record, in buffers of up to one byte more than the record's.
fn is_written_again(scene: &Scene, bytes: &[u8]) -> bool {
    let size = bytes.len();
    if size > 2633 {
        return false;
    }
    for k in first_length(size)..size + 2 {
        if !is_written_to(scene, bytes, k) {
            return false;
        }
    }
    true
}

// Whether the scene's parts, lent up to its counts, are written as promised to a buffer of k bytes.
fn is_written_to(scene: &Scene, bytes: &[u8], k: usize) -> bool
    requires { k ≤ 2640 }
{
    let n = scene.obstacles;
    let m = scene.neighbours;
    let Ok(total) = layouts::judge_layout(n, &scene.kinds, &scene.counts, &scene.vertices) else {
        return false;
    };
    if n > Scene::MOST_OBSTACLES || total > 192 || m > Scene::MOST_NEIGHBOURS {
        return false;
    }
    let mut buffer = [SENTINEL; 2640];
    let written = scene_writer::write_scene(
        cart_of(scene),
        n,
        &scene.kinds[..n],
        &scene.counts[..n],
        &scene.vertices[..2 * total],
        m,
        &scene.lines[..4 * m],
        &mut buffer[..k],
    );
    is_as_promised(written, &buffer[..k], bytes)
}

fn cart_of(scene: &Scene) -> Cart {
    Cart {
        agent: scene.agent,
        margin: scene.margin,
        horizon: scene.horizon,
        wish: scene.wish,
        limit: scene.limit,
    }
}

// Where the record fits, its length is told and it stands at the buffer's start; else 10 is told. All else is as it was.
fn is_as_promised(written: Result<usize, Refusal>, buffer: &[u8], bytes: &[u8]) -> bool {
    let fits = bytes.len() <= buffer.len();
    match written {
        Ok(length) => fits && length == bytes.len() && holds(buffer, bytes),
        Err(refusal) => !fits && refusal == Refusal::NoRoom && holds(buffer, &[]),
    }
}

// Whether a buffer holds a record's bytes, and behind them what stood there.
fn holds(buffer: &[u8], bytes: &[u8]) -> bool {
    match buffer.strip_prefix(bytes) {
        Some(rest) => rest.iter().all(|byte| *byte == SENTINEL),
        None => false,
    }
}
