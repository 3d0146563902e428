// Scene records: answered, read, written, moved between the versions.
ghost use Rattle.std.specs.Prelude.{◌≡◌};
ghost use Rattle.admission.specs.Refusals.{number_of};
ghost use Rattle.scene_records.specs.declared.Version.TheVariants.{One, Two};
ghost use Rattle.scene_records.specs.Versions.{scene_in};
ghost use Rattle.scene_writer.specs.Writing.{written_scene};
ghost use Rattle.scene_moves.specs.Moves.{moved_into};
ghost use Rattle.records.specs.Answered.{scene_answer_to, record_outcome};
ghost use Rattle.index_building.specs.Indexes.{standing};
ghost use Rattle.boltmeadow.specs.Scenes.{answer_told, numbers_of, numbers_told, refused_scene, answer_left, cart_of, scene_by, scene_told, no_scene, cart_in, written_told, written_left};

use admission::Refusal;
use common::Vec2;
use dodgy_2d::{Scene, SceneAnswer};
use edges::Agent;
use scene_records::{Cart, NumberedScene};

// A cart, its wish and its limit.
#[repr(C)]
#[derive(Clone, Copy)]
pub struct BmCart {
    pub position_x: f32,
    pub position_y: f32,
    pub velocity_x: f32,
    pub velocity_y: f32,
    pub margin: f32,
    pub horizon: f32,
    pub wish_x: f32,
    pub wish_y: f32,
    pub limit: f32,
}

// What was written to a lent buffer: how many bytes; or the number of the refusal, and none.
#[repr(C)]
#[derive(Clone, Copy)]
pub struct BmWritten {
    pub refusal: u32,
    pub length: usize,
}

// A scene's answer: the outcome 1 to 5, the velocity, the cause of the failed line of the last pass run (0 where none
// failed), its index, the earlier line that the cause names and the line's origin, and the probes of all passes. Beside
// a refusal all else is 0.
#[repr(C)]
#[derive(Clone, Copy)]
pub struct BmAnswer {
    pub refusal: u32,
    pub outcome: u32,
    pub x: f32,
    pub y: f32,
    pub cause: u32,
    pub failed_line: usize,
    pub cause_line: usize,
    pub origin_kind: u32,
    pub origin_place: u32,
    pub origin_vertex: u32,
    pub probes: u32,
}

// A scene that was read, with its neighbours' numbers; zeros behind the counts, and everywhere beside a refusal.
#[repr(C)]
#[derive(Clone, Copy)]
pub struct BmScene {
    pub refusal: u32,
    pub cart: BmCart,
    pub obstacles: usize,
    pub kinds: [u8; 16],
    pub counts: [u8; 16],
    pub vertices: [f32; 384],
    pub neighbours: usize,
    pub lines: [f32; 256],
    pub numbers: [u32; 64],
}

// Answers one scene record: its 18 bytes at the answer's start, bytes behind them keep their contents, and beside them
// what they do not say of the failed line. Refused, with the answer's bytes as they were, as `records::answer_record`
// refuses.
#[unsafe(no_mangle)]
pub extern "C" fn bm_answer_record(scene: &[u8], answer: &mut [u8]) -> BmAnswer
    ensures answer { standing result answer.new ≡ answer_left (scene_answer_to scene.now answer.old) }
    ensures told { numbers_of result ≡ numbers_told (record_outcome scene.now answer.old) }
{
    match records::answer_scene(scene, answer) {
        Ok(answered) => outcome_with(answered),
        Err(refusal) => refused(refusal),
    }
}

#[tactic(auto, unfolding(crate::specs::Scenes::outcome_with))]
fn outcome_with(answered: SceneAnswer) -> BmAnswer
    ensures { result ≡ answer_told (Ok answered) }
{
    let failed = answered.failed;
    let origin = answered.origin;
    BmAnswer {
        refusal: 0,
        outcome: u32::from(answered.outcome.number()),
        x: answered.velocity.x,
        y: answered.velocity.y,
        cause: u32::from(plain_numbers::failed_kind(failed)),
        failed_line: plain_numbers::failed_index(failed),
        cause_line: plain_numbers::failed_cause(failed),
        origin_kind: origin.kind,
        origin_place: origin.place,
        origin_vertex: origin.vertex,
        probes: answered.probes,
    }
}

#[tactic(auto, unfolding(crate::specs::Scenes::refused_scene))]
fn refused(refusal: Refusal) -> BmAnswer
    ensures { result ≡ refused_scene (number_of refusal) }
{
    BmAnswer {
        refusal: u32::from(refusal.number()),
        outcome: 0,
        x: 0.0,
        y: 0.0,
        cause: 0,
        failed_line: 0,
        cause_line: 0,
        origin_kind: 0,
        origin_place: 0,
        origin_vertex: 0,
        probes: 0,
    }
}

// Reads one scene record of either version; or tells the number of a refusal, as `scene_records::read_scene` refuses.
#[unsafe(no_mangle)]
pub extern "C" fn bm_read_scene(scene: &[u8]) -> BmScene
    ensures { result ≡ scene_told (scene_in scene.now) }
{
    match scene_records::read_scene(scene) {
        Ok(read) => told(read),
        Err(refusal) => untold(refusal),
    }
}

#[tactic(auto, unfolding(crate::specs::Scenes::scene_by))]
fn told(read: NumberedScene) -> BmScene
    ensures { result ≡ scene_by read.scene read.numbers }
{
    let NumberedScene { scene, numbers } = read;
    let kinds = scene.kinds;
    let counts = scene.counts;
    let vertices = scene.vertices;
    let lines = scene.lines;
    BmScene {
        refusal: 0,
        cart: cart_of(scene),
        obstacles: scene.obstacles,
        kinds,
        counts,
        vertices,
        neighbours: scene.neighbours,
        lines,
        numbers,
    }
}

#[tactic(auto, unfolding(crate::specs::Scenes::no_scene))]
fn untold(refusal: Refusal) -> BmScene
    ensures { result ≡ no_scene (number_of refusal) }
{
    BmScene {
        refusal: u32::from(refusal.number()),
        cart: BmCart {
            position_x: 0.0,
            position_y: 0.0,
            velocity_x: 0.0,
            velocity_y: 0.0,
            margin: 0.0,
            horizon: 0.0,
            wish_x: 0.0,
            wish_y: 0.0,
            limit: 0.0,
        },
        obstacles: 0,
        kinds: [0; 16],
        counts: [0; 16],
        vertices: [0.0; 384],
        neighbours: 0,
        lines: [0.0; 256],
        numbers: [0; 64],
    }
}

fn cart_of(scene: Scene) -> BmCart
    ensures { result ≡ cart_of scene }
{
    let agent = scene.agent;
    let position = agent.position;
    let velocity = agent.velocity;
    let wish = scene.wish;
    BmCart {
        position_x: position.x,
        position_y: position.y,
        velocity_x: velocity.x,
        velocity_y: velocity.y,
        margin: scene.margin,
        horizon: scene.horizon,
        wish_x: wish.x,
        wish_y: wish.y,
        limit: scene.limit,
    }
}

// Writes a scene's record, of version 1, to the buffer's start; bytes behind it keep their contents. Refused, with the
// buffer as it was, as `scene_writer::write_scene` refuses.
#[unsafe(no_mangle)]
pub extern "C" fn bm_write_scene(
    cart: BmCart,
    obstacles: usize,
    kinds: &[u8],
    counts: &[u8],
    vertices: &[f32],
    neighbours: usize,
    lines: &[f32],
    buffer: &mut [u8],
) -> BmWritten
    ensures { standing result buffer.new
        ≡ written_left (written_scene (cart_in cart) obstacles kinds.now counts.now
        vertices.now neighbours lines.now buffer.old) }
{
    let whole = cart_in(cart);
    let answer = scene_writer::write_scene(
        whole, obstacles, kinds, counts, vertices, neighbours, lines, buffer,
    );
    written(answer)
}

fn cart_in(cart: BmCart) -> Cart
    ensures { result ≡ cart_in cart }
{
    Cart {
        agent: Agent {
            position: Vec2 {
                x: cart.position_x,
                y: cart.position_y,
            },
            velocity: Vec2 {
                x: cart.velocity_x,
                y: cart.velocity_y,
            },
        },
        margin: cart.margin,
        horizon: cart.horizon,
        wish: Vec2 {
            x: cart.wish_x,
            y: cart.wish_y,
        },
        limit: cart.limit,
    }
}

// Moves a record of version 1 to version 2 at the buffer's start; bytes behind it keep their contents. Refused, with
// the buffer as it was, as `scene_moves::to_version_2` refuses.
#[unsafe(no_mangle)]
pub extern "C" fn bm_to_version_2(scene: &[u8], buffer: &mut [u8]) -> BmWritten
    ensures { standing result buffer.new
        ≡ written_left (moved_into One Two scene.now buffer.old) }
{
    let moved = scene_moves::to_version_2(scene, buffer);
    written(moved)
}

// Moves a record of version 2, whose numbers are all 0, back to version 1 at the buffer's start; bytes behind it keep
// their contents. Refused, with the buffer as it was, as `scene_moves::to_version_1` refuses.
#[unsafe(no_mangle)]
pub extern "C" fn bm_to_version_1(scene: &[u8], buffer: &mut [u8]) -> BmWritten
    ensures { standing result buffer.new
        ≡ written_left (moved_into Two One scene.now buffer.old) }
{
    let back = scene_moves::to_version_1(scene, buffer);
    written(back)
}

#[tactic(auto, unfolding(crate::specs::Scenes::written_told))]
pub(crate) fn written(answer: Result<usize, Refusal>) -> BmWritten
    ensures { result ≡ written_told answer }
{
    match answer {
        Ok(length) => BmWritten { refusal: 0, length },
        Err(refusal) => BmWritten {
            refusal: u32::from(refusal.number()),
            length: 0,
        },
    }
}
