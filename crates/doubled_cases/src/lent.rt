// An obstacle that is lent: to the obstacle call, the wall check and the writer, and in a scene by value.
use crate::number_of;
use common::Vec2;
use dodgy_2d::Scene;
use edges::Agent;
use scene_records::Cart;

// Whether all of them tell the number.
pub(crate) fn are_told(kind: u8, count: u8, vertices: &[f32], number: u8) -> bool {
    by_call(kind, count, vertices) == number
        && by_wall_check(kind, count, vertices) == number
        && by_writer(kind, count, vertices) == number
        && by_value(kind, count, vertices) == number
}

fn at_rest() -> Agent {
    Agent {
        position: Vec2::ZERO,
        velocity: Vec2::ZERO,
    }
}

fn by_call(kind: u8, count: u8, vertices: &[f32]) -> u8 {
    let count = usize::from(count);
    number_of(&obstacles::get_lines_for_agent_to_obstacle(
        at_rest(),
        kind,
        vertices,
        count,
        0.0,
        1.0,
    ))
}

fn by_wall_check(kind: u8, count: u8, vertices: &[f32]) -> u8 {
    number_of(&wall_check::check_move(Vec2::ZERO, Vec2::ZERO, 1, &[kind], &[count], vertices))
}

fn by_writer(kind: u8, count: u8, vertices: &[f32]) -> u8 {
    let mut buffer = [0; 128];
    let cart = Cart {
        agent: at_rest(),
        margin: 0.0,
        horizon: 1.0,
        wish: Vec2::ZERO,
        limit: 0.0,
    };
    number_of(&scene_writer::write_scene(cart, 1, &[kind], &[count], vertices, 0, &[], &mut buffer))
}

// The numbers that are lent, with zeros behind them.
fn filled(numbers: &[f32]) -> [f32; 384] {
    let mut all = [0.0; 384];
    for (place, number) in all.iter_mut().zip(numbers) {
        *place = *number;
    }
    all
}

fn by_value(kind: u8, count: u8, vertices: &[f32]) -> u8 {
    number_of(&dodgy_2d::compute_avoiding_velocity(Scene {
        agent: at_rest(),
        margin: 0.0,
        horizon: 1.0,
        wish: Vec2::ZERO,
        limit: 0.0,
        obstacles: 1,
        kinds: [kind; 16],
        counts: [count; 16],
        vertices: filled(vertices),
        neighbours: 0,
        lines: [0.0; 256],
    }))
}
