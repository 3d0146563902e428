// An obstacle in a record: to the readers, the moves and what answers a record, under both versions.
use crate::number_of;

// Whether all of them tell the number.
pub(crate) fn are_told(kind: u8, count: u8, vertices: &[f32], number: u8) -> bool {
    if vertices.len() > 20 {
        return false;
    }
    let size = 43 + 4 * vertices.len();
    let first = record_of(1, kind, count, vertices);
    let second = record_of(2, kind, count, vertices);
    is_first_told(&first, size, number) && is_second_told(&second, size, number)
}

// Of version 1, in the first bytes.
fn is_first_told(bytes: &[u8], size: usize, number: u8) -> bool {
    if size > bytes.len() {
        return false;
    }
    let record = &bytes[..size];
    by_reader(record) == number
        && by_first_reader(record) == number
        && by_move_there(record) == number
        && by_answer(record) == number
}

// Of version 2, of which 01's reader tells 1.
fn is_second_told(bytes: &[u8], size: usize, number: u8) -> bool {
    if size > bytes.len() {
        return false;
    }
    let record = &bytes[..size];
    by_reader(record) == number
        && by_first_reader(record) == 1
        && by_move_back(record) == number
        && by_answer(record) == number
}

// A record with the cart of docs/RECORDS.md, one obstacle and no neighbour, with zeros behind it.
fn record_of(version: u8, kind: u8, count: u8, vertices: &[f32]) -> [u8; 128] {
    let mut bytes = [0; 128];
    put_fields(&mut bytes, version, kind, count, vertices);
    bytes
}

fn put_fields(bytes: &mut [u8], version: u8, kind: u8, count: u8, vertices: &[f32]) {
    if vertices.len() > 20 {
        return;
    }
    words::put_pair(bytes, 0, (41 + 4 * vertices.len()) as u16);
    words::put_pair(bytes, 2, 256 * (version as u16));
    words::put_word(bytes, 23, 0x3f80_0000);
    words::put_pair(bytes, 39, 256 + (kind as u16));
    words::put_pair(bytes, 41, 256 * (count as u16));
    for (i, number) in vertices.iter().enumerate() {
        words::put_word(bytes, 42 + 4 * i, words::pattern(*number));
    }
}

fn by_reader(record: &[u8]) -> u8 {
    number_of(&scene_records::read_scene(record))
}

fn by_first_reader(record: &[u8]) -> u8 {
    number_of(&scene_records::read_scene_version_1(record))
}

fn by_move_there(record: &[u8]) -> u8 {
    let mut buffer = [0; 128];
    number_of(&scene_moves::to_version_2(record, &mut buffer))
}

fn by_move_back(record: &[u8]) -> u8 {
    let mut buffer = [0; 128];
    number_of(&scene_moves::to_version_1(record, &mut buffer))
}

fn by_answer(record: &[u8]) -> u8 {
    let mut buffer = [0; 18];
    number_of(&records::answer_record(record, &mut buffer))
}
