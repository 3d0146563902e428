// Runs cases of `index_building` and `fallback_index`: standard input holds logs, indexes and what is asked of them,
// command behind command; standard output what each call answered, and the bytes that it left. oracle/indexes makes the
// cases and says what must come out. A command is a byte, three numbers of four bytes, and the bytes that it brings.
#![tactic(auto)]

ghost use Rattle.std.specs.Prelude.{◌≤◌};

use admission::Refusal;
use fallback_index::{Head, Side};
use index_building::{Extent, PartBuilt};
use std::io;
use std::io::{ErrorKind, Read, Write};

// How many bytes of log and index there are.
#[derive(Clone, Copy)]
struct Held {
    log: usize,
    index: usize,
}

impl Held {
    const NONE: Held = Held { log: 0, index: 0 };
}

// How many answers were a walk's; and of the first that was not, if there is one, the question.
#[derive(Clone, Copy)]
struct Agreed {
    good: u64,
    other: Option<(u64, u64)>,
}

// Writes an answer: 0 and a number, or 1 and a refusal's. Its bytes are put together in those that a command brought.
fn put(output: &mut impl Write, brought: &mut [u8], refused: u8, number: u64) -> io::Result<()> {
    if brought.len() < 9 {
        return Ok(());
    }
    brought[0] = refused;
    words::put_word(brought, 1, (number / 0x1_0000_0000) as u32);
    words::put_word(brought, 5, (number % 0x1_0000_0000) as u32);
    output.write_all(&brought[0..9])
}

fn put_refused(output: &mut impl Write, brought: &mut [u8], refusal: Refusal) -> io::Result<()> {
    put(output, brought, 1, refusal.number() as u64)
}

fn put_count(
    output: &mut impl Write,
    brought: &mut [u8],
    counted: Result<u64, Refusal>,
) -> io::Result<()> {
    match counted {
        Ok(count) => put(output, brought, 0, count),
        Err(refusal) => put_refused(output, brought, refusal),
    }
}

fn put_extent(output: &mut impl Write, brought: &mut [u8], extent: Extent) -> io::Result<()> {
    put(output, brought, 0, extent.bytes)?;
    put(output, brought, 0, extent.records)?;
    put(output, brought, 0, extent.fallbacks)
}

fn put_update(
    output: &mut impl Write,
    brought: &mut [u8],
    update: Result<Extent, Refusal>,
) -> io::Result<()> {
    match update {
        Ok(extent) => put_extent(output, brought, extent),
        Err(refusal) => put_refused(output, brought, refusal),
    }
}

// Writes what a build or an append told, and answers the index's length: the old one where it was refused.
fn put_written(
    output: &mut impl Write,
    brought: &mut [u8],
    written: Result<usize, Refusal>,
    old: usize,
) -> io::Result<usize> {
    match written {
        Ok(length) => {
            put(output, brought, 0, length as u64)?;
            Ok(length)
        }
        Err(refusal) => {
            put_refused(output, brought, refusal)?;
            Ok(old)
        }
    }
}

// Fills the bytes from the input. False where the input ends before.
fn fill(input: &mut impl Read, bytes: &mut [u8]) -> io::Result<bool> {
    match input.read_exact(bytes) {
        Ok(()) => Ok(true),
        Err(error) => {
            if error.kind() == ErrorKind::UnexpectedEof {
                return Ok(false);
            }
            Err(error)
        }
    }
}

// Bytes of the input to a place of a buffer; whether all of them came.
fn bring(input: &mut impl Read, buffer: &mut [u8], at: usize, count: usize) -> io::Result<bool> {
    if buffer.len() < at {
        return Ok(false);
    }
    if buffer.len() - at < count {
        return Ok(false);
    }
    let end = at + count;
    fill(input, &mut buffer[at..end])
}

// 1: bytes of the log from a place on, which end it. 2: the same for the index. 6: their lengths. 7, 8: bytes in the
// middle of them.
fn hold(came: bool, log: usize, index: usize) -> Option<Held> {
    if came {
        return Some(Held { log, index });
    }
    None
}

// 3: a build into the first bytes of the index's buffer, which are written out.
fn build(
    output: &mut impl Write,
    log: &[u8],
    index: &mut [u8],
    brought: &mut [u8],
    held: Held,
    room: usize,
) -> io::Result<Option<Held>> {
    if log.len() < held.log {
        return Ok(None);
    }
    if index.len() < room {
        return Ok(None);
    }
    let there = held.log;
    let written = index_building::build_index(&log[0..there], &mut index[0..room]);
    let length = put_written(output, brought, written, held.index)?;
    output.write_all(&index[0..room])?;
    Ok(hold(true, there, length))
}

// 4: a question.
fn ask(
    output: &mut impl Write,
    log: &[u8],
    index: &[u8],
    brought: &mut [u8],
    held: Held,
    a: usize,
    b: usize,
) -> io::Result<Option<Held>> {
    if log.len() < held.log {
        return Ok(None);
    }
    if index.len() < held.index {
        return Ok(None);
    }
    let there = held.log;
    let length = held.index;
    let answer = fallback_index::count_fallbacks(&log[0..there], &index[0..length], a, b);
    put_count(output, brought, answer)?;
    Ok(Some(held))
}

// 13: every question a <= b of so many records, held to a walk's fallbacks before each, which the input brings, four bytes a
// number: how many answers are the walk's, and the first question, if any, whose answer is not.
fn ask_all(
    input: &mut impl Read,
    output: &mut impl Write,
    log: &[u8],
    index: &[u8],
    brought: &mut [u8],
    held: Held,
    count: usize,
) -> io::Result<Option<Held>> {
    if count > 1000 {
        return Ok(None);
    }
    if !bring(input, brought, 0, 4 * count + 4)? {
        return Ok(None);
    }
    if log.len() < held.log {
        return Ok(None);
    }
    if index.len() < held.index {
        return Ok(None);
    }
    let there = held.log;
    let length = held.index;
    let agreed = every_first(&log[0..there], &index[0..length], brought, count);
    put_agreed(output, brought, agreed)?;
    Ok(Some(held))
}

fn every_first(log: &[u8], index: &[u8], walked: &[u8], count: usize) -> Agreed
    requires { count ≤ 1000 }
{
    let mut agreed = Agreed {
        good: 0,
        other: None,
    };
    for a in 0..=count {
        agreed = every_second(log, index, walked, a, count, agreed);
    }
    agreed
}

fn every_second(
    log: &[u8],
    index: &[u8],
    walked: &[u8],
    a: usize,
    count: usize,
    before: Agreed,
) -> Agreed
    requires { count ≤ 1000 }
{
    let mut agreed = before;
    for b in a..=count {
        let counted = fallback_index::count_fallbacks(log, index, a, b);
        agreed = compared(agreed, is_walked(counted, walked, a, b), a as u64, b as u64);
    }
    agreed
}

// Whether an answer, and the walk's fallbacks before a, are those before b.
fn is_walked(counted: Result<u64, Refusal>, walked: &[u8], a: usize, b: usize) -> bool
    requires a_le_b { a ≤ b }
    requires b_bound { b ≤ 1000 }
{
    let before_a = words::word_at(walked, 4 * a) as u64;
    let before_b = words::word_at(walked, 4 * b) as u64;
    match counted {
        Ok(count) => before_a.wrapping_add(count) == before_b,
        Err(_) => false,
    }
}

fn compared(agreed: Agreed, good: bool, a: u64, b: u64) -> Agreed {
    if good {
        return Agreed {
            good: agreed.good.wrapping_add(1),
            ..agreed
        };
    }
    Agreed {
        other: agreed.other.or(Some((a, b))),
        ..agreed
    }
}

fn put_agreed(output: &mut impl Write, brought: &mut [u8], agreed: Agreed) -> io::Result<()> {
    put(output, brought, 0, agreed.good)?;
    let Some((a, b)) = agreed.other else {
        return Ok(());
    };
    put(output, brought, 0, a)?;
    put(output, brought, 0, b)
}

// 5: an append of a record that the input brings, to an index of so many bytes.
fn append(
    input: &mut impl Read,
    output: &mut impl Write,
    log: &[u8],
    index: &mut [u8],
    brought: &mut [u8],
    held: Held,
    length: usize,
    room: usize,
    size: usize,
) -> io::Result<Option<Held>> {
    if !bring(input, brought, 0, size)? {
        return Ok(None);
    }
    if brought.len() < size {
        return Ok(None);
    }
    if log.len() < held.log {
        return Ok(None);
    }
    if index.len() < room {
        return Ok(None);
    }
    let there = held.log;
    let written = fallback_index::append_record(
        &log[0..there],
        &mut index[0..room],
        length,
        &brought[0..size],
    );
    let told = put_written(output, brought, written, held.index)?;
    output.write_all(&index[0..room])?;
    Ok(hold(true, there, told))
}

// 9: a question by its parts, with no bytes of the log: head, two entries, and b.
fn ask_parts(
    input: &mut impl Read,
    output: &mut impl Write,
    brought: &mut [u8],
    held: Held,
    total: usize,
    size: usize,
    a: usize,
) -> io::Result<Option<Held>> {
    if !bring(input, brought, 0, 33)? {
        return Ok(None);
    }
    if brought.len() < 33 {
        return Ok(None);
    }
    let parts = &brought[..];
    let b = words::word_at(parts, 29) as usize;
    let answer = fallback_index::count_by_parts(
        Head {
            log_length: total,
            index_length: size,
            bytes: &parts[..13],
        },
        Side {
            entry: &parts[13..21],
            stretch: &[],
        },
        Side {
            entry: &parts[21..29],
            stretch: &[],
        },
        a,
        b,
    );
    put_count(output, brought, answer)?;
    Ok(Some(held))
}

// 10: an append's numbers by its parts, with no bytes of the log: head, two entries, and a record.
fn append_parts(
    input: &mut impl Read,
    output: &mut impl Write,
    brought: &mut [u8],
    held: Held,
    total: usize,
    size: usize,
    count: usize,
) -> io::Result<Option<Held>> {
    if count > 4000 {
        return Ok(None);
    }
    let end = 29 + count;
    if !bring(input, brought, 0, end)? {
        return Ok(None);
    }
    if brought.len() < end {
        return Ok(None);
    }
    let parts = &brought[..];
    let update = fallback_index::update_by_parts(
        Head {
            log_length: total,
            index_length: size,
            bytes: &parts[..13],
        },
        &parts[13..21],
        Side {
            entry: &parts[21..29],
            stretch: &[],
        },
        &parts[29..end],
    );
    put_update(output, brought, update)?;
    Ok(Some(held))
}

// 11: a part of a log that the input brings, behind so much of one: 24 bytes of numbers, then the part. The entries go to the
// first bytes of the index's buffer, which are written out.
fn build_part(
    input: &mut impl Read,
    output: &mut impl Write,
    index: &mut [u8],
    brought: &mut [u8],
    held: Held,
    size: usize,
    room: usize,
) -> io::Result<Option<Held>> {
    if size > 4000 {
        return Ok(None);
    }
    let end = 24 + size;
    if !bring(input, brought, 0, end)? {
        return Ok(None);
    }
    if brought.len() < end {
        return Ok(None);
    }
    if index.len() < room {
        return Ok(None);
    }
    let extent = extent_at(brought);
    let built = index_building::build_part(&brought[24..end], extent, &mut index[0..room]);
    put_part(output, brought, built)?;
    output.write_all(&index[0..room])?;
    Ok(Some(held))
}

// 12: the end of a log behind so much of it, with so many bytes left.
fn build_end(
    input: &mut impl Read,
    output: &mut impl Write,
    index: &mut [u8],
    brought: &mut [u8],
    held: Held,
    left: usize,
    room: usize,
) -> io::Result<Option<Held>> {
    if !bring(input, brought, 0, 24)? {
        return Ok(None);
    }
    if brought.len() < left {
        return Ok(None);
    }
    if index.len() < room {
        return Ok(None);
    }
    let extent = extent_at(brought);
    let written = index_building::build_end(&brought[0..left], extent, &mut index[0..room]);
    put_written(output, brought, written, 0)?;
    output.write_all(&index[0..room])?;
    Ok(Some(held))
}

// Three numbers of eight bytes.
fn extent_at(brought: &[u8]) -> Extent {
    Extent {
        bytes: long(words::word_at(brought, 0), words::word_at(brought, 4)),
        records: long(words::word_at(brought, 8), words::word_at(brought, 12)),
        fallbacks: long(words::word_at(brought, 16), words::word_at(brought, 20)),
    }
}

fn long(high: u32, low: u32) -> u64 {
    high as u64 * 0x1_0000_0000 + low as u64
}

fn put_part(
    output: &mut impl Write,
    brought: &mut [u8],
    built: Result<PartBuilt, Refusal>,
) -> io::Result<()> {
    match built {
        Ok(part) => {
            put(output, brought, 0, part.used as u64)?;
            put(output, brought, 0, part.written as u64)?;
            put_extent(output, brought, part.extent)
        }
        Err(refusal) => put_refused(output, brought, refusal),
    }
}

// One command. Any other byte, and an end in the middle of one, closes.
fn command(
    input: &mut impl Read,
    output: &mut impl Write,
    log: &mut [u8],
    index: &mut [u8],
    brought: &mut [u8],
    held: Held,
) -> io::Result<Option<Held>> {
    if brought.len() < 13 {
        return Ok(None);
    }
    let kind = brought[0];
    let x = words::word_at(brought, 1) as usize;
    let y = words::word_at(brought, 5) as usize;
    let z = words::word_at(brought, 9) as usize;
    match kind {
        1 => Ok(hold(bring(input, log, x, y)?, x + y, held.index)),
        2 => Ok(hold(bring(input, index, x, y)?, held.log, x + y)),
        3 => build(output, log, index, brought, held, x),
        4 => ask(output, log, index, brought, held, x, y),
        5 => append(input, output, log, index, brought, held, x, y, z),
        6 => Ok(hold(true, x, y)),
        7 => Ok(hold(bring(input, log, x, 1)?, held.log, held.index)),
        8 => Ok(hold(bring(input, index, x, y)?, held.log, held.index)),
        9 => ask_parts(input, output, brought, held, x, y, z),
        10 => append_parts(input, output, brought, held, x, y, z),
        11 => build_part(input, output, index, brought, held, x, y),
        12 => build_end(input, output, index, brought, held, x, y),
        13 => ask_all(input, output, log, index, brought, held, x),
        _ => Ok(None),
    }
}

// Command behind command until the input ends.
fn serve(
    input: &mut impl Read,
    output: &mut impl Write,
    log: &mut [u8],
    index: &mut [u8],
    brought: &mut [u8],
) -> io::Result<()> {
    let mut held = Held::NONE;
    for _ in 0..u64::MAX {
        if !bring(input, brought, 0, 13)? {
            return Ok(());
        }
        let Some(next) = command(input, output, log, index, brought, held)? else {
            return Ok(());
        };
        held = next;
    }
    Ok(())
}

fn main(rt: HostRuntime) -> io::Result<()> {
    let mut input = rt.reader();
    let mut output = io::writer(&rt);
    let mut log = [0u8; 65536];
    let mut index = [0u8; 4096];
    let mut brought = [0u8; 4096];
    serve(&mut input, &mut output, &mut log, &mut index, &mut brought)
}
