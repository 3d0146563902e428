// A build over a log on disk, read by read through the library's step: the entries go to a new file as they are
// completed, the bytes before them last, and then that file takes the index's place.
ghost use Rattle.std.specs.Prelude.{◌≡◌, ◌≤◌, ◌<◌, length};
ghost use Rattle.fallbacks.specs.Turns.{Steps, Follows};

use crate::{Reading, Stage, files};
use index_building::Extent;
use std::fs;
use std::fs::File;
use std::io::Read;
use std::rt::{Env, Files};

// `build LOG INDEX`.
pub(crate) fn build<R: Env + Files<File = File> + Print + Eprint>(rt: &R, log: &str, index: &str) {
    let Some(file) = files::open(rt, log) else {
        return;
    };
    let mut name = [0u8; 4096];
    let n = files::new_name(rt, &mut name);
    build_beside(rt, &file, log, index, files::as_text(&name[0..n]));
}

// Where the new file does not take the index's place, it goes.
fn build_beside<R: Files<File = File> + Print + Eprint>(
    rt: &R,
    file: &File,
    log: &str,
    index: &str,
    name: &str,
) {
    let Some(new) = files::create(rt, name) else {
        return;
    };
    let mut input = [0u8; 65553];
    let mut entries = [0u8; 4096];
    if !build_into(rt, file, &new, &mut input, &mut entries, log, index, name) {
        let _ = fs::remove_file(rt, name);
    }
}

// Whether the new file has taken the index's place; why not is told.
fn build_into<R: Files + Print + Eprint>(
    rt: &R,
    file: &File,
    new: &File,
    input: &mut [u8],
    entries: &mut [u8],
    log: &str,
    index: &str,
    name: &str,
) -> bool
    requires { 18 ≤ length input.old }
{
    if !files::go_to(rt, new, 21, name) {
        return false;
    }
    let reading = turns(rt, file, new, input, entries, log, name);
    let stage = reading.stage;
    let kept = reading.kept;
    match stage {
        Stage::AtEnd => return end(rt, new, &input[0..kept], reading.extent, index, name),
        Stage::Refused(refusal) => crate::tell_refused(rt, refusal, 0),
        // What failed is told where it was tried.
        Stage::Unwritten | Stage::Unread => {}
        Stage::Open => files::fail(rt, log, files::no_error()),
    };
    false
}

// Read behind read until one ends it. The count only bounds the loop.
fn turns(
    rt: &impl Eprint,
    file: &File,
    new: &File,
    input: &mut [u8],
    entries: &mut [u8],
    log: &str,
    name: &str,
) -> Reading
    requires { 18 ≤ length input.old }
    ensures { result.kept < 18 }
{
    let mut reading = Reading {
        stage: Stage::Open,
        kept: 0,
        extent: Extent::NONE,
    };
    for _ in 0..u64::MAX {
        reading = turn(rt, file, new, input, entries, reading, log, name);
        let Stage::Open = reading.stage else {
            return reading;
        };
    }
    reading
}

// One read, behind the bytes that wait.
fn turn(
    rt: &impl Eprint,
    file: &File,
    new: &File,
    input: &mut [u8],
    entries: &mut [u8],
    before: Reading,
    log: &str,
    name: &str,
) -> Reading
    requires { (before.kept < 18) × (18 ≤ length input.old) }
    ensures follows { Follows before input.old entries.old result input.new entries.new }
    ensures kept_bound { result.kept < 18 }
{
    let kept = before.kept;
    let mut from = file;
    let got = match from.read(&mut input[kept..]) {
        Ok(got) => got,
        Err(error) => {
            files::fail(rt, log, error);
            return Reading {
                stage: Stage::Unread,
                ..before
            };
        }
    };
    if got == 0 {
        return Reading {
            stage: Stage::AtEnd,
            ..before
        };
    }
    let there = kept + got;
    step(rt, new, input, there, entries, before, name)
}

// The library's step over what is there; the entries that it completes are written, and what is left waits for the
// next read.
fn step(
    rt: &impl Eprint,
    new: &File,
    input: &mut [u8],
    there: usize,
    entries: &mut [u8],
    before: Reading,
    name: &str,
) -> Reading
    requires { (before.kept < 18) × (there ≤ length input.old) }
    ensures steps { Steps before input.old there entries.old result input.new
        entries.new }
    ensures kept_bound { result.kept < 18 }
{
    let part = match index_building::build_part(&input[0..there], before.extent, entries) {
        Ok(part) => part,
        Err(refusal) => {
            return Reading {
                stage: Stage::Refused(refusal),
                ..before
            };
        }
    };
    if !files::write(rt, new, &entries[0..part.written], name) {
        return Reading {
            stage: Stage::Unwritten,
            ..before
        };
    }
    Reading {
        stage: Stage::Open,
        kept: kept::keep(input, part.used, there),
        extent: part.extent,
    }
}

// The log's end, with the bytes that are left of it.
fn end<R: Files + Print + Eprint>(
    rt: &R,
    new: &File,
    rest: &[u8],
    extent: Extent,
    index: &str,
    name: &str,
) -> bool {
    let mut start = [0u8; 21];
    end_with(rt, new, rest, extent, &mut start, index, name)
}

fn end_with<R: Files + Print + Eprint>(
    rt: &R,
    new: &File,
    rest: &[u8],
    extent: Extent,
    start: &mut [u8],
    index: &str,
    name: &str,
) -> bool {
    if let Err(refusal) = index_building::build_end(rest, extent, start) {
        crate::tell_refused(rt, refusal, 0);
        return false;
    }
    if !files::go_to(rt, new, 0, name) {
        return false;
    }
    if files::write(rt, new, start, name)
        && files::sync(rt, new, name)
        && files::replace(rt, index, name)
    {
        crate::tell_written(rt, extent.records as usize);
        return true;
    }
    false
}
