// An append to log and index on disk: what it rests on is read and judged; a new index is made beside the old one;
// the record goes to the log; then the new index takes the old one's place. Between these two a question is refused
// with 12.
ghost use Rattle.std.specs.Prelude.{◌≤◌, length, IfSome};

use crate::{Pair, files, questions};
use fallback_index::Side;
use index_building::{ENTRY_BYTES, Extent, HEAD_BYTES};
use std::fs;
use std::fs::{File, OpenOptions};
use std::io::Read;
use std::rt::{Env, Files};

// `append LOG INDEX RECORD`; a RECORD of - is standard input. More bytes than the buffer takes are no answer record
// either.
pub(crate) fn append<R: Env + Input + Files<File = File> + Print + Eprint>(
    rt: &R,
    log: &str,
    index: &str,
) {
    let mut name = [0u8; 4096];
    let mut record = [0u8; 4096];
    if let Some(n) = read_record(rt, &mut name, &mut record) {
        append_bytes(rt, log, index, &record[..n]);
    }
}

fn append_bytes<R: Env + Files<File = File> + Print + Eprint>(
    rt: &R,
    log: &str,
    index: &str,
    record: &[u8],
) {
    if let Some(pair) = questions::open_pair(rt, log, index) {
        append_to(rt, &pair, log, index, record);
    }
}

fn read_record<R: Env + Input + Files<File = File> + Eprint>(
    rt: &R,
    name: &mut [u8],
    record: &mut [u8],
) -> Option<usize>
    ensures { IfSome result (λ n. n ≤ length «record».new) }
{
    let n = rt.arg(4, name).unwrap_or(0);
    let name = troubles::told(
        rt,
        "fallbacks: the name of the record",
        troubles::text(&name[..n]),
    )?;
    if name == "-" {
        let mut reader = rt.reader();
        return files::fill(rt, &mut reader, record, "standard input");
    }
    let mut file = files::open(rt, name)?;
    files::fill(rt, &mut file, record, name)
}

fn append_to<R: Env + Files<File = File> + Print + Eprint>(
    rt: &R,
    pair: &Pair,
    log: &str,
    index: &str,
    record: &[u8],
) {
    let mut head = [0u8; 13];
    let mut first = [0u8; 8];
    let mut last = [0u8; 8];
    let mut stretch = [0u8; 1134];
    judge(
        rt,
        pair,
        &mut head,
        &mut first,
        &mut last,
        &mut stretch,
        log,
        index,
        record,
    );
}

// Reads the parts, each to its buffer, and goes on where nothing is refused.
fn judge<R: Env + Files<File = File> + Print + Eprint>(
    rt: &R,
    pair: &Pair,
    head: &mut [u8],
    first: &mut [u8],
    last: &mut [u8],
    stretch: &mut [u8],
    log: &str,
    index: &str,
    record: &[u8],
)
    requires { 1134 ≤ length stretch.old }
{
    let some = files::there(pair.size, 0, HEAD_BYTES);
    let start = files::read_at(rt, &pair.index, 0, some, head, index);
    let more = files::there(pair.size, 13, ENTRY_BYTES);
    let next = files::read_at(rt, &pair.index, 13, more, first, index);
    let count = words::word_at(&head[..files::brought(start)], 9) as usize;
    let end = questions::read_side(rt, pair, count, last, stretch, log, index);
    if let (Ok(n), Ok(of_first), Some(end)) = (start, next, end) {
        let last = Side {
            entry: &last[..end.entry],
            stretch: &stretch[..end.stretch],
        };
        update(
            rt,
            pair,
            &head[..n],
            &first[..of_first],
            last,
            log,
            index,
            record,
        );
    }
}

fn update<R: Env + Files<File = File> + Print + Eprint>(
    rt: &R,
    pair: &Pair,
    head: &[u8],
    first: &[u8],
    last: Side,
    log: &str,
    index: &str,
    record: &[u8],
) {
    let update = fallback_index::update_by_parts(pair.head(head), first, last, record);
    let named = words::word_at(head, 5);
    match update {
        Ok(extent) => store(rt, pair, named, extent, log, index, record),
        Err(refusal) => crate::tell_refused(rt, refusal, named as u64),
    }
}

// Where the new file does not take the index's place, it goes.
fn store<R: Env + Files<File = File> + Print + Eprint>(
    rt: &R,
    pair: &Pair,
    named: u32,
    extent: Extent,
    log: &str,
    index: &str,
    record: &[u8],
) {
    let mut bytes = [0u8; 4096];
    let n = files::new_name(rt, &mut bytes);
    let name = files::as_text(&bytes[0..n]);
    let Some(new) = files::create(rt, name) else {
        return;
    };
    let mut ends = [0u8; 21];
    if renew(rt, pair, &new, extent, &mut ends, index, name)
        && settle(rt, named, log, index, record, name)
    {
        crate::tell_written(rt, extent.records as usize);
        return;
    }
    let _ = fs::remove_file(rt, name);
}

// Writes the new index: its ends, and the old one's entries between them. Whether all of it is on the device.
fn renew(
    rt: &impl Eprint,
    pair: &Pair,
    new: &File,
    extent: Extent,
    ends: &mut [u8],
    index: &str,
    name: &str,
) -> bool {
    let Ok(length) = index_building::put_ends(ends, extent) else {
        return false;
    };
    if ends.len() < 21 {
        return false;
    }
    let last = entry_of(length);
    if !files::go_to(rt, &pair.index, 13, index) {
        return false;
    }
    let mut block = [0u8; 65536];
    files::write(rt, new, &ends[0..13], name)
        && copy(rt, &pair.index, new, &mut block, pair.size, index, name)
        && files::write(rt, new, &ends[13..last], name)
        && files::sync(rt, new, name)
}

// Where the new entry ends, of ends of so many bytes.
fn entry_of(length: usize) -> usize
    ensures { (13 ≤ result) × (result ≤ 21) }
{
    if length < 21 {
        return 13;
    }
    21
}

// Copies an index of so many bytes from its entries on. Whether they were all there.
fn copy(
    rt: &impl Eprint,
    from: &File,
    to: &File,
    block: &mut [u8],
    size: usize,
    index: &str,
    name: &str,
) -> bool {
    if size < HEAD_BYTES {
        return false;
    }
    let mut left = size - HEAD_BYTES;
    // kept: no plainer: each read brings as many bytes as it likes
    while left > 0 {
        let more = copy_some(rt, from, to, block, index, name).unwrap_or(0);
        if more == 0 {
            return false;
        }
        if more > left {
            return false;
        }
        left -= more;
    }
    true
}

// One read, which is written: how many bytes.
fn copy_some(
    rt: &impl Eprint,
    from: &File,
    to: &File,
    block: &mut [u8],
    index: &str,
    name: &str,
) -> Option<usize> {
    let mut file = from;
    let n = files::told(rt, index, file.read(block))?;
    if files::write(rt, to, &block[..n], name) {
        return Some(n);
    }
    None
}

// The record to the log, then the new index to its place; where one of them fails, the log is cut to its old length.
fn settle<R: Files<File = File> + Eprint>(
    rt: &R,
    old: u32,
    log: &str,
    index: &str,
    record: &[u8],
    name: &str,
) -> bool {
    let opened = OpenOptions::new().append(true).open(rt, log);
    let Some(file) = files::told(rt, log, opened) else {
        return false;
    };
    if files::write(rt, &file, record, log)
        && files::sync(rt, &file, log)
        && files::replace(rt, index, name)
    {
        return true;
    }
    let _ = files::told(rt, log, file.set_len(old as u64));
    false
}
