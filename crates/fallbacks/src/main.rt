// The index of a log's fallbacks on disk (02, T-10), in constant memory: `build LOG INDEX`, `count LOG INDEX A B` and
// `append LOG INDEX RECORD`. What is told is a line on standard output: an index's length, a count, or `refused R`,
// whose meaning is told on standard error. A file that cannot be opened, read or written is told there too, by its
// name.
#![tactic(auto)]

use admission::Refusal;
use fallback_index::Head;
use index_building::{ENTRY_BYTES, Extent};
use std::fs::File;
use std::io;
use std::rt::{Env, Files};

mod appending;
mod building;
mod files;
mod questions;

// Log and index, open, and their lengths.
#[derive(Drop)]
pub(crate) struct Pair {
    log: File,
    index: File,
    total: usize,
    size: usize,
}

impl Pair {
    // What a question or an append rests on, with the index's first bytes.
    pub(crate) fn head<'a>(&self, bytes: &'a [u8]) -> Head<'a> {
        Head {
            log_length: self.total,
            index_length: self.size,
            bytes,
        }
    }
}

// How many bytes were read of an entry, and of the log from where it points.
#[derive(Clone, Copy)]
pub(crate) struct Side {
    entry: usize,
    stretch: usize,
}

// Whether there may be more of a log to read; or how it ended: at the log's end, with a refusal, or with a read or a
// write that failed.
// kept: no plainer: each way is told otherwise, and `Reading` carries on what it has.
#[derive(Clone, Copy)]
pub(crate) enum Stage {
    Open,
    AtEnd,
    Refused(Refusal),
    Unread,
    Unwritten,
}

// What a build carries from read to read: how many bytes wait at the input's start, and how far the log is read.
#[derive(Clone, Copy)]
pub(crate) struct Reading {
    stage: Stage,
    kept: usize,
    extent: Extent,
}

fn tell<R: Print + Eprint>(rt: &R, meaning: &str, number: u64, end: &str) {
    let tried = print!(rt; "{meaning}{number}{end}");
    let _ = troubles::told(rt, "fallbacks: standard output", tried);
}

// A refusal, and what it means; `named` is the log's length that the index names.
pub(crate) fn tell_refused<R: Print + Eprint>(rt: &R, refusal: Refusal, named: u64) {
    tell(rt, "refused ", refusal.number() as u64, "\n");
    let _ = rt.eprint("means: ");
    let _ = match refusal {
        Refusal::OtherVersion => rt.eprint("the version of the index, or of a record, is not 1\n"),
        Refusal::TooMany => rt.eprint("a number of the index would be over 4,294,967,295\n"),
        Refusal::AnotherLog => tell_other_log(rt, named),
        Refusal::NoSuchRecords => rt.eprint("A is over B, or B is over the record count\n"),
        _ => rt.eprint("the index, or a record, is cut short, too long or not one\n"),
    };
}

// What to do with a log that an append has left longer than its index says.
fn tell_other_log(rt: &impl Eprint, named: u64) -> io::Result<()> {
    rt.eprint("the index is of a log of ")?;
    rt.eprint(named)?;
    rt.eprint(
        " bytes; behind an append that was stopped, cut the log to that length or build the index anew\n",
    )
}

// The length of the index of so many records.
pub(crate) fn tell_written<R: Print + Eprint>(rt: &R, count: usize) {
    let length = index_building::entry_at(count) + ENTRY_BYTES;
    tell(rt, "index of ", length as u64, " bytes\n");
}

pub(crate) fn tell_count<R: Print + Eprint>(rt: &R, counted: Result<u64, Refusal>, named: u64) {
    match counted {
        Ok(count) => tell(rt, "", count, "\n"),
        Err(refusal) => tell_refused(rt, refusal, named),
    }
}

// What the first letter of the first word asks for; the command's script has looked at the words.
fn serve<R: Env + Input + Files<File = File> + Print + Eprint>(
    rt: &R,
    word: &[u8],
    log: &str,
    index: &str,
) {
    match word.first() {
        None => {}
        Some(b'b') => building::build(rt, log, index),
        Some(b'c') => questions::count(rt, log, index),
        Some(_) => appending::append(rt, log, index),
    }
}

fn main(rt: HostRuntime) {
    let mut word = [0u8; 4096];
    let asked = rt.arg(1, &mut word).unwrap_or(0);
    let mut log = [0u8; 4096];
    let tried = troubles::argument(&rt, 2, &mut log);
    let Some(first) = troubles::told(&rt, "fallbacks: the name of the log", tried) else {
        return;
    };
    let mut index = [0u8; 4096];
    let tried = troubles::argument(&rt, 3, &mut index);
    let Some(second) = troubles::told(&rt, "fallbacks: the name of the index", tried) else {
        return;
    };
    serve(&rt, &word[0..asked], first, second);
}
