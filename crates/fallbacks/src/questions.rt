// A question to log and index on disk: it reads the index's first 13 bytes, two entries, and two stretches of the log.
ghost use Rattle.std.specs.Prelude.{◌≤◌, length, IfSome, MatchResult};

use crate::files::Unread;
use crate::{Pair, Side, files};
use index_building::{ENTRY_BYTES, HEAD_BYTES};
use std::fs::File;
use std::rt::{Env, Files};

pub(crate) fn open_pair<R: Files<File = File> + Eprint>(
    rt: &R,
    log: &str,
    index: &str,
) -> Option<Pair> {
    let first = files::open(rt, log)?;
    let second = files::open(rt, index)?;
    let total = files::length(rt, &first, log);
    let size = files::length(rt, &second, index);
    Some(Pair {
        log: first,
        index: second,
        total: total?,
        size: size?,
    })
}

// Reads the last entry at or before a record, and the log from where it points.
pub(crate) fn read_side(
    rt: &impl Eprint,
    pair: &Pair,
    a: usize,
    entry: &mut [u8],
    stretch: &mut [u8],
    log: &str,
    index: &str,
) -> Option<Side>
    requires { 1134 ≤ length stretch.old }
    ensures result_in_bounds { IfSome result (λ s. s.entry ≤ length entry.new) }
    ensures stretch_in_bounds { IfSome result (λ s. s.stretch ≤ length stretch.new) }
{
    let of = read_entry(rt, pair, a, entry, index);
    let offset = words::word_at(&entry[..files::brought(of)], 0);
    let to = read_stretch(rt, pair, a, offset, stretch, log);
    Some(Side {
        entry: of.ok()?,
        stretch: to?,
    })
}

fn read_entry(
    rt: &impl Eprint,
    pair: &Pair,
    a: usize,
    entry: &mut [u8],
    index: &str,
) -> Result<usize, Unread>
    ensures { MatchResult result (λ n. n ≤ length entry.new) (λ u. u.brought ≤ length entry.new) }
{
    // A system may refuse to go further than a file's end.
    let place = index_building::entry_at(a).min(pair.size);
    let some = files::there(pair.size, place, ENTRY_BYTES);
    files::read_at(rt, &pair.index, place as u64, some, entry, index)
}

// The log from an offset on, as far as the records from the entry to that one can reach.
fn read_stretch(
    rt: &impl Eprint,
    pair: &Pair,
    a: usize,
    offset: u32,
    stretch: &mut [u8],
    log: &str,
) -> Option<usize>
    requires { 1134 ≤ length stretch.old }
    ensures { IfSome result (λ n. n ≤ length stretch.new) }
{
    let most = fallback_index::most_bytes(a);
    let some = files::there(pair.total, offset as usize, most);
    files::read_at(
        rt,
        &pair.log,
        offset as u64,
        some,
        &mut stretch[0..most],
        log,
    )
    .ok()
}

// `count LOG INDEX A B`.
pub(crate) fn count<R: Env + Files<File = File> + Print + Eprint>(rt: &R, log: &str, index: &str) {
    let a = number(rt, 4);
    let b = number(rt, 5);
    if let Some(pair) = open_pair(rt, log, index) {
        let mut head = [0u8; 13];
        let mut entry_a = [0u8; 8];
        let mut entry_b = [0u8; 8];
        let mut stretch_a = [0u8; 1134];
        let mut stretch_b = [0u8; 1134];
        ask(
            rt,
            &pair,
            a,
            b,
            &mut head,
            &mut entry_a,
            &mut entry_b,
            &mut stretch_a,
            &mut stretch_b,
            log,
            index,
        );
    }
}

// Reads the parts, each to its buffer, and tells the answer.
fn ask<R: Print + Eprint>(
    rt: &R,
    pair: &Pair,
    a: usize,
    b: usize,
    head: &mut [u8],
    entry_a: &mut [u8],
    entry_b: &mut [u8],
    stretch_a: &mut [u8],
    stretch_b: &mut [u8],
    log: &str,
    index: &str,
)
    requires in_bounds { 1134 ≤ length stretch_a.old }
    requires in_bounds_2 { 1134 ≤ length stretch_b.old }
{
    let some = files::there(pair.size, 0, HEAD_BYTES);
    let first = files::read_at(rt, &pair.index, 0, some, head, index).ok();
    let from = read_side(rt, pair, a, entry_a, stretch_a, log, index);
    let up_to = read_side(rt, pair, b, entry_b, stretch_b, log, index);
    if let (Some(n), Some(from), Some(up_to)) = (first, from, up_to) {
        let head = &head[..n];
        let counted = fallback_index::count_by_parts(
            pair.head(head),
            fallback_index::Side {
                entry: &entry_a[..from.entry],
                stretch: &stretch_a[..from.stretch],
            },
            fallback_index::Side {
                entry: &entry_b[..up_to.entry],
                stretch: &stretch_b[..up_to.stretch],
            },
            a,
            b,
        );
        crate::tell_count(rt, counted, words::word_at(head, 5) as u64);
    }
}

// The number that an argument writes out in digits, which the command's script has looked at.
fn number(rt: &impl Env, argument: usize) -> usize {
    let mut text = [0u8; 4096];
    let n = rt.arg(argument, &mut text).unwrap_or(0);
    value(&text[0..n])
}

// Digits, read from the first on. From 100,000,000,000,000,000 on, which is over every record count, further digits
// are left out.
fn value(digits: &[u8]) -> usize {
    let mut sum = 0;
    for digit in digits {
        sum = with_digit(sum, *digit);
    }
    sum
}

fn with_digit(sum: usize, digit: u8) -> usize {
    if sum > 99999999999999999 {
        return sum;
    }
    match digit {
        48..=57 => 10 * sum + (digit - 48) as usize,
        _ => 10 * sum,
    }
}
