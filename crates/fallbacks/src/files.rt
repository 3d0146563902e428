// Files on disk: what cannot be done with one is told on standard error, by its name.
ghost use Rattle.std.specs.Prelude.{◌≡◌, ◌≤◌, length, IfSome, MatchResult};
ghost use Rattle.std.specs.Result.{result_ok};

use std::fs::{File, OpenOptions};
use std::io::{Error, Read, Seek, SeekFrom, Write};
use std::rt::{Env, Files};
use std::{fs, io};

// What failed, of the file by its name.
pub(crate) fn fail(rt: &impl Eprint, name: &str, error: Error) {
    let _ = rt.eprint("fallbacks: ");
    troubles::tell(rt, name, error);
}

// What was tried with the file by its name: its value, or none where it failed, which is told.
pub(crate) fn told<T>(rt: &impl Eprint, name: &str, tried: io::Result<T>) -> Option<T>
    ensures { result ≡ result_ok tried }
{
    match tried {
        Ok(value) => Some(value),
        Err(error) => {
            fail(rt, name, error);
            None
        }
    }
}

// A file to read from.
pub(crate) fn open<R: Files<File = File> + Eprint>(rt: &R, name: &str) -> Option<File> {
    told(rt, name, File::open(rt, name))
}

// How many bytes reads put into a buffer, and why the last of them failed.
// kept: no plainer: an end before its time is told as the system tells a call that has not failed.
#[derive(Clone, Copy)]
struct Filled {
    count: usize,
    error: Error,
}

// The error of a call that has not failed, as the system has it.
pub(crate) fn no_error() -> Error {
    Error::from_raw_os_error(0)
}

// Reads until the buffer is full, the file ends or a read fails.
fn read_full(file: &mut impl Read, buffer: &mut [u8]) -> Filled
    ensures { result.count ≤ length buffer.new }
{
    let mut done = 0;
    // kept: no plainer: each read brings as many bytes as it likes
    while done < buffer.len() {
        let n = match file.read(&mut buffer[done..]) {
            Ok(n) => n,
            Err(error) => return Filled { count: done, error },
        };
        if n == 0 {
            return Filled {
                count: done,
                error: no_error(),
            };
        }
        done += n;
    }
    Filled {
        count: done,
        error: no_error(),
    }
}

// A read that failed, which is told, and how many bytes were brought all the same.
#[derive(Clone, Copy)]
pub(crate) struct Unread {
    pub(crate) brought: usize,
}

// How many bytes were brought, whether a read failed or not.
pub(crate) fn brought(read: Result<usize, Unread>) -> usize
    ensures { MatchResult read (λ n. result ≡ n) (λ u. result ≡ u.brought) }
{
    match read {
        Ok(count) => count,
        Err(unread) => unread.brought,
    }
}

// How many bytes were brought, where one read more shows that the file can be read.
fn see_more(
    rt: &impl Eprint,
    file: &mut impl Read,
    count: usize,
    name: &str,
) -> Result<usize, Unread>
    ensures { MatchResult result (λ n. n ≡ count) (λ u. u.brought ≡ count) }
{
    let mut next = [0u8; 1];
    match told(rt, name, file.read(&mut next)) {
        Some(_) => Ok(count),
        None => Err(Unread { brought: count }),
    }
}

// Reads until the buffer is full or the file ends: how many bytes, or none where a read fails, which is told. It stops
// likewise at a read that fails, which the next one does too.
pub(crate) fn fill(
    rt: &impl Eprint,
    file: &mut impl Read,
    buffer: &mut [u8],
    name: &str,
) -> Option<usize>
    ensures { IfSome result (λ n. n ≤ length buffer.new) }
{
    let filled = read_full(file, buffer);
    see_more(rt, file, filled.count, name).ok()
}

// Whether the next read or write of a file is at a place.
pub(crate) fn go_to(rt: &impl Eprint, file: &File, place: u64, name: &str) -> bool {
    let mut of = file;
    told(rt, name, of.seek(SeekFrom::Start(place))).is_some()
}

// Reads likewise from an offset on, where so many bytes must be there: fewer are a read that has failed.
pub(crate) fn read_at(
    rt: &impl Eprint,
    file: &File,
    offset: u64,
    want: usize,
    buffer: &mut [u8],
    name: &str,
) -> Result<usize, Unread>
    ensures { MatchResult result (λ n. n ≤ length buffer.new) (λ u. u.brought ≤ length buffer.new) }
{
    if !go_to(rt, file, offset, name) {
        return Err(Unread { brought: 0 });
    }
    let mut from = file;
    let filled = read_full(&mut from, buffer);
    let seen = see_more(rt, &mut from, filled.count, name);
    if filled.count >= want {
        return seen;
    }
    if seen.is_ok() {
        fail(rt, name, filled.error);
    }
    Err(Unread { brought: 0 })
}

// How many of so many bytes from a place on a file of that size has.
pub(crate) fn there(size: usize, at: usize, most: usize) -> usize {
    size.saturating_sub(at).min(most)
}

// The length of a file.
pub(crate) fn length(rt: &impl Eprint, file: &File, name: &str) -> Option<usize> {
    let mut of = file;
    let end = told(rt, name, of.seek(SeekFrom::End(0)))?;
    Some(end as usize)
}

// The name of the new file beside the index, into a buffer: the index's and `.new`; and its length, or 0 where it is
// too long.
pub(crate) fn new_name(rt: &impl Env, name: &mut [u8]) -> usize
    ensures { result ≤ length name.new }
{
    let n = rt.arg(3, name).unwrap_or(0);
    if name.len() < 4 {
        return 0;
    }
    if n > name.len() - 4 {
        return 0;
    }
    name[n..n + 4].copy_from_slice(b".new");
    n + 4
}

// The new file's name as text, which it is where the index's is.
pub(crate) fn as_text(name: &[u8]) -> &str {
    troubles::text(name).unwrap_or("")
}

// Makes the new file, for writing. Where there is one, another run writes it or was stopped.
pub(crate) fn create<R: Files<File = File> + Eprint>(rt: &R, name: &str) -> Option<File> {
    let made = OpenOptions::new()
        .write(true)
        .create_new(true)
        .open(rt, name);
    told(rt, name, made)
}

// Whether all bytes were written.
pub(crate) fn write(rt: &impl Eprint, file: &File, bytes: &[u8], name: &str) -> bool {
    let mut to = file;
    told(rt, name, to.write_all(bytes)).is_some()
}

// Whether what was written has reached the device.
pub(crate) fn sync(rt: &impl Eprint, file: &File, name: &str) -> bool {
    told(rt, name, file.sync_all()).is_some()
}

// Whether the new file has taken the index's place.
pub(crate) fn replace<R: Files + Eprint>(rt: &R, index: &str, new: &str) -> bool {
    told(rt, index, fs::rename(rt, new, index)).is_some()
}
