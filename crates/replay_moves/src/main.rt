// Moves scene records from standard input between their versions, and writes to standard output what was told and what
// the buffer held then. A call is a pair, the version to move to, a pair, the buffer's length, a pair, the record's
// length, and the record. The answer is a pair, the length that was written or FF00 and the refusal's number, and the
// whole buffer. The oracle makes both files.
#![tactic(auto)]

use admission::Refusal;
use std::io;
use std::io::{ErrorKind, Read, Write};

// What stands in a buffer before a move.
const SENTINEL: u8 = 0xa5;

fn told(written: Result<usize, Refusal>) -> u16 {
    match written {
        Ok(length) => (length % 0x1_0000) as u16,
        Err(refusal) => 0xff00 + u16::from(refusal.number()),
    }
}

fn moved(head: &[u8], source: &[u8], buffer: &mut [u8]) -> Result<usize, Refusal> {
    if words::pair_at(head, 0) == 1 {
        return scene_moves::to_version_1(source, buffer);
    }
    scene_moves::to_version_2(source, buffer)
}

// Makes the call, and answers how many bytes the answer has: 0 for a buffer that is longer than fits here.
fn answer_call(head: &[u8], source: &[u8], answer: &mut [u8]) -> usize {
    let end = 2 + words::pair_at(head, 2) as usize;
    if end > answer.len() {
        return 0;
    }
    let written = moved(head, source, &mut answer[2..end]);
    words::put_pair(answer, 0, told(written));
    end
}

// Fills the bytes from the input. False where the input ends before.
fn fill(input: &mut impl Read, bytes: &mut [u8]) -> io::Result<bool> {
    match input.read_exact(bytes) {
        Ok(()) => Ok(true),
        Err(error) => {
            if error.kind() == ErrorKind::UnexpectedEof {
                return Ok(false);
            }
            Err(error)
        }
    }
}

// One call read, made and answered. False where the input has ended, or a call has more than fits here.
fn turn(
    input: &mut impl Read,
    output: &mut impl Write,
    head: &mut [u8],
    source: &mut [u8],
) -> io::Result<bool> {
    if !fill(input, head)? {
        return Ok(false);
    }
    let size = words::pair_at(head, 4) as usize;
    if size > source.len() {
        return Ok(false);
    }
    if !fill(input, &mut source[0..size])? {
        return Ok(false);
    }
    let mut answer: [u8; 4096] = [SENTINEL; 4096];
    let length = answer_call(head, &source[0..size], &mut answer);
    if length > answer.len() {
        return Ok(false);
    }
    output.write_all(&answer[0..length])?;
    Ok(true)
}

// Turn behind turn; the count only bounds the loop.
fn main(rt: HostRuntime) -> io::Result<()> {
    let mut input = rt.reader();
    let mut output = io::writer(&rt);
    let mut head: [u8; 6] = [0; 6];
    let mut source: [u8; 4096] = [0; 4096];
    for _ in 0..u64::MAX {
        if !turn(&mut input, &mut output, &mut head, &mut source)? {
            return Ok(());
        }
    }
    Ok(())
}
