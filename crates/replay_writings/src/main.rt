// Calls the scene writer with parts from standard input, and writes to standard output what it told and what the buffer
// held then. The oracle makes both files.
#![tactic(auto)]

use std::io;
use std::io::{ErrorKind, Read, Write};

mod call;

// Fills the bytes from the input. False where the input ends before.
fn fill(input: &mut impl Read, bytes: &mut [u8]) -> io::Result<bool> {
    match input.read_exact(bytes) {
        Ok(()) => Ok(true),
        Err(error) => {
            if error.kind() == ErrorKind::UnexpectedEof {
                return Ok(false);
            }
            Err(error)
        }
    }
}

// One call read, made and answered. False where the input has ended, or a call has more than fits here.
fn turn(
    input: &mut impl Read,
    output: &mut impl Write,
    head: &mut [u8],
    rest: &mut [u8],
) -> io::Result<bool> {
    if !fill(input, head)? {
        return Ok(false);
    }
    let size = call::rest_length(head);
    if size > rest.len() {
        return Ok(false);
    }
    if !fill(input, &mut rest[0..size])? {
        return Ok(false);
    }
    let mut answer: [u8; 4096] = [call::SENTINEL; 4096];
    let length = call::answer_call(head, &rest[0..size], &mut answer);
    if length > answer.len() {
        return Ok(false);
    }
    output.write_all(&answer[0..length])?;
    Ok(true)
}

// Turn behind turn; the count only bounds the loop.
fn main(rt: HostRuntime) -> io::Result<()> {
    let mut input = rt.reader();
    let mut output = io::writer(&rt);
    let mut head: [u8; 64] = [0; 64];
    let mut rest: [u8; 4096] = [0; 4096];
    for _ in 0..u64::MAX {
        if !turn(&mut input, &mut output, &mut head, &mut rest)? {
            return Ok(());
        }
    }
    Ok(())
}
