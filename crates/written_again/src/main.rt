// Writes scene records again: each record of standard input that the reader accepts has its parts lent to the writer,
// which has to leave the same bytes.
#![tactic(auto)]

ghost use Rattle.std.specs.Prelude.{◌≤◌, length};

use std::io;
use std::io::{ErrorKind, Read};
use verdict::Tally;

mod again;

// Fills the bytes from the input. False where the input ends before.
fn fill(input: &mut impl Read, bytes: &mut [u8]) -> io::Result<bool> {
    match input.read_exact(bytes) {
        Ok(()) => Ok(true),
        Err(error) => {
            if error.kind() == ErrorKind::UnexpectedEof {
                return Ok(false);
            }
            Err(error)
        }
    }
}

// Reads a record to the start of the bytes: the two bytes of its length, then as many as they name. How many bytes it
// has; none where the input has ended, or ends within it.
fn read(input: &mut impl Read, bytes: &mut [u8]) -> io::Result<Option<usize>>
    requires { 65537 ≤ length bytes.old }
{
    if !fill(input, &mut bytes[..2])? {
        return Ok(None);
    }
    let end = 2 + usize::from(words::pair_at(bytes, 0));
    if !fill(input, &mut bytes[2..end])? {
        return Ok(None);
    }
    Ok(Some(end))
}

// The tally of the records that are accepted, each named by its index among all of them.
fn tally_of_input(input: &mut impl Read) -> io::Result<Tally> {
    let mut tally = Tally::NONE;
    let mut bytes = [0; 65537];
    for index in 0..u32::MAX {
        match read(input, &mut bytes)? {
            Some(end) => tally = again::with_record(tally, &bytes, end, index),
            None => return Ok(tally),
        }
    }
    Ok(tally.with(false, u32::MAX))
}

fn main(rt: HostRuntime) -> io::Result<()> {
    let mut input = rt.reader();
    tally_of_input(&mut input)?.tell(&rt, b"records written again");
    Ok(())
}
