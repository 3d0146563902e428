// What a program has to tell of the system: that something failed, and why, on standard error; and an argument that
// cannot be used. Only programs use it. What the system holds or takes no contract can say: of `text` alone one speaks.
#![tactic(auto)]

ghost use Rattle.std.specs.Prelude.{◌≡◌, IsUtf8, MatchResult};
ghost use Rattle.std.specs.Result.{result_ok};

use std::env::FillError;
use std::fmt::InlineText;
use std::io::Error;
use std::rt::Env;
use std::{io, str};

// The system's numbers for an argument that is missing, one that is too long, and one that is no text.
const INVALID: i32 = 22;

const TOO_LONG: i32 = 36;

const NO_TEXT: i32 = 84;

// What failed, as the caller names it, a colon and the system's text for it. What cannot be told is lost.
pub fn tell(rt: &impl Eprint, what: &str, error: Error) {
    let whole = InlineText::<256>::of(error);
    let text = reason(whole.as_str());
    let _ = eprintln!(rt; "{what}: {text}");
}

// What was tried: its value, or none where it failed, which is told.
pub fn told<T>(rt: &impl Eprint, what: &str, tried: io::Result<T>) -> Option<T>
    ensures { result ≡ result_ok tried }
{
    match tried {
        Ok(value) => Some(value),
        Err(error) => {
            tell(rt, what, error);
            None
        }
    }
}

// The text of an error without the system's number of it, which stands behind in brackets.
fn reason(text: &str) -> &str {
    text.split_once(" (os error ")
        .map_or(text, |(reason, _)| reason)
}

// Argument `i`, put into a buffer. One that is missing, that is longer than the buffer, or that is no text, is an
// error; a file's name can be given as text alone.
pub fn argument<'a, R: Env>(rt: &R, i: usize, buffer: &'a mut [u8]) -> io::Result<&'a str> {
    let n = rt.arg(i, buffer).map_err(|error| {
        Error::from_raw_os_error(match error {
            FillError::NotPresent => INVALID,
            FillError::TooLong => TOO_LONG,
        })
    })?;
    text(&buffer[..n])
}

// Bytes as text, where they are UTF-8.
pub fn text(bytes: &[u8]) -> io::Result<&str>
    ensures { MatchResult result (λ s. (s.now ≡ bytes.now) × IsUtf8 bytes.now) (λ e. IsUtf8 bytes.now → ⊥) }
{
    str::from_utf8(bytes).map_err(|_| Error::from_raw_os_error(NO_TEXT))
}
