// Moves a stream of scene records to the other version (02, T-07): `convert 2` reads records of version 1 from
// standard input and writes them as version 2 to standard output, `convert 1` moves them back. The first record that
// is refused ends it, with the line `refused R at N` on standard error. A read or a write that fails is told there
// too, the one sign of it that the program gives: its exit status is 0 all the same.
#![tactic(auto)]

ghost use Rattle.std.specs.Prelude.{◌≤◌, length, IfSome};
ghost use Rattle.conversion.specs.Turns.{Ready};
ghost use Rattle.convert.specs.Turns.{brought_in, GoesOn};

use conversion::{Stage, Stream};
use scene_records::Version;
use std::io::Read;
use std::rt::Env;

// How many bytes a read brings, none at the input's end; or nothing where it has failed.
fn read<R: Input + Eprint>(rt: &R, input: &mut [u8]) -> Option<usize>
    ensures { brought_in result ≤ length input.new }
{
    let got = rt.reader().read(input);
    troubles::told(rt, "convert: standard input", got)
}

// Writes all moved records, or nothing is answered.
fn write<R: Print + Eprint>(rt: &R, records: &[u8]) -> Option<()> {
    troubles::told(rt, "convert: standard output", rt.write_all(records))
}

// One read, behind what is kept, a turn of the stream, and one write. There is no stream more where a read or a write has
// failed.
fn turn<R: Input + Print + Eprint>(
    rt: &R,
    input: &mut [u8],
    output: &mut [u8],
    before: Stream,
    to: Version,
) -> Option<Stream>
    requires { Ready (length input.old) (length output.old) before.kept }
    ensures goes_on { GoesOn to before input.old result input.new output.new }
    ensures ready { IfSome result (λ next. Ready (length input.new) (length output.new) next.kept) }
{
    let brought = read(rt, &mut input[before.kept..])?;
    let next = conversion::turn(input, output, before, brought, to);
    write(rt, &output[0..next.put])?;
    Some(next)
}

fn tell_refused(rt: &impl Eprint, number: u8, place: u64) {
    let written = eprintln!(rt; "refused {number} at {place}");
    troubles::told(rt, "convert: standard error", written);
}

// Turn behind turn until one fails or the stream has ended. The count only bounds the loop.
fn turns<R: Input + Print + Eprint>(rt: &R, input: &mut [u8], output: &mut [u8], to: Version)
    requires { Ready (length input.old) (length output.old) 0 }
{
    let mut stream = conversion::start();
    for _ in 0..u64::MAX {
        let Some(next) = turn(rt, input, output, stream, to) else {
            return;
        };
        match next.stage {
            Stage::Open => stream = next,
            Stage::Refused(refusal) => return tell_refused(rt, refusal.number(), next.place),
            Stage::Whole | Stage::NoRoom => return,
        }
    }
}

fn convert<R: Input + Print + Eprint>(rt: &R, to: Version) {
    let mut input = [0u8; Stream::INPUT];
    let mut output = [0u8; Stream::OUTPUT];
    turns(rt, &mut input, &mut output, to);
}

fn main(rt: HostRuntime) {
    let mut word = [0u8; 4096];
    let length = rt.arg(1, &mut word).unwrap_or(0);
    let to = match &word[..length] {
        [b'1'] => Version::One,
        [b'2'] => Version::Two,
        _ => {
            let _ = rt.eprint("convert: the version to move to is missing: 1 or 2\n");
            return;
        }
    };
    convert(&rt, to);
}
