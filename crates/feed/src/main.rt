// Reads scene records from standard input to its end and writes the answer to each to standard output (01, "Records
// (ours)"). A read or a write that fails is told on standard error, the one sign of it that the program gives: its exit
// status is 0 all the same.
#![tactic(auto)]

ghost use Rattle.std.specs.Prelude.{◌≤◌, length};
ghost use Rattle.records.specs.Turns.{Ready, Follows};

use records::Stream;
use std::io::Read;

// How many bytes one read brings: none at the input's end, and none where it fails.
fn read<R: Input + Eprint>(rt: &R, input: &mut [u8]) -> usize
    ensures { result ≤ length input.new }
{
    let got = rt.reader().read(input);
    troubles::told(rt, "feed: standard input", got).unwrap_or(0)
}

// Whether all answers could be written.
fn write<R: Print + Eprint>(rt: &R, answers: &[u8]) -> bool {
    troubles::told(rt, "feed: standard output", rt.write_all(answers)).is_some()
}

// One read, behind what is kept, a turn of the stream, and one write. An output that fails ends it, and so does an input that
// fails, as its end does.
fn turn<R: Input + Print + Eprint>(
    rt: &R,
    input: &mut [u8],
    output: &mut [u8],
    before: Stream,
) -> Stream
    requires { Ready (length input.old) (length output.old) before.kept }
    ensures follows { Follows before input.old result input.new output.new }
    ensures ready { Ready (length input.new) (length output.new) result.kept }
{
    let brought = read(rt, &mut input[before.kept..]);
    let next = records::turn(input, output, before, brought);
    if write(rt, &output[0..next.put]) {
        return next;
    }
    Stream {
        more: false,
        ..next
    }
}

// Turn behind turn until one closes. The count only bounds the loop.
fn turns<R: Input + Print + Eprint>(rt: &R, input: &mut [u8], output: &mut [u8])
    requires { Ready (length input.old) (length output.old) 0 }
{
    let mut stream = Stream::START;
    for _ in 0..u64::MAX {
        stream = turn(rt, input, output, stream);
        if !stream.more {
            return;
        }
    }
}

fn main(rt: HostRuntime) {
    let mut input = [0u8; Stream::INPUT];
    let mut output = [0u8; Stream::OUTPUT];
    turns(&rt, &mut input, &mut output);
}
