// How the programs read their input and write their output: over any reader and any writer.
#![tactic(auto)]

ghost use Rattle.std.specs.Prelude.{◌<◌, ◌≤◌, length, take, OnOk};
ghost use Rattle.std.specs.Io.KnownBytes.{Consumes, IsAtEnd};
ghost use Rattle.streams.specs.Pipe.{Replies, Pipes};

use std::io;
use std::io::{Read, Write};

// Reads until `buf` is full, the input ends or a read fails. Gives how many bytes it put at the front of `buf`, which are what it took
// from the input, in order; and the error of the read that failed, if one did. With no error `buf` is full, or the input is at its end.
// Kept: the number beside the error, since what came before a read that failed counts.
pub fn read_full<R: Read>(input: &mut R, buf: &mut [u8]) -> (usize, io::Result<()>)
    ensures within { result.0 ≤ length buf.new }
    ensures taken { Consumes (R.remaining input.old) (R.remaining input.new) (take result.0 buf.new) }
    ensures all { OnOk result.1 (result.0 < length buf.new → IsAtEnd (R.remaining input.new)) }
{
    let mut done = 0;
    while done < buf.len() {
        match input.read(&mut buf[done..]) {
            Ok(0) => return (done, Ok(())),
            Ok(n) => done += n,
            Err(e) => return (done, Err(e)),
        }
    }
    (done, Ok(()))
}

// Reads no more than 4,093 bytes of the input, where a read that fails ends it; lets `reply` put its answer at the front of 4,096
// bytes; and writes as many of them as it gives.
pub fn pipe<R: Read, W: Write, F: FnOnce(&[u8], &mut [u8; 4096]) -> usize>(
    input: &mut R,
    output: &mut W,
    reply: F,
) -> io::Result<()>
    requires { F.IsAlwaysCallable reply }
    ensures { OnOk result (Pipes (Replies F.FnOnce reply) (R.remaining input.old) (R.remaining input.new)
        (W.contents output.old) (W.contents output.new)) }
{
    let mut file = [0; 4093];
    let (size, _) = read_full(input, &mut file);
    let mut out = [0; 4096];
    let n = reply(&file[..size], &mut out);
    output.write_all(&out[..n.min(4096)])
}
