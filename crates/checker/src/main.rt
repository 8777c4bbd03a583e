// Reads a plan file on standard input, no more than 4,093 bytes of it, and prints one line: OK or NO.
#![tactic(auto)]

fn main(rt: HostRuntime) {
    let _ = streams::pipe(&mut rt.stdin(), &mut rt.stdout(), desk::checker);
}
