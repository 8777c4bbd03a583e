// Reads a plan file on standard input, no more than 4,093 bytes of it, and writes the plan file with the rounds of the plan, or the NO
// line.
#![tactic(auto)]

fn main(rt: HostRuntime) {
    let _ = streams::pipe(&mut rt.stdin(), &mut rt.stdout(), desk::planner);
}
