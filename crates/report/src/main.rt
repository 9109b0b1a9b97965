// The report program, document 01: one capture on standard input, one line on standard output.
#![tactic(auto)]

fn main(rt: HostRuntime) -> std::io::Result<()> {
    line::report(&rt)
}
