//! The label's line has no newline, and ends the input.
#![tactic(auto)]

fn main(rt: HostRuntime) {
    why_files::run(&rt);
}
