//! An empty line: refusal 1, whatever the line after it says.
#![tactic(auto)]

fn main(rt: HostRuntime) {
    map_files::run(&rt);
}
