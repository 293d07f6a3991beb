//! Maps and scripts as text: settled, asked, made and packed, by the program's arguments.
#![tactic(auto)]

fn main(rt: HostRuntime) {
    commands::run(&rt, &rt.stderr());
}
