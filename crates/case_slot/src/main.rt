//! The slot of a label in the demonstration's map of three bits; the label's line ends the input.
#![tactic(auto)]

fn main(rt: HostRuntime) {
    selector_files::run(&rt);
}
