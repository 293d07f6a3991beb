//! Says why a label goes to its slot in the map of the folder that it is run in: `map.cub`, with the number of variables and the label on standard input.
#![tactic(auto)]

fn main(rt: HostRuntime) {
    why_files::run(&rt);
}
