//! Settles the map of the folder that it is run in: `map.cub` and `map.scr`, with the number of variables on standard input.
#![tactic(auto)]

fn main(rt: HostRuntime) {
    map_files::run(&rt);
}
