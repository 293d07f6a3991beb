//! `map.cub` is a folder, which can be opened and not read: no file.
#![tactic(auto)]

fn main(rt: HostRuntime) {
    map_files::run(&rt);
}
