//! `map.scr` is missing, and the list is good: no file. The line has no newline.
#![tactic(auto)]

fn main(rt: HostRuntime) {
    map_files::run(&rt);
}
