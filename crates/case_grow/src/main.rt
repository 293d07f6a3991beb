//! A list that has to grow to shrink: three products, then four, then two.
#![tactic(auto)]

fn main(rt: HostRuntime) {
    map_files::run(&rt);
}
