//! Settles the map of the folder that it is run in, or says which slot a label gets in it and why: `bit0.cub`, `bit0.scr` and so on, with the number of variables and, where
//! there is one, the label on standard input.
#![tactic(auto)]

fn main(rt: HostRuntime) {
    selector_files::run(&rt);
}
