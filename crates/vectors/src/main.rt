//! Vectors through the calls of `cube`, `reasons`, `converters`, `script`, `index`, `indexed`, `writer`, `compactor`, `settling`, `shared`, `shared_run`, `polarity`, `trees` and `kronecker`: a table from standard input. Each row is printed as it stands, and after it what its call answers
//! and what it leaves in the buffers that it was lent; a row that can't be read is answered by the place from which on it can't.
#![tactic(auto)]

mod vectors;

use vectors::Vectors;

fn main(rt: HostRuntime) {
    rows::table::answer_all_in_place::<Vectors, _>(&rt);
}
