//! The tree's list, burned: to the front of the output, zeros after it.
ghost use Rattle.std.specs.Prelude.{◌^◌, ◌≤◌, length, take};
ghost use Rattle.cube.specs.Lists.{cube_capacity};
ghost use Rattle.polarity.specs.Vectors.{byte_at, Vector};
ghost use Rattle.trees.specs.Least.{tree_list};
ghost use Rattle.settling.specs.Choice.{ListFits, BurnedIs};

/// The tree's list of a vector.
fn put_tree(n: usize, vector: &[u8], out: &mut [u8]) -> usize
    requires vector { Vector n vector.now }
    requires vector_len_bound { length (tree_list n (byte_at vector.now)) ≤ cube_capacity (length out.old) }
    ensures { BurnedIs (tree_list n (byte_at vector.now)) out.old out.new result }
{
    records::clear(out);
    trees::tree::put_list(n, vector, out)
}

/// The tree's list of the vector at the front of a buffer.
pub(crate) fn burn_tree(n: usize, vector: &[u8], out: &mut [u8]) -> usize
    requires { ListFits n vector.now (tree_list n) (length out.old) }
    ensures { BurnedIs (tree_list n (byte_at (take (2 ^ n) vector.now))) out.old out.new result }
{
    let assignments: usize = 1 << n;
    put_tree(n, &vector[..assignments], out)
}
