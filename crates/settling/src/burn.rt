//! The list that is burned, and zeros after it.
ghost use Rattle.std.specs.Prelude.{◌≡◌, ◌^◌, ◌%◌, ◌<◌, ◌≤◌, length, take};
ghost use Rattle.cube.specs.Lists.{cubes_of, cube_capacity, record_width};
ghost use Rattle.polarity.specs.Forms.{form_list};
ghost use Rattle.polarity.specs.Vectors.{byte_at, Vector};
ghost use Rattle.settling.specs.Choice.{list_from, ListFits, Burnable, BurnedIs};

use crate::{BestForm, Origin, tree};

/// A whole list, as it stands.
fn burn_list(list: &[u8], out: &mut [u8]) -> usize
    requires record_width_len { length list.now % record_width ≡ 0 }
    requires list_len_bound { length (cubes_of list.now) ≤ cube_capacity (length out.old) }
    ensures { BurnedIs (cubes_of list.now) out.old out.new result }
{
    records::fill(out, list);
    list.len() / cube::list::RECORD_WIDTH
}

/// The form of a vector under p; its coefficients are left in a buffer as long as the vector.
fn put_form(n: usize, vector: &[u8], p: usize, buffer: &mut [u8], out: &mut [u8]) -> usize
    requires vector { Vector n vector.now }
    requires p_bound { p < 2 ^ n }
    requires buffer_len { length buffer.old ≡ 2 ^ n }
    requires vector_len_bound { length (form_list n p (byte_at vector.now)) ≤ cube_capacity (length out.old) }
    ensures { BurnedIs (form_list n p (byte_at vector.now)) out.old out.new result }
{
    records::clear(out);
    let _ = polarity::transform::coefficients(n, vector, p as u64, buffer);
    match polarity::form::write_form(n, buffer, p as u64, out) {
        Ok(count) => count,
        Err(_) => 0,
    }
}

/// The form of the vector at the front of a buffer.
fn burn_form(n: usize, vector: &[u8], p: usize, out: &mut [u8]) -> usize
    requires list_fits { ListFits n vector.now (form_list n p) (length out.old) }
    requires p_bound { p < 2 ^ n }
    ensures { BurnedIs (form_list n p (byte_at (take (2 ^ n) vector.now))) out.old out.new result }
{
    let mut coefficients = [0u8; 256];
    let assignments: usize = 1 << n;
    put_form(
        n,
        &vector[..assignments],
        p,
        &mut coefficients[..assignments],
        out,
    )
}

/// The list that an origin names.
pub(crate) fn burn(
    n: usize,
    list: &[u8],
    res: &[u8],
    best: BestForm,
    origin: Origin,
    out: &mut [u8],
) -> usize
    requires { Burnable n list.now res.now best origin (length out.old) }
    ensures { BurnedIs (list_from n (cubes_of res.now) (cubes_of list.now) origin) out.old out.new result }
{
    match origin {
        Origin::Script => burn_list(res, out),
        Origin::Given => burn_list(list, out),
        Origin::Form(p) => {
            let vector = best.vector;
            burn_form(n, &vector, p, out)
        }
        Origin::Tree => {
            let vector = best.vector;
            tree::burn_tree(n, &vector, out)
        }
    }
}
