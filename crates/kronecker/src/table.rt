//! How many products the list of each choice has: a table of 3^n bytes, in which variable 0 is the lowest digit of a place. Choices that differ in the highest
//! variable's digit alone share what is below it: the tables of the function's lower half, of its upper half and of their change.

ghost use Rattle.std.specs.Prelude.{◌≡◌, ℕ, ◌*◌, ◌^◌, ◌≤◌, length, get_or};
ghost use Rattle.bits.specs.Bits.{bit};
ghost use Rattle.kronecker.specs.Words.{products_of_all, joined_parts};

/// With one variable, from the two lowest bits.
fn put_one(w: u64, table: &mut [u8])
    requires { length table.old ≡ 3 }
    ensures { table.new ≡ products_of_all 1 (bit w) }
{
    let lower = (w % 2) as u8;
    let upper = ((w >> 1) % 2) as u8;
    let change = ((w ^ (w >> 1)) % 2) as u8;
    table[0] = lower + upper;
    table[1] = lower + change;
    table[2] = upper + change;
}

/// In place: where the entries of lower half, upper half and change stand, those of the three digits come. Each digit's branches are two of the three.
fn join_parts(part: usize, table: &mut [u8])
    requires { (length table.old ≡ 3 * part) × ((i : ℕ) → get_or table.old i 0 ≤ 127) }
    ensures { table.new ≡ joined_parts part table.old }
{
    // Stays: by places, since a loop over parts that are written says nothing of their bytes.
    for i in 0..part {
        let j = part + i;
        let k = j + part;
        let lower = table[i];
        let upper = table[j];
        let change = table[k];
        table[i] = lower + upper;
        table[j] = lower + change;
        table[k] = upper + change;
    }
}

/// The table of the function of the lowest 2^left bits.
pub(crate) fn fill(left: usize, w: u64, table: &mut [u8])
    requires { (left ≤ 6) × (length table.old ≡ 3 ^ left) }
    ensures { table.new ≡ products_of_all left (bit w) }
{
    if left == 0 {
        table[0] = (w % 2) as u8;
        return;
    }
    if left == 1 {
        put_one(w, table);
        return;
    }
    let m = left - 1;
    let half: usize = 1 << m;
    let upper = w >> half;
    let part = table.len() / 3;
    let end = 2 * part;
    fill(m, w, &mut table[..part]);
    fill(m, upper, &mut table[part..end]);
    fill(m, w ^ upper, &mut table[end..]);
    join_parts(part, table);
}
