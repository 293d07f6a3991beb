//! What a list costs.
ghost use Rattle.std.specs.Prelude.{◌≡◌, ◌≤◌, length};
ghost use Rattle.cube.specs.Lists.{cubes_of, most_records};
ghost use Rattle.polarity.specs.Cost.{cost as cost_cost};

/// The number of a list's products, less one if at least one of them has no literal; of a list that has no more than 4,096.
pub fn cost(list: &[u8]) -> usize
    ensures { length (cubes_of list.now) ≤ most_records → result ≡ cost_cost (cubes_of list.now) }
{
    if cube::list::MOST_RECORDS < list.len() / cube::list::RECORD_WIDTH {
        return 0;
    }
    let counts = settling::candidates::count_list(list);
    let products = counts.products as usize;
    if counts.constant {
        if products == 0 {
            return 0;
        }
        return products - 1;
    }
    products
}
