//! The codes at one variable moved by an order, in the cube of every record of the work buffer.
ghost use Rattle.std.specs.Prelude.{◌≡◌, map, ◌<◌, length};
ghost use Rattle.bits.specs.Sums.{All};
ghost use Rattle.records.specs.Records.{Held, records, image};
ghost use Rattle.cube.specs.Lists.{most_variables};
ghost use Rattle.orders.specs.Orders.{order_count};
ghost use Rattle.steps.specs.Steps.{reordered};
ghost use Rattle.shared.specs.SharedRecord.{shares, Fine};
ghost use Rattle.shared_steps.specs.SharedSteps.{on_cube};

use crate::OnProducts;
use steps::reorder::reorder_on;

/// Every cube's code at v moved by the order o; the outputs stay.
pub fn reorder(work: &mut [u8], count: usize, v: u8, o: u8)
    requires held { Held shares count work.old }
    requires all { All (Fine most_variables) (records shares count work.old) }
    requires v_lt_most_variables { (v < most_variables) × (o < order_count) }
    ensures { work.new ≡ image shares (length work.old) (map (on_cube (reordered v o)) (records shares count work.old)) }
{
    reorder_on::<OnProducts>(work, count, v, o)
}
