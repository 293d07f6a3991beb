//! A selector: a map of 1 to 12 lists, one per slot bit. It knows of the library below it only what the contracts say.
#![tactic(auto)]

mod lengths;
mod lists;
pub mod map_reasons;
pub mod settle_map;
pub mod slot;

ghost use Rattle.std.specs.Prelude.{◌≡◌, Err};
ghost use Rattle.records.specs.Records.{zeros};
ghost use Rattle.selector.specs.Maps.{most_lists};
ghost use Rattle.selector.specs.Refusals.{of_map, of_list};

use records::Refusal;

/// Lists of a map, at most.
pub const MOST_LISTS: usize = 12;

/// Why a call on a map is refused: a refusal of the map itself, or one of a list, with the list's number.
#[derive(Clone, Copy, Debug, PartialEq, Eq)]
pub struct MapRefusal {
    pub refusal: Refusal,
    pub list: Option<usize>,
}

/// A refusal that belongs to no list.
impl From<Refusal> for MapRefusal {
    ghost from_gives = { λ refusal made. made ≡ of_map refusal };

    fn from(refusal: Refusal) -> MapRefusal {
        MapRefusal {
            refusal,
            list: None,
        }
    }
}

impl MapRefusal {
    /// The refusal of a list of the map.
    pub fn of_list(refusal: Refusal, list: usize) -> MapRefusal
        ensures { result ≡ of_list refusal list }
    {
        MapRefusal {
            refusal,
            list: Some(list),
        }
    }
}

/// A number that is asked for of a map, with one for each list and zeros after the last: how many bytes its burned list has, or how many of its products are true. A refusal has zeros.
// Stays: the numbers stand beside the answer; of a refusal it is promised too that they are 0.
#[derive(Clone, Copy, Debug, PartialEq, Eq)]
pub struct ByList {
    pub answer: Result<usize, MapRefusal>,
    pub each: [u64; MOST_LISTS],
}

impl ByList {
    /// A refusal, with zeros.
    fn refused(why: MapRefusal) -> ByList
        ensures { (result.answer ≡ Err why) × (result.each ≡ zeros most_lists) }
    {
        ByList {
            answer: Err(why),
            each: [0; MOST_LISTS],
        }
    }
}
