//! Answers as eight words: the number of a refusal, its place, and six values; of a refusal the first value is its number of differing variables, and of a map the second the list's number.
#![tactic(auto)]

mod answers;

ghost use Rattle.std.specs.Prelude.{◌≡◌, [], ◌∷◌, get_or};
ghost use Rattle.records.specs.Answers.{outcome_of, counted, after_call};
ghost use Rattle.selector.specs.Answers.{map_told};
ghost use Rattle.words.specs.Words.{eight, words, with_start, map_words, after_each};

pub use answers::{Answer, Group};
use index::{GROUPS, Indexed};
use records::Refusal;
use selector::{ByList, MOST_LISTS, MapRefusal};

/// What stands for the list's number where a refusal belongs to no list of a map.
const NO_LIST: u64 = u64::MAX;

/// A refusal: its number, its place and its third answer, and after them the number of a list, or 0.
fn refusal_words(r: Refusal, list: u64) -> [u64; 8]
    ensures { result ≡ eight r.number r.place (r.differing ∷ list ∷ []) }
{
    let number = r.number as u64;
    let place = r.place as u64;
    let differing = r.differing as u64;
    [number, place, differing, list, 0, 0, 0, 0]
}

/// The values of an accepted call, or its refusal.
#[tactic(auto, unfolding(crate::specs::Words::words))]
pub fn put_answer<A: Answer>(answer: &mut [u64; 8], r: Result<A, Refusal>)
    ensures { answer.new ≡ words (outcome_of A.values r) }
{
    *answer = match r {
        Ok(value) => {
            let [a, b, c, d, e, f] = value.words();
            [0, 0, a, b, c, d, e, f]
        }
        Err(why) => refusal_words(why, 0),
    };
}

/// The count of an index, with the start of each group; or a refusal, and then the starts are as they were.
pub fn put_indexed(answer: &mut [u64; 8], starts: &mut [u64; GROUPS], r: Indexed)
    ensures answer_after { answer.new ≡ words (counted r.answer) }
    ensures starts_after { starts.new ≡ after_call (counted r.answer) r.starts starts.old }
{
    if r.answer.is_ok() {
        *starts = r.starts;
    }
    put_answer(answer, r.answer);
}

/// The start of group m, or 0 where there is no such group.
pub fn start_at(starts: [u64; GROUPS], m: usize) -> usize
    ensures { result ≡ get_or starts m 0 }
{
    if GROUPS <= m {
        return 0;
    }
    starts[m] as usize
}

/// How many entries a group has, and the one that it begins at; or a refusal.
pub fn put_group(answer: &mut [u64; 8], r: Result<usize, Refusal>, start: usize)
    ensures { answer.new ≡ words (with_start start (counted r)) }
{
    let group = r.map(|entries| Group { entries, start });
    put_answer(answer, group);
}

/// The number that was asked for of a map, or a refusal with the number of the list that it belongs to.
#[tactic(auto, unfolding(crate::specs::Words::map_words))]
pub fn put_map_answer(answer: &mut [u64; 8], r: Result<usize, MapRefusal>)
    ensures { answer.new ≡ map_words (map_told r) }
{
    *answer = match r {
        Ok(number) => [0, 0, number as u64, 0, 0, 0, 0, 0],
        Err(why) => {
            let list = match why.list {
                Some(list) => list as u64,
                None => NO_LIST,
            };
            refusal_words(why.refusal, list)
        }
    };
}

/// A number for each list of a map: written like a buffer, so all zero where a list is refused, and as they were where the map is.
pub fn put_each(each: &mut [u64; MOST_LISTS], r: ByList)
    ensures { each.new ≡ after_each (map_told r.answer) r.each each.old }
{
    let found = r.each;
    match r.answer {
        Ok(_) => {
            *each = found;
        }
        Err(why) => {
            if why.list.is_some() {
                *each = [0; MOST_LISTS];
            }
        }
    }
}
