//! A kind of record whose steps are decided: how one is read and stored, and what a step does to those at its places.
ghost use Rattle.std.specs.Prelude.{◌≡◌, ℕ, List, ◌/◌, ◌<◌, ◌≤◌, length, get_or};
ghost use Rattle.records.specs.Records.{Codec, records, list_of, stored};
ghost use Rattle.records.proofs.Records.{Lawful};
ghost use Rattle.cube.specs.Lists.{most_variables};
ghost use Rattle.orders.specs.Orders.{letter_order};
ghost use Rattle.steps.specs.declared.StepRecord.{StepRecord};
ghost use Rattle.steps.specs.Moves.{After, next};
ghost use Rattle.steps.specs.Changes.{move_of};
ghost use Rattle.steps.specs.Kinds.{DecidedOn, Recoded, IsLetter};

use crate::reorder::Masks;
use crate::{Change, StepRecord};

/// A kind of record, with the decisions of its steps.
// Stays: reading and storing of its own beside `Kind`; a step stores whatever it decided, where `kind::put_item` asks of its caller that the item is writable.
pub trait Decides {
    type Item: Copy;

    ghost codec: { Codec Self.Item };

    ghost Fine: { ℕ → Self.Item → Type 0 };

    ghost Sound: { ℕ → Self.Item → Type 0 };

    ghost Known: { ℕ → StepRecord → Type 0 };

    ghost step: { ℕ → ℕ → StepRecord → List Self.Item → After Self.Item };

    ghost moved: { ℕ → ℕ → Self.Item → Self.Item };

    ghost WIDTH: { ℕ };

    ghost NONE: { Self.Item };

    /// Bytes of a record.
    const WIDTH: usize;

    /// The record whose bytes are all zero.
    const NONE: Self::Item;

    /// The record at a place that the list has.
    fn record_at(list: &[u8], i: usize) -> Self::Item
        requires { i < length list.now / codec.width }
        ensures { result ≡ get_or (list_of codec list.now) i codec.none };

    /// A record stored at a place that the list has.
    fn put_record(list: &mut [u8], i: usize, item: Self::Item)
        requires { i < length list.old / codec.width }
        ensures { list.new ≡ stored codec list.old i item };

    /// The record at a place that the list has, with its codes moved by these masks.
    fn recode(masks: Masks, list: &mut [u8], i: usize)
        requires place { i < length list.old / codec.width }
        requires fine { Fine most_variables (get_or (list_of codec list.old) i codec.none) }
        ensures { Recoded codec moved masks i list.old list.new };

    /// What a step other than L does, from the records at its places.
    fn decide(
        n: usize,
        count: usize,
        cap: usize,
        x: StepRecord,
        a: Self::Item,
        b: Self::Item,
    ) -> Change<Self::Item>
        requires few { n ≤ most_variables }
        requires sound { Sound n a × Sound n b }
        requires known { Known n x }
        requires no_letter { x.op ≡ 5 → ⊥ }
        ensures { DecidedOn codec (step n cap x) count cap x.i x.j a b (move_of result) };

    ghost width_is: { codec.width ≡ WIDTH };

    ghost none_is: { codec.none ≡ NONE };

    ghost lawful: { Lawful codec };

    ghost wider: { (n : ℕ) → n ≤ most_variables → (a : Self.Item) → Fine n a → Fine most_variables a };

    ghost fine_sound: { (n : ℕ) → (a : Self.Item) → Fine n a → Sound n a };

    ghost none_sound: { (n : ℕ) → Sound n codec.none };

    ghost letter: { (n cap : ℕ) (x : StepRecord) → Known n x → x.op ≡ 5 → IsLetter (step n cap x) moved n x };
}
