//! What a script can run on: a kind of record with its steps; and what is kept beside the list while it runs.
ghost use Rattle.std.specs.Prelude.{◌≡◌, refl, ℕ, Bool, true, List, map, max, ◌*◌, ◌≤◌, ◌<◌, length, get_or, IfOk, IfErr, OnErr};
ghost use Rattle.bits.specs.Sums.{All};
ghost use Rattle.records.specs.Records.{Codec, Held, records, image, flat, capacity_of};
ghost use Rattle.records.specs.Answers.{Outcome, accepted, counted};
ghost use Rattle.records.proofs.Records.{Lawful};
ghost use Rattle.cube.specs.declared.Cube.{Cube};
ghost use Rattle.cube.specs.Cubes.{good, Good};
ghost use Rattle.cube.specs.Lists.{cubes, most_records, most_variables};
ghost use Rattle.cube.specs.Calls.{check_list};
ghost use Rattle.cube.proofs.Codes.{good_more, good_parts, parts_good};
ghost use Rattle.cube.proofs.Lists.{lawful, cubes_bytes};
ghost use Rattle.orders.specs.Orders.{order_count};
ghost use Rattle.steps.specs.declared.StepRecord.{StepRecord};
ghost use Rattle.steps.specs.Moves.{After, stop, next};
ghost use Rattle.steps.specs.Steps.{meaning, reordered, step};
ghost use Rattle.script.specs.Carrying.{Carries, Listed, cubes_listed};
ghost use Rattle.script.specs.Scripts.{fits};

use crate::check;
use cube::{Cube, list};
use records::Refusal;
use steps::{StepRecord, StepRefusal};

/// A kind of record that a script runs on.
pub trait Runnable {
    type Item: Copy;

    ghost codec: { Codec Self.Item };

    // what each record of a list over so many variables has to pass
    ghost fine: { ℕ → Self.Item → Bool };

    // what a step's record has to pass
    ghost fits: { ℕ → StepRecord → Bool };

    // what a step makes of a list over so many variables, with room for so many records
    ghost step: { ℕ → ℕ → StepRecord → List Self.Item → After Self.Item };

    // a record with its cube changed
    ghost on_cube: { (Cube → Cube) → Self.Item → Self.Item };

    // what the check of a list says of it
    ghost check: { ℕ → List ℕ → Outcome };

    ghost WIDTH: { ℕ };

    /// Bytes of a record.
    const WIDTH: usize;

    /// The check of a list over n variables: refusals 1 to 4, or its count.
    fn check(n: usize, list: &[u8]) -> Result<usize, Refusal>
        ensures { counted result ≡ check n list.now };

    /// How many records a buffer of so many bytes has room for.
    fn capacity(room: usize) -> usize
        ensures { result ≡ capacity_of codec most_records room };

    /// Whether a step passes rule 9 over n variables.
    fn fits(n: usize, x: StepRecord) -> bool
        ensures { result ≡ fits n x };

    /// One step on the count records of the work buffer, which has room for cap of them.
    fn do_step(
        work: &mut [u8],
        n: usize,
        count: usize,
        cap: usize,
        x: StepRecord,
    ) -> Result<usize, StepRefusal>
        requires ready { Carries codec (fine n) n count cap work.old }
        requires fits { fits n x ≡ true }
        ensures done { IfOk result (λ c. step n cap x (records codec count work.old) ≡ next (records codec c work.new)) }
        ensures most { IfOk result (λ c. c ≤ max cap count) }
        ensures ready { IfOk result (λ c. Carries codec (fine n) n c cap work.new) }
        ensures refused { IfErr result (λ why. step n cap x (records codec count work.old) ≡ stop why) }
        ensures kept { OnErr result (work.new ≡ work.old) }
        ensures length { length work.new ≡ length work.old };

    /// The code at v moved by the order o in the cube of each of the count records.
    fn reorder(work: &mut [u8], count: usize, v: u8, o: u8)
        requires held { Held codec count work.old }
        requires all { All (λ a. fine most_variables a ≡ true) (records codec count work.old) }
        requires order { (v < most_variables) × (o < order_count) }
        ensures { work.new ≡ image codec (length work.old) (map (on_cube (reordered v o)) (records codec count work.old)) };

    ghost lawful: { Lawful codec };

    ghost width_is: { codec.width ≡ WIDTH };

    // what an accepted list is
    ghost accepted_is: { (n : ℕ) (b v : List ℕ) → check n b ≡ accepted v → Listed codec (fine n) n b };

    // the bytes of a whole list are those of its records
    ghost whole_is: { (k : ℕ) (b : List ℕ) → length b ≡ codec.width * k → ((i : ℕ) → get_or b i 0 < 256) → flat codec.enc (records codec k b) ≡ b };

    // fine over n variables is fine over more
    ghost fine_more: { (n m : ℕ) → n ≤ m → (a : Self.Item) → fine n a ≡ true → fine m a ≡ true };

    // a record is as fine as its cube
    ghost on_fine: { (f : Cube → Cube) (n : ℕ) → ((c : Cube) → Good n c → Good n (f c)) → (a : Self.Item) → fine n a ≡ true → fine n (on_cube f a) ≡ true };

    // where its cube stays, it stays
    ghost on_same: { (f : Cube → Cube) (n : ℕ) → ((c : Cube) → Good n c → f c ≡ c) → (a : Self.Item) → fine n a ≡ true → on_cube f a ≡ a };

    // two changes of its cube in turn
    ghost on_twice: { (f h : Cube → Cube) (a : Self.Item) → on_cube f (on_cube h a) ≡ on_cube (λ c. f (h c)) a };
}

/// What is kept in a buffer beside a work list while a script runs on it.
pub trait Watch<K: Runnable> {
    // beside a list, in a work buffer with room for so many records
    ghost keeps: { ℕ → List K.Item → List ℕ → Type 0 };

    /// The buffer beside a list that had `before` records and now has `count`.
    fn after_step(work: &[u8], cap: usize, before: usize, count: usize, beside: &mut [u8])
        requires list { (n : ℕ) × Carries K.codec (K.fine n) n count cap work.now }
        requires few { count ≤ max cap before }
        requires kept { (l : List K.Item) × (length l ≡ before) × keeps cap l beside.old }
        ensures kept { keeps cap (records K.codec count work.now) beside.new }
        ensures length { length beside.new ≡ length beside.old };
}

/// Nothing is kept.
#[derive(Clone, Copy)]
pub struct Unwatched;

impl<K: Runnable> Watch<K> for Unwatched {
    ghost keeps = { λ _ _ _. Unit {0} };

    #[inline(always)]
    fn after_step(_work: &[u8], _cap: usize, _before: usize, _count: usize, _beside: &mut [u8]) {}
}

/// Lists of cubes.
#[derive(Clone, Copy)]
pub struct Cubes;

impl Runnable for Cubes {
    type Item = Cube;

    ghost codec = { cubes };

    ghost fine = { good };

    ghost fits = { fits };

    ghost step = { λ n cap x l. step n cap (meaning x) l };

    ghost on_cube = { λ f c. f c };

    ghost check = { check_list most_variables };

    ghost WIDTH = { 8 };

    const WIDTH: usize = list::RECORD_WIDTH;

    fn check(n: usize, list: &[u8]) -> Result<usize, Refusal> {
        list::check(n, list)
    }

    fn capacity(room: usize) -> usize {
        list::capacity(room)
    }

    #[inline(always)]
    fn fits(n: usize, x: StepRecord) -> bool {
        check::fits(n, x)
    }

    #[inline(always)]
    fn do_step(
        work: &mut [u8],
        n: usize,
        count: usize,
        cap: usize,
        x: StepRecord,
    ) -> Result<usize, StepRefusal> {
        steps::step::do_step(work, n, count, cap, x)
    }

    #[inline(always)]
    fn reorder(work: &mut [u8], count: usize, v: u8, o: u8) {
        steps::reorder::reorder(work, count, v, o)
    }

    ghost lawful = { lawful };

    ghost width_is = { refl };

    ghost accepted_is = { cubes_listed };

    ghost whole_is = { cubes_bytes };

    ghost fine_more = { λ n m h c g. parts_good m c (good_more n m c h (good_parts n c g)) };

    ghost on_fine = { λ f n h c g. parts_good n (f c) (h c (good_parts n c g)) };

    ghost on_same = { λ f n h c g. h c (good_parts n c g) };

    ghost on_twice = { λ f h c i. f (h c) };
}
