//! A list in a work buffer, on which a script runs.
ghost use Rattle.std.specs.Prelude.{◌≡◌, ℕ, true, map, max, ◌≤◌, ◌<◌, length, IfOk, IfErr, OnErr};
ghost use Rattle.bits.specs.Sums.{All};
ghost use Rattle.records.specs.Records.{records, list_of, image, zeros};
ghost use Rattle.cube.specs.Lists.{most_variables};
ghost use Rattle.orders.specs.Orders.{order_count, inverse};
ghost use Rattle.steps.specs.Moves.{After, stop, next};
ghost use Rattle.steps.specs.Steps.{reordered};
ghost use Rattle.script.specs.Carrying.{Carries};
ghost use Rattle.script.specs.Pending.{none_pending, pend_by, restored};
ghost use Rattle.script.specs.Scripts.{step_records};
ghost use Rattle.script.specs.Progress.{pend_record, run_back, SteppingBy, AnsweredBy};

use crate::record::{STEP_WIDTH, step_at};
use crate::run::{NONE_PENDING, halted, pended};
use crate::{Ended, Peaked, Runnable, Unwatched, Watch};
use cube::list::MOST_VARIABLES;
use records::Refusal;
use std::marker::PhantomData;
use steps::{StepRecord, StepRefusal};

/// A list over n variables at the front of a lent work buffer with room for cap records, and zeros after it.
#[derive(Drop)]
pub struct WorkList<'a, K: Runnable> {
    pub buffer: &'a mut [u8],
    pub n: usize,
    pub count: usize,
    pub cap: usize,
    kind: PhantomData<K>,
    pub ghost ready: { Carries K.codec (K.fine n) n count cap buffer.now },
}

impl<'a, K: Runnable> WorkList<'a, K> {
    /// The list that a buffer holds already.
    #[inline(always)]
    pub fn of(buffer: &'a mut [u8], n: usize, count: usize, cap: usize) -> WorkList<'a, K>
        requires ready { Carries K.codec (K.fine n) n count cap buffer.old }
        ensures same_reference { result.buffer.ghost_name ≡ buffer.entry.ghost_name }
        ensures bytes { result.buffer.now ≡ buffer.old }
        ensures variables { result.n ≡ n }
        ensures count { result.count ≡ count }
        ensures capacity { result.cap ≡ cap }
    {
        WorkList {
            buffer,
            n,
            count,
            cap,
            kind: PhantomData,
        }
    }

    /// No record, and zeros.
    #[inline(always)]
    pub fn clear(&mut self)
        ensures same_reference { self.new.buffer.ghost_name ≡ self.old.buffer.ghost_name }
        ensures variables { self.new.n ≡ self.old.n }
        ensures count { self.new.count ≡ 0 }
        ensures capacity { self.new.cap ≡ self.old.cap }
        ensures bytes { self.new.buffer.now ≡ zeros (length self.old.buffer.now) }
    {
        records::clear(self.buffer);
        self.count = 0;
    }

    /// One step; refused, the list is as it was.
    #[inline(always)]
    pub fn step(&mut self, x: StepRecord) -> Result<(), StepRefusal>
        requires fits { K.fits self.old.n x ≡ true }
        ensures same_reference { self.new.buffer.ghost_name ≡ self.old.buffer.ghost_name }
        ensures variables { self.new.n ≡ self.old.n }
        ensures capacity { self.new.cap ≡ self.old.cap }
        ensures length { length self.new.buffer.now ≡ length self.old.buffer.now }
        ensures done { IfOk result (λ _. K.step self.old.n self.old.cap x (records K.codec self.old.count self.old.buffer.now) ≡ next (records K.codec self.new.count self.new.buffer.now)) }
        ensures most { IfOk result (λ _. self.new.count ≤ max self.old.cap self.old.count) }
        ensures refused { IfErr result (λ why. K.step self.old.n self.old.cap x (records K.codec self.old.count self.old.buffer.now) ≡ stop why) }
        ensures kept { OnErr result (self.new.buffer.now ≡ self.old.buffer.now) }
        ensures kept_count { OnErr result (self.new.count ≡ self.old.count) }
    {
        let count = K::do_step(self.buffer, self.n, self.count, self.cap, x)?;
        self.count = count;
        Ok(())
    }

    /// The steps of a script in turn; a refusal clears both buffers. What is pending is carried by value, and looked at only where a step is an L step:
    /// a copy at every step shows in the time of a run.
    #[inline(always)]
    pub fn run_steps<W: Watch<K>>(
        &mut self,
        script: &[u8],
        beside: &mut [u8],
    ) -> Result<Ended, Refusal>
        requires all { All (λ r. K.fits self.old.n r ≡ true) (list_of step_records script.now) }
        requires kept { W.keeps self.old.cap (records K.codec self.old.count self.old.buffer.now) beside.old }
        ensures same_reference { self.new.buffer.ghost_name ≡ self.old.buffer.ghost_name }
        ensures variables { self.new.n ≡ self.old.n }
        ensures capacity { self.new.cap ≡ self.old.cap }
        ensures length { length self.new.buffer.now ≡ length self.old.buffer.now }
        ensures beside_length { length beside.new ≡ length beside.old }
        ensures count { IfOk result (λ e. self.new.count ≡ e.count) }
        ensures stepping { SteppingBy K.codec (K.step self.old.n self.old.cap) (λ a. K.fine self.old.n a ≡ true) self.old.n self.old.cap self.old.count (list_of step_records script.now) (pend_by pend_record none_pending (list_of step_records script.now)) self.old.buffer.now self.new.buffer.now result }
        ensures kept { IfOk result (λ e. W.keeps self.old.cap (records K.codec e.count self.new.buffer.now) beside.new) }
        ensures cleared { OnErr result (beside.new ≡ zeros (length beside.old)) }
        ensures none { OnErr result (self.new.count ≡ 0) }
    {
        let steps = script.len() / STEP_WIDTH;
        let mut pending = NONE_PENDING;
        let mut peak = self.count;
        for place in 0..steps {
            let x = step_at(script, place);
            let before = self.count;
            if let Err(why) = self.step(x) {
                self.clear();
                records::clear(beside);
                return Err(halted(why, place));
            }
            let count = self.count;
            let cap = self.cap;
            let work = &mut *self.buffer;
            W::after_step(work, cap, before, count, beside);
            peak = peak.max(count);
            if x.is_letter() {
                let pending_before = pending;
                pending = pended(pending_before, x);
            }
        }
        Ok(Ended {
            count: self.count,
            peak,
            pending,
        })
    }

    /// The order o, pending at the variable v, taken back in every record; nothing to do where it is no order.
    #[inline(always)]
    fn undo_at(&mut self, v: u8, o: u8)
        requires order { (v < self.old.n) × (o < order_count) }
        ensures same_reference { self.new.buffer.ghost_name ≡ self.old.buffer.ghost_name }
        ensures variables { self.new.n ≡ self.old.n }
        ensures count { self.new.count ≡ self.old.count }
        ensures capacity { self.new.cap ≡ self.old.cap }
        ensures length { length self.new.buffer.now ≡ length self.old.buffer.now }
        ensures undone { records K.codec self.new.count self.new.buffer.now ≡ map (K.on_cube (reordered v (inverse o))) (records K.codec self.old.count self.old.buffer.now) }
    {
        if o == 0 {
            return;
        }
        K::reorder(self.buffer, self.count, v, orders::inverse(o));
    }

    /// What is pending at the first variables, so many, taken back in every record.
    pub fn undo(&mut self, variables: usize, pending: [u8; MOST_VARIABLES])
        requires few { variables ≤ self.old.n }
        requires orders { All (λ o. o < order_count) pending }
        ensures same_reference { self.new.buffer.ghost_name ≡ self.old.buffer.ghost_name }
        ensures variables { self.new.n ≡ self.old.n }
        ensures count { self.new.count ≡ self.old.count }
        ensures capacity { self.new.cap ≡ self.old.cap }
        ensures length { length self.new.buffer.now ≡ length self.old.buffer.now }
        ensures bytes { self.new.buffer.now ≡ image K.codec (length self.old.buffer.now) (map (K.on_cube (restored variables pending)) (records K.codec self.old.count self.old.buffer.now)) }
    {
        for v in 0..variables {
            self.undo_at(v as u8, pending[v]);
        }
    }

    /// The run of a script: its steps in turn, and then what is pending taken back.
    pub fn run(&mut self, script: &[u8]) -> Result<Peaked, Refusal>
        requires all { All (λ r. K.fits self.old.n r ≡ true) (list_of step_records script.now) }
        ensures same_reference { self.new.buffer.ghost_name ≡ self.old.buffer.ghost_name }
        ensures variables { self.new.n ≡ self.old.n }
        ensures count { IfOk result (λ p. self.new.count ≡ p.count) }
        ensures capacity { self.new.cap ≡ self.old.cap }
        ensures answered { AnsweredBy K.codec (run_back K.on_cube (K.step self.old.n self.old.cap) self.old.n (list_of step_records script.now) (records K.codec self.old.count self.old.buffer.now)) self.old.buffer.now self.new.buffer.now result }
    {
        let Ended {
            count,
            peak,
            pending,
        } = self.run_steps::<Unwatched>(script, &mut [])?;
        self.undo(self.n, pending);
        Ok(Peaked { count, peak })
    }
}
