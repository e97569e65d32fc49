//! The questions that are asked of a file, one part after another.

ghost use Rattle.std.specs.Prelude.{◌≡◌, ◌≤◌, length, Some, None, Ok, Err};
ghost use Rattle.std.specs.Result.{result_err};
ghost use Rattle.plans.specs.Plans.{symbols};
ghost use Rattle.cost_file.specs.Files.{plan_in, rows_end, length_fault, plan_record_fault, refusal_within, at_layer_two, due_fault, rows_fault, payload_fault};

use crate::faults::{Fault, Layer};
use crate::judging::judge;
use crate::layout::{payload_end, rows_end};
use crate::records::Kind;
use plans::{Plan, PlanValues, Refusal};

/// Whether a file can be one at all.
pub(crate) fn judge_length(file: &[u8]) -> Result<(), Fault>
    ensures value { result_err result ≡ length_fault file.now }
{
    if !(16..=600_000).contains(&file.len()) {
        return Err(Fault::new(Refusal::FileLength, 0, Layer::File));
    }
    Ok(())
}

/// Judges the plan's record, and then the spare byte in its body.
pub(crate) fn judge_first(file: &[u8]) -> Result<(), Fault>
    requires { 16 ≤ length file.now }
    ensures value { result_err result ≡ plan_record_fault file.now }
{
    judge(&file[..16], Kind::Plan, 0)?;
    if file[7] != 0 {
        return Err(Fault::new(Refusal::RecordHead, 0, Layer::File));
    }
    Ok(())
}

/// The numbers in the plan's record.
#[tactic(auto, unfolding(crate::specs::Files::plan_in))]
pub(crate) fn read_plan(file: &[u8]) -> PlanValues
    requires { 16 ≤ length file.now }
    ensures value { result ≡ plan_in file.now }
{
    PlanValues {
        bytes: u16::from_be_bytes([file[4], file[5]]).into(),
        bits: file[6].into(),
        a: u16::from_be_bytes([file[8], file[9]]).into(),
        b: u16::from_be_bytes([file[10], file[11]]).into(),
    }
}

/// Asks the questions of a plan, with a limit of one's own on the payload bytes.
pub(crate) fn accept_within(values: PlanValues, most: u32) -> Result<Plan, Fault>
    ensures cases { elim result [
      | Ok p ↦ (p.values ≡ values) × (at_layer_two (refusal_within most values) ≡ None)
      | Err e ↦ at_layer_two (refusal_within most values) ≡ Some e
    ] }
{
    if values.bytes > most {
        return Err(Fault::new(Refusal::PayloadBytes, 0, Layer::Plan));
    }
    Plan::accept(values).map_err(|refusal| Fault::new(refusal, 0, Layer::Plan))
}

/// A file with its plan, whose length is one of the two that are due for it.
#[derive(Drop)]
pub(crate) struct DueFile<'f> {
    file: &'f [u8],
    plan: Plan,
    ghost long: { rows_end plan.values ≤ length file.now },
}

impl<'f> DueFile<'f> {
    /// Asks whether the file's length is one of the two that are due.
    pub(crate) fn new(file: &'f [u8], plan: Plan) -> Result<DueFile<'f>, Fault>
        ensures cases { elim result [
          | Ok x ↦ (x.file.now ≡ file.now) × (x.plan.values ≡ plan.values) × (due_fault plan.values file.now ≡ None)
          | Err e ↦ due_fault plan.values file.now ≡ Some e
        ] }
    {
        if file.len() != rows_end(plan) && file.len() != payload_end(plan) {
            return Err(Fault::new(Refusal::LengthDue, 0, Layer::Contents));
        }
        Ok(DueFile { file, plan })
    }

    /// Judges the records of all rows in their order.
    #[tactic(auto, using(crate::proofs::Judged::first_left, crate::proofs::Judged::none_left, crate::proofs::Sizes::plan_sizes))]
    pub(crate) fn judge_rows(&self) -> Result<(), Fault>
        ensures value { result_err result ≡ rows_fault self.now.plan.values self.now.file.now 0 (symbols self.now.plan.values) }
    {
        let rows = &self.file[16..rows_end(self.plan)];
        for (k, record) in rows.chunks_exact(self.plan.slots() + 8).enumerate() {
            judge(record, Kind::Row, (k + 1) as u16)?;
        }
        Ok(())
    }

    /// Judges the payload's record, if there is one.
    pub(crate) fn judge_payload(&self) -> Result<(), Fault>
        ensures value { result_err result ≡ payload_fault self.now.plan.values self.now.file.now }
    {
        let end = rows_end(self.plan);
        if self.file.len() == end {
            return Ok(());
        }
        judge(
            &self.file[end..],
            Kind::Payload,
            (self.plan.symbols() + 1) as u16,
        )
    }
}
