//! Reading a cost file: an opened file hands out its records one by one.

ghost use Rattle.cost_file.specs.Files.{Whole};

use crate::layout::{row_at, rows_end};
use crate::records::Record;
use plans::{Plan, PlanValues};

/// A file that was read to its end and found whole, with its plan and the number of the record
/// that comes next.
#[derive(Drop)]
pub struct CostFile<'f> {
    pub(crate) file: &'f [u8],
    pub(crate) plan: Plan,
    pub(crate) next: usize,
    ghost whole: { Whole file.now plan.values },
}

impl<'f> CostFile<'f> {
    ghost use Rattle.std.specs.Prelude.{◌≡◌, ◌+◌, ◌≤◌, true, is_some};
    ghost use Rattle.std.specs.Option.{option_map};
    ghost use Rattle.plans.specs.Plans.{symbols};
    ghost use Rattle.cost_file.specs.Files.{plan_in};
    ghost use Rattle.cost_file.specs.Promises.{Handed, part_at, part_of, Numbered};

    /// The numbers of the plan.
    pub fn values(&self) -> PlanValues
        ensures value { result ≡ plan_in self.now.file.now }
    {
        self.plan.values
    }

    // The record of this number, or none past the last.
    #[tactic(auto, using(crate::proofs::Handed::inside, crate::proofs::Handed::row_inside, crate::proofs::Handed::payload_inside))]
    fn record_at(&self, number: usize) -> Option<Record<'f>>
        ensures value { option_map part_of result ≡ part_at self.now.file.now number }
        ensures plan { Numbered self.now.file.now result }
        ensures bound { is_some result ≡ true → number ≤ symbols self.now.plan.values + 1 }
    {
        let file = self.file;
        let symbols = self.plan.symbols();
        if number == 0 {
            return Some(Record::Plan {
                values: self.plan.values,
                bytes: &file[4..12],
                offset: 4,
            });
        }
        if number <= symbols {
            let offset = row_at(self.plan, number - 1) + 4;
            return Some(Record::Row {
                bytes: &file[offset..offset + self.plan.slots()],
                offset,
            });
        }
        let end = rows_end(self.plan);
        if number > symbols + 1 || file.len() <= end {
            return None;
        }
        let offset = end + 4;
        let bytes = &file[offset..offset + self.plan.bytes()];
        Some(Record::Payload { bytes, offset })
    }

    /// The next record, or none past the last.
    pub fn next_record(&mut self) -> Option<Record<'f>>
        ensures steps { Handed self.old result self.new }
    {
        let record = self.record_at(self.next)?;
        self.next += 1;
        Some(record)
    }
}

impl<'f> Iterator for CostFile<'f> {
    ghost use Rattle.std.specs.Iterator.{at_most};
    ghost use Rattle.cost_file.specs.Promises.{Handed, records_left};

    type Item = Record<'f>;

    ghost next_gives = { λ was r is. Handed was r is };

    ghost remaining = { λ x. at_most (records_left x) };

    fn next(&mut self) -> Option<Record<'f>> {
        self.next_record()
    }
}
