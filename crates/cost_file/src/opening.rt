//! Opening a cost file: it is accepted as a whole, or its first fault is answered.

ghost use Rattle.std.specs.Prelude.{◌≡◌, Some, Ok, Err};
ghost use Rattle.cost_file.specs.Files.{file_fault};
ghost use Rattle.cost_file.specs.Promises.{Opened};

use crate::faults::Fault;
use crate::reader::CostFile;
use crate::walk::{DueFile, accept_within, judge_first, judge_length, read_plan};

/// Opens a file whose payload may have up to `most` bytes, or answers its first fault.
#[tactic(auto, unfolding(crate::specs::Files::file_fault))]
pub fn open_within<'f>(file: &'f [u8], most: u32) -> Result<CostFile<'f>, Fault>
    ensures cases { elim result [
      | Ok x ↦ Opened most file.now x
      | Err e ↦ file_fault most file.now ≡ Some e
    ] }
{
    judge_length(file)?;
    judge_first(file)?;
    let plan = accept_within(read_plan(file), most)?;
    let due = DueFile::new(file, plan)?;
    due.judge_rows()?;
    due.judge_payload()?;
    Ok(CostFile {
        file,
        plan,
        next: 0,
    })
}

/// Opens a file, or answers its first fault.
pub fn open<'f>(file: &'f [u8]) -> Result<CostFile<'f>, Fault>
    ensures cases { elim result [
      | Ok x ↦ Opened 1021 file.now x
      | Err e ↦ file_fault 1021 file.now ≡ Some e
    ] }
{
    open_within(file, 1021)
}
