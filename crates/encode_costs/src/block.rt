//! A block without noise, laid out as a cost file.

ghost use Rattle.std.specs.Prelude.{take, Some, IfOk};
ghost use Rattle.cost_file.specs.Promises.{ReadsBack};
ghost use Rattle.encode_costs.specs.Clean.{clean_block};
ghost use Rattle.encode_costs.specs.Texts.{trouble_text};

use cost_file::write;
use encoder::{encode, lay_clean};
use plans::{Plan, PlanValues, Refusal};
use std::alloc::{AllocError, Global};
use std::error::Error;
use std::fmt;

/// The slots that are sent, the costs of all slots, and the file.
#[derive(Drop)]
pub struct Block {
    pub sent: Vec<u8>,
    pub rows: Vec<u8>,
    pub file: Vec<u8>,
}

/// Why there is no block.
#[derive(Clone, Copy, PartialEq, Eq, Debug)]
pub enum Trouble {
    Refused(Refusal),
    Memory,
}

impl fmt::Display for Trouble {
    ghost output = { λ trouble. Some (trouble_text trouble) };

    fn fmt<W: fmt::Write>(&self, f: &mut fmt::Formatter<W>) -> fmt::Result {
        match self {
            Trouble::Refused(refusal) => write!(f, "refused {refusal}"),
            Trouble::Memory => f.write_str("no memory"),
        }
    }
}

impl Error for Trouble {}

impl From<Refusal> for Trouble {
    fn from(refusal: Refusal) -> Trouble {
        Trouble::Refused(refusal)
    }
}

impl From<AllocError> for Trouble {
    fn from(_error: AllocError) -> Trouble {
        Trouble::Memory
    }
}

// Encodes a payload and lays out its file, which reads back to the block without noise.
fn lay_out(
    values: PlanValues,
    payload: &[u8],
    cost: u8,
    sent: &mut [u8],
    rows: &mut [u8],
    file: &mut [u8],
) -> Result<usize, Refusal>
    ensures laid { IfOk result (λ n. ReadsBack (clean_block values payload.now cost) (take n file.new)) }
{
    let symbols = encode(values, payload, sent)?;
    let costs = lay_clean(values, &sent[..symbols], cost, rows)?;
    write(values, &rows[..costs], Some(payload), file)
}

/// The block without noise of a payload.
pub(crate) fn clean(
    heap: Global,
    values: PlanValues,
    payload: &[u8],
    cost: u8,
) -> Result<Block, Trouble> {
    let plan = Plan::accept(values)?;
    let mut sent = vec![in heap; 0u8; plan.symbols()]?;
    let mut rows = vec![in heap; 0u8; plan.symbols() * plan.slots()]?;
    let mut file = vec![in heap; 0u8; 600_000]?;
    let n = lay_out(
        values,
        payload,
        cost,
        sent.as_mut_slice(),
        rows.as_mut_slice(),
        file.as_mut_slice(),
    )?;
    file.truncate(n);
    Ok(Block { sent, rows, file })
}
