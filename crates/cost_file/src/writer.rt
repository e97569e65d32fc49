//! Writing a cost file.

ghost use Rattle.std.specs.Prelude.{◌≡◌, ◌+◌, ◌*◌, ◌<◌, ◌≤◌, true, false, ◌++◌, length, take, drop, Some, Ok, Err};
ghost use Rattle.plans.specs.Plans.{symbols, slots};
ghost use Rattle.cost_file.specs.Records.{kind_of, packed};
ghost use Rattle.cost_file.specs.Files.{plan_body, rows_written, rows_end, written, lengths_fit, write_refusal};
ghost use Rattle.cost_file.specs.Promises.{kept, Laid, Writes};

use crate::layout::{payload_end, row_at, rows_end};
use crate::records::Kind;
use plans::{Plan, PlanValues, Refusal};
use polynomial::check;

// Head, body and check of one record, filling `part`.
fn pack(part: &mut [u8], kind: Kind, number: u16, body: &[u8])
    requires { length part.old ≡ length body.now + 8 }
    ensures value { part.new ≡ packed (kind_of kind) number body.now }
{
    let end = 4 + body.len();
    part[..4].copy_from_slice(&kind.head(number));
    part[4..end].copy_from_slice(body);
    let sum = check(&part[..end]).to_be_bytes();
    part[end..end + 4].copy_from_slice(&sum);
}

// The body of the plan's record.
fn body_of(plan: Plan) -> [u8; 8]
    ensures value { result ≡ plan_body plan.values }
{
    let values = plan.values;
    let [_, _, n1, n0] = values.bytes.to_be_bytes();
    let [_, _, a1, a0] = values.a.to_be_bytes();
    let [_, _, b1, b0] = values.b.to_be_bytes();
    [n1, n0, values.bits as u8, 0, a1, a0, b1, b0]
}

/// What a file is to keep: rows, and perhaps a payload, of the lengths that its plan asks for.
#[derive(Drop)]
struct Contents<'a> {
    plan: Plan,
    rows: &'a [u8],
    payload: Option<&'a [u8]>,
    ghost fits: { lengths_fit (kept plan.values rows.now payload) ≡ true },
}

impl<'a> Contents<'a> {
    ghost use Rattle.cost_file.specs.Contents.{kept_of};

    // Asks whether the rows and the payload have their lengths.
    fn new(plan: Plan, rows: &'a [u8], payload: Option<&'a [u8]>) -> Result<Contents<'a>, Refusal>
        ensures cases { elim result [
          | Ok x ↦ kept_of x ≡ kept plan.values rows.now payload.entry
          | Err e ↦ (e ≡ Refusal.Lengths) × (lengths_fit (kept plan.values rows.now payload.entry) ≡ false)
        ] }
    {
        if rows.len() != plan.symbols() * plan.slots() {
            return Err(Refusal::Lengths);
        }
        if payload.is_some_and(|body| body.len() != plan.bytes()) {
            return Err(Refusal::Lengths);
        }
        Ok(Contents {
            plan,
            rows,
            payload,
        })
    }

    // How many bytes the file has.
    #[tactic(auto, using(crate::proofs::Laying::file_length))]
    fn size(&self) -> usize
        ensures value { result ≡ length (written (kept_of self.now)) }
    {
        match self.payload {
            Some(_) => payload_end(self.plan),
            None => rows_end(self.plan),
        }
    }

    // The records of all rows, behind the first 16 bytes.
    fn put_rows(&self, out: &mut [u8])
        requires { rows_end self.now.plan.values ≤ length out.old }
        ensures front { take (rows_end self.now.plan.values) out.new ≡ take 16 out.old ++ rows_written self.now.plan.values self.now.rows.now 0 (symbols self.now.plan.values) }
        ensures tail { drop (rows_end self.now.plan.values) out.new ≡ drop (rows_end self.now.plan.values) out.old }
    {
        let slots = self.plan.slots();
        // `out` is cut by hand: what is written through `chunks_exact_mut` is lost to a proof, which
        // then knows the length alone.
        for (k, row) in self.rows.chunks_exact(slots).enumerate() {
            let at = row_at(self.plan, k);
            pack(&mut out[at..at + slots + 8], Kind::Row, (k + 1) as u16, row);
        }
    }

    // The whole file into the front of `out`.
    fn lay(&self, out: &mut [u8])
        requires { length (written (kept_of self.now)) ≤ length out.old }
        ensures after { Laid (kept_of self.now) out.old out.new }
    {
        pack(&mut out[0..16], Kind::Plan, 0, &body_of(self.plan));
        self.put_rows(out);
        if let Some(body) = self.payload {
            let end = rows_end(self.plan);
            pack(
                &mut out[end..end + body.len() + 8],
                Kind::Payload,
                (self.plan.symbols() + 1) as u16,
                body,
            );
        }
    }
}

/// Writes the file of a plan, of the slot costs of all its symbols and perhaps of the payload into
/// the front of `out`, and answers how many bytes it has.
#[tactic(auto, unfolding(crate::specs::Files::write_refusal))]
pub fn write(
    values: PlanValues,
    rows: &[u8],
    payload: Option<&[u8]>,
    out: &mut [u8],
) -> Result<usize, Refusal>
    ensures cases { Writes (kept values rows.now payload.entry) out.old out.new result }
{
    let plan = Plan::accept(values)?;
    let contents = Contents::new(plan, rows, payload)?;
    let size = contents.size();
    if out.len() < size {
        return Err(Refusal::Room);
    }
    contents.lay(out);
    Ok(size)
}
