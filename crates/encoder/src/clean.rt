//! The slot costs of a block without noise.

ghost use Rattle.std.specs.Prelude.{◌≡◌, ◌*◌, ◌<◌, map, length};
ghost use Rattle.std.specs.List.{range_with_len};
ghost use Rattle.encoder.specs.Clean.{clean_cost, Lays};

use plans::{Plan, PlanValues, Refusal};

// What one slot of a clean block costs, counted over all rows.
#[tactic(auto, using(std::proofs::lemmas::Nat::div_below))]
fn cost_at(sent: &[u8], m: usize, cost: u8, i: usize) -> u8
    requires some { 0 < m }
    requires inside { i < length sent.now * m }
    ensures value { result ≡ clean_cost m sent.now cost i }
{
    if i % m == usize::from(sent[i / m]) {
        0
    } else {
        cost
    }
}

// Lays the costs of all slots, m to a symbol, one in each place of `rows`.
#[tactic(auto, using(crate::proofs::Symbols::filled_more))]
fn fill(sent: &[u8], m: usize, cost: u8, rows: &mut [u8])
    requires some { 0 < m }
    requires sized { length rows.old ≡ length sent.now * m }
    ensures costs { rows.new ≡ map (clean_cost m sent.now cost) (range_with_len 0 (length sent.now * m)) }
{
    // Place by place: what is written through `chunks_exact_mut`, a row at a time, is lost to a proof.
    for (i, place) in rows.iter_mut().enumerate() {
        *place = cost_at(sent, m, cost, i);
    }
}

/// Lays the slot costs of a block without noise into the front of `rows`, a row of bytes for each
/// symbol: 0 at the slot that was sent, `cost` at every other. The answer is the number of bytes.
/// A refusal leaves `rows` alone.
#[tactic(auto, unfolding(crate::specs::Clean::clean_refusal, crate::specs::Clean::clean_rows))]
pub fn lay_clean(
    values: PlanValues,
    sent: &[u8],
    cost: u8,
    rows: &mut [u8],
) -> Result<usize, Refusal>
    ensures cases { Lays values sent.now cost rows.old rows.new result }
{
    let plan = Plan::accept(values)?;
    let symbols = plan.symbols();
    if sent.len() != symbols {
        return Err(Refusal::Lengths);
    }
    let m = plan.slots();
    let n = symbols * m;
    if rows.len() < n {
        return Err(Refusal::Room);
    }
    fill(sent, m, cost, &mut rows[..n]);
    Ok(n)
}
