//! Where the records of a cost file lie.

ghost use Rattle.std.specs.Prelude.{◌≡◌, ◌+◌, ◌*◌, ◌≤◌};
ghost use Rattle.plans.specs.Plans.{symbols};
ghost use Rattle.cost_file.specs.Files.{row_at, rows_end};

use plans::Plan;

/// Where the record of row `k` begins, or where the last row's ends.
pub(crate) fn row_at(plan: Plan, k: usize) -> usize
    requires { k ≤ symbols plan.values }
    ensures value { result ≡ row_at plan.values k }
    ensures bound { result ≤ 600000 }
{
    16 + k * (plan.slots() + 8)
}

/// The length of a file that has no payload.
#[tactic(auto, using(crate::proofs::Sizes::plan_sizes))]
pub(crate) fn rows_end(plan: Plan) -> usize
    ensures value { result ≡ rows_end plan.values }
    ensures bound { result + plan.values.bytes + 8 ≤ 600000 }
{
    row_at(plan, plan.symbols())
}

/// The length of a file that has one.
pub(crate) fn payload_end(plan: Plan) -> usize
    ensures value { result ≡ rows_end plan.values + plan.values.bytes + 8 }
    ensures bound { result ≤ 600000 }
{
    rows_end(plan) + plan.bytes() + 8
}
