//! The way of numbers from interleaved to coded bits and back.
// One writes at place f(j) and the other reads there: one function for both would take the direction, and be no plainer.

ghost use Rattle.std.specs.Prelude.{◌≡◌, ◌≤◌, length};
ghost use Rattle.plans.specs.Plans.{coded, interleaver};
ghost use Rattle.run_model.specs.Tables.{fronted, placed, gathered_by};

use plans::Plan;

/// What stands in `e` about interleaved bit j goes into `x` at coded bit f(j), for every interleaved bit.
pub fn place(plan: Plan, e: &[i16], x: &mut [i16])
    requires { (coded plan.values ≤ length e.now) × (coded plan.values ≤ length x.old) }
    ensures after { x.new ≡ placed (interleaver plan.values) (coded plan.values) e.now x.old }
{
    for (j, sent) in e[..plan.coded()].iter().enumerate() {
        x[plan.interleave(j).unwrap()] = *sent;
    }
}

/// What stands in `g` about coded bit f(j) goes into `a` at interleaved bit j, for every interleaved bit.
pub fn gather(plan: Plan, g: &[i16], a: &mut [i16])
    requires { (coded plan.values ≤ length g.now) × (coded plan.values ≤ length a.old) }
    ensures after { a.new ≡ fronted (coded plan.values) (gathered_by (interleaver plan.values) (coded plan.values) g.now) a.old }
{
    for (j, told) in a[..plan.coded()].iter_mut().enumerate() {
        *told = g[plan.interleave(j).unwrap()];
    }
}
