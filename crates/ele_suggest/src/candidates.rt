//! The policies among which the best is looked for. A contract sees them as a list.
ghost use Rattle.std.specs.Prelude.{◌≡◌, ◌≤◌, ◌++◌, ◌∷◌, [], IfOk, OnOk};
ghost use Rattle.std.specs.List.{flat_map};
ghost use Rattle.ele_policy.specs.declared.policy.Policy.{Policy};
ghost use Rattle.ele_suggest.specs.Candidates.{candidates_of, safes_of};

use crate::grain::Span;
use crate::ladders::add_ladders;
use ele_moment::NoMemory;
use ele_policy::{Floor, Interval, Policy};
use std::alloc::Global;

/// Returns policies that may keep what spans ask for: keep one, keep all, ladders with a rung for each span, and Keep Safe of
/// each span's age and of a second, each with some floors. `NoMemory` if memory is refused.
/// Cost: a constant number of policies for each span.
pub fn candidates_for(alloc: Global, spans: &[Span]) -> Result<Vec<Policy>, NoMemory>
    ensures { IfOk result (λ policies. policies.items ≡ candidates_of spans.now) }
{
    let mut policies = Vec::new(alloc);
    policies.push(Policy::One)?;
    policies.push(Policy::All)?;
    add_ladders(alloc, spans, &mut policies)?;
    add_safes(&mut policies, 1)?;
    add_safes_of(spans, &mut policies)?;
    Ok(policies)
}

// Adds Keep Safe of each span's age.
fn add_safes_of(spans: &[Span], policies: &mut Vec<Policy>) -> Result<(), NoMemory>
    ensures { OnOk result (policies.new.items ≡ policies.old.items ++ flat_map (λ span. safes_of span.age) spans.now) }
{
    for span in spans {
        add_safes(policies, span.age)?;
    }
    Ok(())
}

// Adds Keep Safe of that age, with each of the floors.
fn add_safes(policies: &mut Vec<Policy>, age: u64) -> Result<(), NoMemory>
    ensures { OnOk result (policies.new.items ≡ policies.old.items ++ safes_of age) }
{
    let Ok(interval) = Interval::new(age) else {
        return Ok(());
    };
    add_safe(policies, interval, 0)?;
    add_safe(policies, interval, 1)?;
    add_safe(policies, interval, 2)?;
    add_safe(policies, interval, 4)?;
    add_safe(policies, interval, 8)?;
    add_safe(policies, interval, 16)?;
    Ok(())
}

// Adds Keep Safe with that floor.
fn add_safe(policies: &mut Vec<Policy>, interval: Interval, versions: u64) -> Result<(), NoMemory>
    requires { versions ≤ 16 }
    ensures { OnOk result (policies.new.items ≡ policies.old.items ++ Policy.Safe interval versions ∷ []) }
{
    let floor = Floor::new(versions).unwrap_or(Floor::NONE);
    policies.push(Policy::Safe(interval, floor))?;
    Ok(())
}
