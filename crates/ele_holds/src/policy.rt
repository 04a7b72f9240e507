//! When a policy alone lets a version go. A contract sees a moment.
ghost use Rattle.std.specs.Prelude.{◌≡◌, IfOk};
ghost use Rattle.ele_holds.specs.Hold.{lets_go_before, policy_moment};

use ele_model::{Flat, NoMemory, VersionRow, is_live, policy_of, ripe_by};
use ele_moment::Moment;

/// Whether the policy alone lets the version go before the moment.
pub(crate) fn lets_go_before(
    world: &Flat,
    row: &VersionRow,
    since: Moment,
) -> Result<bool, NoMemory>
    ensures { IfOk result (λ before. before ≡ lets_go_before world.entry.now row.now since) }
{
    let own = policy_moment(world, row)?;
    Ok(own.is_some_and(|own| own < since))
}

// When the policy alone lets the version go.
fn policy_moment(world: &Flat, row: &VersionRow) -> Result<Option<Moment>, NoMemory>
    ensures { IfOk result (λ own. own ≡ policy_moment world.entry.now row.now) }
{
    let Some(policy) = policy_of(world.files.as_slice(), row.file) else {
        return Ok(None);
    };
    let Some(ended) = row.ended else {
        return Ok(None);
    };
    let versions = world.versions.as_slice();
    let is_live = is_live(world.names.as_slice(), row.file);
    ripe_by(
        &policy,
        versions,
        row,
        ended,
        is_live,
        world.versions.allocator(),
    )
}
