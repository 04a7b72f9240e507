//! Laws of a renewed world: each is the contract of a function that does nothing.
//! A contract sees flat worlds.
ghost use Rattle.std.specs.Prelude.{◌≡◌};
ghost use Rattle.ele_renewal.specs.Example.{aged, fresh};
ghost use Rattle.ele_renewal.specs.Renewed.{renewed};
ghost use Rattle.ele_renewal.specs.RenewedIsStart.{RenewedIsStart};
ghost use Rattle.ele_renewal.specs.SameCover.{RenewedHasSameCover};
ghost use Rattle.ele_renewal.specs.SameFates.{RenewedHasSameFates};
ghost use Rattle.ele_renewal.specs.SamePast.{RenewedHasSamePast, RenewedVersionIsSame};
ghost use Rattle.ele_renewal.specs.SameRestorable.{RenewedHasSameRestorable};
ghost use Rattle.ele_renewal.specs.SameScan.{RenewedHasSameScan};
ghost use Rattle.ele_renewal.specs.SameUsage.{RenewedHasSameUsage};

/// A run may begin in the renewed world of one that it may begin in, if no handle and no draft is
/// there.
pub fn renewed_is_start()
    ensures { RenewedIsStart }
{}

/// Each path leads to the same file or directory at each moment, and finds the same version of it.
pub fn renewed_has_same_past()
    ensures past { RenewedHasSamePast }
    ensures version { RenewedVersionIsSame }
{}

/// At each moment the same versions are due, in the same order, if no handle and no draft is there.
pub fn renewed_has_same_scan()
    ensures { RenewedHasSameScan }
{}

/// The same marks hold each version, for as long and at the same moments.
pub fn renewed_has_same_cover()
    ensures { RenewedHasSameCover }
{}

/// The same becomes of each version, for the same cause, if no handle and no draft is there.
pub fn renewed_has_same_fates()
    ensures { RenewedHasSameFates }
{}

/// The files of each kind of policy use the same, if no handle and no draft is there.
pub fn renewed_has_same_usage()
    ensures { RenewedHasSameUsage }
{}

/// The same names are restorable, in the same order.
pub fn renewed_has_same_restorable()
    ensures { RenewedHasSameRestorable }
{}

/// A world by hand, and its renewed one.
pub fn example_is_renewed()
    ensures { renewed aged ≡ fresh }
{}
