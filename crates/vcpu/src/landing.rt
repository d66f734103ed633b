//! Where an access ends by the receipt of its page's entry: at a machine address, outside all
//! grants, or refused by protection or by a mask.
ghost use Rattle.std.specs.Prelude.{◌≡◌, Some};
ghost use Rattle.frame_grants.specs.Grants.{machine_range};
ghost use Rattle.hpt_walk.specs.Access.{landing_at};
ghost use Rattle.hpt_walk.specs.Access as access;

use authority_mask::MaskName;
use entry_model::{Answer, Outcome, Receipt};
use frame_grants::Grants;
use hpt_walk::logical_of;

/// Where an access ends, by the receipt of the entry that translates the page, or without one.
pub fn outcome(grants: &Grants, ea: u64, found: &Option<Receipt>) -> Outcome
    ensures { result ≡ access.outcome_by grants.now.grants ea found.now }
{
    match found {
        None => Outcome::NoPage,
        Some(receipt) => outcome_at(grants, ea, receipt),
    }
}

/// Where an access ends, by the receipt of the entry that translates the page.
pub fn outcome_at(grants: &Grants, ea: u64, receipt: &Receipt) -> Outcome
    ensures { result ≡ access.outcome_by grants.now.grants ea (Some receipt.now) }
{
    match receipt.answer {
        Answer::At => landing(grants, logical_of(ea, &receipt.before)),
        Answer::Masked => refused_by(receipt.mask()),
        _ => Outcome::Denied,
    }
}

/// Refused by this mask; by none, it is protection that refuses.
fn refused_by(mask: Option<MaskName>) -> Outcome
    ensures { result ≡ access.refused_by mask }
{
    match mask {
        None => Outcome::Denied,
        Some(name) => Outcome::Masked(name),
    }
}

/// At the machine address of the logical address, where it has one.
fn landing(grants: &Grants, logical: u64) -> Outcome
    ensures { result ≡ landing_at (machine_range grants.now.grants logical 1) logical }
{
    match grants.machine_of(logical, 1) {
        None => Outcome::Ungranted(logical),
        Some((machine, _)) => Outcome::At(machine),
    }
}
