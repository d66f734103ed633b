//! Masks of 0 refuse no access. The function does nothing, and its contract is the law.

ghost use Rattle.authority_mask.specs.Authority.{NoMasksRefuseNothing};

/// Masks of 0 refuse nothing.
pub fn no_masks_refuse_nothing()
    ensures { NoMasksRefuseNothing }
{}
