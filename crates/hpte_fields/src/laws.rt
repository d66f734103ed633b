//! The public constants are the bits, masks and numbers of the definitions. The function does
//! nothing, and its contract is the law.

ghost use Rattle.std.specs.Prelude.{◌≡◌};
ghost use Rattle.hpte_fields.specs.TableSize.{greatest_architected_order, greatest_order, group_size, least_order};
ghost use Rattle.hpte_fields.specs.Fields as fields;

use crate::bits::{BOLTED, CHANGED, REFERENCED, SECONDARY, TAG, VALID};
use crate::table_size::{GREATEST_ARCHITECTED_ORDER, GROUP_SIZE};
use pool_range::{GREATEST_ORDER, LEAST_ORDER};

/// Each constant is the bit, the mask or the number of the definitions.
pub fn constants_are_as_defined()
    ensures valid { VALID ≡ fields.valid_bit }
    ensures secondary { SECONDARY ≡ fields.secondary_bit }
    ensures bolted { BOLTED ≡ fields.bolted_bit }
    ensures tag { TAG ≡ fields.tag_mask }
    ensures referenced { REFERENCED ≡ fields.referenced_bit }
    ensures changed { CHANGED ≡ fields.changed_bit }
    ensures group { GROUP_SIZE ≡ group_size }
    ensures least { LEAST_ORDER ≡ least_order }
    ensures greatest { GREATEST_ORDER ≡ greatest_order }
    ensures architected { GREATEST_ARCHITECTED_ORDER ≡ greatest_architected_order }
{}
