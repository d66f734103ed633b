//! The form in which entries are stored: V is set, the bits of the hypervisor and the reserved bit
//! are clear, and B and the page size are valid.
ghost use Rattle.std.specs.Prelude.{◌≡◌, Some, IfSome};
ghost use Rattle.hpte_fields.specs.Fields.{normal_words};

use crate::bits::{RESERVED, VALID};
use page_sizes::decode;

/// The bits of doubleword 0 that belong to the hypervisor.
const HYPERVISOR: u64 = 0x60;

/// The doublewords that H_ENTER stores of those that it is given: V set, the hypervisor's bits and
/// the reserved bit clear. `None` where B is above 1 or the page size is none of the table.
/// Words that this gives, it gives back unchanged.
pub fn normal(pteh: u64, ptel: u64) -> Option<(u64, u64)>
    ensures words { result ≡ normal_words pteh ptel }
    ensures again { IfSome result (λ w. normal_words w.0 w.1 ≡ Some w) }
{
    if pteh >> 62 > 1 {
        return None;
    }
    decode(pteh, ptel)?;
    Some((pteh & !HYPERVISOR | VALID, ptel & !RESERVED))
}
