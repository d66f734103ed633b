//! A caller of `slb_model`: one `slbmte` into an empty segment lookaside buffer, and then a search.
ghost use Rattle.std.specs.Prelude.{◌≡◌, ◌&&◌, false, is_some, None, Some, IfOk, MatchResult};
ghost use Rattle.slb_model.specs.Refusals.{mte_refusal};
ghost use Rattle.std.specs.Option.{option_map_or};
ghost use Rattle.slb_model.specs.Slots.{covers, is_valid, slot_of_words};

use slb_model::{BadSlb, Segment, Slb};

/// Writes the one segment of a buffer, and asks for the segment of an address: there is one exactly
/// if the words describe a valid slot that covers the address.
pub fn only_segment(slb: &mut Slb, rb: u64, rs: u64, ea: u64) -> Result<Option<Segment>, BadSlb>
    ensures segment { IfOk
        result
        (λ segment.
        is_some segment
        ≡ (is_valid rb && option_map_or (covers ea) (slot_of_words rb rs) false)) }
    ensures told { MatchResult
        result
        (λ _. mte_refusal rb rs ≡ None)
        (λ e. mte_refusal rb rs ≡ Some e) }
{
    slb.clear();
    slb.mte(rb, rs)?;
    Ok(slb.segment(ea))
}
