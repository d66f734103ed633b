//! A pool of page table memory, its base and order read from the second and third word of a line.
ghost use Rattle.std.specs.Prelude.{◌≡◌, Ok, Err, MatchResult};
ghost use Rattle.trace_read.specs.Settings as setting;
ghost use Rattle.trace_read.specs.TextLines.{texts};

use crate::acts::number_at;
use crate::why::Why;
use pool_range::PoolRange;

/// The machine range for page tables that a line names, as `pool BASE ORDER` does; whatever its
/// first word is. It is refused for the number of its words, a word that is no number, or a range
/// that is none for page tables.
#[tactic(auto, unfolding(crate::specs::Settings::pool_named))]
pub fn pool_named(words: &[&[u8]]) -> Result<PoolRange, Why>
    ensures { MatchResult
        result
        (λ range. setting.pool_named (texts words.now) ≡ Ok (range.base, range.order))
        (λ why. setting.pool_named (texts words.now) ≡ Err why) }
{
    if words.len() != 3 {
        return Err(Why::Count);
    }
    let base = number_at(words, 1)?;
    let order = number_at(words, 2)?;
    match PoolRange::new(base, order) {
        Err(_) => Err(Why::Range),
        Ok(range) => Ok(range),
    }
}
