//! A caller of `partition`: H_RESIZE_HPT_PREPARE until the table is ready, and then
//! H_RESIZE_HPT_COMMIT.
ghost use Rattle.std.specs.Prelude.{◌≡◌, ◌<◌, ◌-◌, ◌^◌, IfOk, OnErr};
ghost use Rattle.papr_codes.specs.declared.codes.Rc.TheVariants.{Success};
ghost use Rattle.partition.specs.PartitionState.{CountsTables, HasStates};

use papr_codes::Rc;
use partition::Partition;
use std::alloc::{AllocError, Global};

/// The most calls that make the largest table ready.
const MOST_CALLS: u32 = 16;

/// Makes a table of `2^shift` bytes ready, and then the partition's own. Where a call is refused,
/// or memory ends, the partition keeps its table.
pub fn resize(partition: &mut Partition, alloc: Global, shift: u64) -> Result<Rc, AllocError>
    requires has_states { HasStates partition.old }
    requires number { partition.old.memory.table.number < 2 ^ 32 - 1 }
    ensures order { IfOk result (λ rc. rc ≡ Success → partition.new.memory.table.order ≡ shift) }
    ensures counted { IfOk result (λ rc. CountsTables rc partition.old partition.new) }
    ensures kept { OnErr result (partition.new.memory.table ≡ partition.old.memory.table) }
    ensures has_states { HasStates partition.new }
{
    for _call in 0..MOST_CALLS {
        match partition.prepare(alloc, 0, shift)?.rc {
            Rc::LongBusy => {}
            Rc::Success => return Ok(partition.commit(0, shift).rc),
            rc => return Ok(rc),
        }
    }
    Ok(Rc::LongBusy)
}
