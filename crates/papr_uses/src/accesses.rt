//! A caller of `vcpu`: a new processor's access ends without a segment.
ghost use Rattle.std.specs.Prelude.{◌≡◌, None, []};
ghost use Rattle.entry_model.specs.declared.access_reply.Outcome.TheVariants.{NoSegment};

use entry_model::AccessReply;
use frame_grants::Grants;
use papr_table::PlainTable;
use storage_prot::Want;
use vcpu::Cpu;

/// An access of a new processor, which has no segment: it ends at once, and the table stays as it
/// is.
pub fn first_access(table: &mut PlainTable, grants: &Grants, ea: u64) -> AccessReply
    ensures outcome { result.outcome ≡ NoSegment }
    ensures receipts { result.receipts ≡ [] }
    ensures same { table.new.states ≡ table.old.states }
{
    Cpu::new().access(table, grants, ea, Want::Load, false)
}
