//! The processors of a partition together: how they begin, and how a committed resize clears their
//! caches.
ghost use Rattle.std.specs.Prelude.{◌≡◌, map, replicate, IfOk};
ghost use Rattle.tlb_model.specs.Processor.{new_processor, without_cache};

use crate::cpu::Cpu;
use std::alloc::{AllocError, Global};

/// So many processors, with no segment and nothing cached. The only error is want of memory.
pub fn empty_cpus(alloc: Global, count: usize) -> Result<Vec<Cpu>, AllocError>
    ensures { IfOk result (λ cpus. cpus.items ≡ replicate count new_processor) }
{
    let mut cpus = Vec::with_capacity(alloc, count)?;
    for _ in 0..count {
        cpus.push(Cpu::new())?;
    }
    Ok(cpus)
}

/// Clears the cache of each processor, as a committed resize does.
pub fn clear_caches(cpus: &mut Vec<Cpu>)
    ensures { cpus.new.items ≡ map without_cache cpus.old.items }
{
    for i in 0..cpus.len() {
        cpus[i].clear_cache();
    }
}
