//! Partitions before their first call: empty tables of several orders, each at the beginning of the
//! pool.
ghost use Rattle.std.specs.Prelude.{IfOk};
ghost use Rattle.partition.specs.PartitionState.{HasStates};

use partition::Partition;
use std::alloc::Global;
use std::test::Fail;
use trace_read::parse;

/// The partition of these configuration lines.
fn opened(alloc: Global, lines: &str) -> Result<Partition, Fail>
    ensures { IfOk result HasStates }
{
    let trace = parse(alloc, lines.as_bytes())?;
    Ok(Partition::open(alloc, &trace.config)?)
}

#[test]
fn a_table_of_each_order_is_opened(rt: HostRuntime) -> Result<(), Fail> {
    for (lines, order, entries) in [
        ("order 18\nbegin\n", 18, 0x4000),
        ("order 20\nbegin\n", 20, 0x1_0000),
        ("order 21\npool 0x2000000000 34\nbegin\n", 21, 0x2_0000),
        ("order 22\nbegin\n", 22, 0x4_0000),
    ] {
        let partition = opened(rt.alloc(), lines)?;
        assert_eq!(rt; (partition.order(), partition.table()), (order, 0));
        let states = partition.states();
        assert_eq!(rt; states.len(), entries);
        assert!(rt; states.iter().all(|state| !state.valid && state.stamp == 0));
    }
    Ok(())
}

#[test]
fn a_table_opens_at_the_beginning_of_its_pool(rt: HostRuntime) -> Result<(), Fail> {
    for (lines, place) in [
        ("order 22\nbegin\n", 0x10_0000_0000),
        ("order 22\npool 0x2000000000 34\nbegin\n", 0x20_0000_0000),
    ] {
        assert_eq!(rt; opened(rt.alloc(), lines)?.place(), place);
    }
    Ok(())
}
