//! Generated traces: the first lines of seed 1 as another program drew them, and a shorter trace as
//! the beginning of a longer one.
use papr_codes::Hcall;
use std::test::Fail;
use storage_prot::Want;
use trace_gen::generate;
use trace_line::{Act, TraceLine};

fn call(hcall: Hcall, args: [u64; 8]) -> Act {
    Act::Call {
        number: hcall.number(),
        args,
        spelt: true,
    }
}

/// An access in privileged state.
fn access(want: Want, ea: u64) -> Act {
    Act::Access {
        want,
        ea,
        user: false,
    }
}

fn line(number: u32, cpu: u32, act: Act) -> TraceLine {
    TraceLine { number, cpu, act }
}

/// The words of seed 1 are those that a program in another language drew, by the two generators'
/// published definitions.
#[test]
fn the_first_lines_of_a_seed(rt: HostRuntime) -> Result<(), Fail> {
    let trace = generate(rt.alloc(), 1, 12)?;
    let lines = trace.lines.as_slice();
    assert_eq!(rt; lines.len(), 16);
    let segment = Act::SlbMte {
        rb: 0x800_0000,
        rs: 0x1000,
    };
    let expected = [
        line(1, 0, segment),
        line(2, 1, segment),
        line(3, 2, segment),
        line(4, 3, segment),
        line(5, 3, call(Hcall::Protect, [3, 23, 0, 0, 0, 0, 0, 0])),
        line(
            6,
            1,
            call(Hcall::Enter, [0, 496, 0x1001, 0x2413_2012, 0, 0, 0, 0]),
        ),
        line(7, 0, call(Hcall::ClearMod, [0, 1375, 0, 0, 0, 0, 0, 0])),
        line(8, 2, call(Hcall::ClearRef, [0, 1637, 0, 0, 0, 0, 0, 0])),
        line(9, 0, call(Hcall::Read, [0, 206, 0, 0, 0, 0, 0, 0])),
        line(10, 1, access(Want::Load, 0x20000)),
        line(11, 3, call(Hcall::ClearMod, [0, 1960, 0, 0, 0, 0, 0, 0])),
        line(12, 1, call(Hcall::Protect, [3, 787, 0, 0, 0, 0, 0, 0])),
        line(13, 0, access(Want::Load, 0x33000)),
        line(14, 2, access(Want::Store, 0x26000)),
        line(15, 1, call(Hcall::ClearRef, [0, 1652, 0, 0, 0, 0, 0, 0])),
        line(16, 3, call(Hcall::Read, [0, 879, 0, 0, 0, 0, 0, 0])),
    ];
    for (drawn, wanted) in lines.iter().zip(&expected) {
        assert_eq!(rt; drawn, wanted);
    }
    Ok(())
}

#[test]
fn a_trace_of_the_segments_alone(rt: HostRuntime) -> Result<(), Fail> {
    let trace = generate(rt.alloc(), 1, 0)?;
    assert_eq!(rt; trace.lines.as_slice().len(), 4);
    assert_eq!(rt; trace.config.cpus, 4);
    Ok(())
}

#[test]
fn a_longer_trace_of_a_seed_begins_as_a_shorter_one(rt: HostRuntime) -> Result<(), Fail> {
    let alloc = rt.alloc();
    let whole = generate(alloc, 1, 50_000)?;
    let lines = whole.lines.as_slice();
    assert_eq!(rt; lines.len(), 50_004);
    for count in [12, 20_001, 49_999] {
        let shorter = generate(alloc, 1, count)?;
        let front = shorter.lines.as_slice();
        assert_eq!(rt; front.len(), count as usize + 4);
        assert!(rt; lines.starts_with(front), "of {count} lines");
    }
    Ok(())
}
