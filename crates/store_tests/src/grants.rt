//! Grants of memory to a guest: the machine address of a range, the refusals of a grant, and the
//! most that a list holds.
ghost use Rattle.std.specs.Prelude.{◌≡◌};

use frame_grants::{Grant, GrantError, Grants, Kind};

fn ram(logical: u64, machine: u64, length: u64) -> Grant
    ensures { result
        ≡ record { logical = logical; machine = machine; length = length; kind = Kind.Ram } }
{
    Grant {
        logical,
        machine,
        length,
        kind: Kind::Ram,
    }
}

#[test]
fn a_range_lies_in_one_grant_or_in_none(rt: HostRuntime) {
    let mut grants = Grants::new(0x10_0000_0000, 24);
    assert_eq!(rt; grants.add(ram(0, 0x20_0000_0000, 0x1_f000)), Ok(()));
    assert_eq!(rt; grants.add(ram(0x1_f000, 0x20_0001_f000, 0x1000)), Ok(()));
    assert_eq!(rt; grants.machine_of(0x1_0000, 0x1_0000), None);
    assert_eq!(rt;
        grants.machine_of(0x1_1000, 0x1000),
        Some((0x20_0001_1000, Kind::Ram))
    );
    assert_eq!(rt;
        grants.machine_of(0x1_f000, 0x1000),
        Some((0x20_0001_f000, Kind::Ram))
    );
    assert_eq!(rt; grants.machine_of(0x1_f000, 0x1001), None);
    assert_eq!(rt; grants.machine_of(0x1_1000, 0), None);
    assert_eq!(rt; grants.machine_of(u64::MAX, u64::MAX), None);
}

#[test]
fn each_refusal_comes_once(rt: HostRuntime) {
    let mut grants = Grants::new(0x10_0000_0000, 24);
    assert_eq!(rt; grants.add(ram(0x4000, 0x20_0000_4000, 0x2000)), Ok(()));
    assert_eq!(rt;
        grants.add(ram(0, 0x20_0000_0000, 0)),
        Err(GrantError::Empty)
    );
    assert_eq!(rt;
        grants.add(ram(0x800, 0x20_0000_0000, 0x1000)),
        Err(GrantError::Unaligned)
    );
    assert_eq!(rt;
        grants.add(ram(0, 0xfff_ffff_ffff_f000, 0x2000)),
        Err(GrantError::Past)
    );
    assert_eq!(rt;
        grants.add(ram(0x5000, 0x30_0000_0000, 0x1000)),
        Err(GrantError::Overlap)
    );
    assert_eq!(rt;
        grants.add(ram(0x8000, 0x20_0000_5000, 0x1000)),
        Err(GrantError::Overlap)
    );
    assert_eq!(rt;
        grants.add(ram(0x8000, 0x10_00ff_f000, 0x1000)),
        Err(GrantError::PoolOverlap)
    );
    assert_eq!(rt; grants.list().len(), 1);
}

#[test]
fn the_list_has_64_grants_at_most_in_order(rt: HostRuntime) {
    let mut grants = Grants::new(0x10_0000_0000, 24);
    for index in 0..64u64 {
        let place = (63 - index) * 0x1000;
        assert_eq!(rt;
            grants.add(ram(place, 0x20_0000_0000 + place, 0x1000)),
            Ok(())
        );
    }
    assert_eq!(rt;
        grants.add(ram(0x4_0000, 0x20_0004_0000, 0x1000)),
        Err(GrantError::TooMany)
    );
    let list = grants.list();
    assert_eq!(rt; list.len(), 64);
    assert_eq!(rt; list.first(), Some(&ram(0, 0x20_0000_0000, 0x1000)));
    assert_eq!(rt; list.last(), Some(&ram(0x3_f000, 0x20_0003_f000, 0x1000)));
}
