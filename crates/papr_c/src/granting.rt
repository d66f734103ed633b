//! The list of grants, made and checked from those that C gives, and its look-up: the machine range
//! of a logical one.
ghost use Rattle.std.specs.Prelude.{◌≡◌};
ghost use Rattle.frame_grants.specs.Grants.{machine_range};
ghost use Rattle.c_layout.specs.Grants.{listed};
ghost use Rattle.papr_c.specs.Grants.{making_of, making_told, list_after, grant_refusal_number, pool_refusal_number, range_told};

use c_layout::{PaprGrant, PaprGrants};
use frame_grants::{GrantError, Grants, Kind};
use page_grants::GrantedMemory;
use pool_range::{PoolRange, RangeError};

/// Why a list of grants wasn't made: the number of the refusal, or 0, and the index of the grant
/// that is refused.
#[repr(C)]
#[derive(Clone, Copy)]
pub struct PaprMaking {
    /// The index of the grant that is refused, or 0.
    pub index: usize,
    /// 0, or the number of the refusal.
    pub refusal: u32,
}

/// The machine range of a logical one, if there is one.
#[repr(C)]
#[derive(Clone, Copy)]
pub struct PaprRange {
    /// The machine address of the first byte, or 0.
    pub machine: u64,
    /// Whether one grant holds the range.
    pub granted: bool,
    /// Whether that grant is of a device's registers.
    pub is_io: bool,
}

fn grant_refusal_number(error: GrantError) -> u32
    ensures { result ≡ Rattle.papr_c.specs.Grants.grant_refusal_number error }
{
    match error {
        GrantError::Empty => 1,
        GrantError::Unaligned => 2,
        GrantError::Past => 3,
        GrantError::TooMany => 4,
        GrantError::Overlap => 5,
        GrantError::PoolOverlap => 6,
    }
}

fn pool_refusal_number(error: RangeError) -> u32
    ensures { result ≡ Rattle.papr_c.specs.Grants.pool_refusal_number error }
{
    match error {
        RangeError::Order => 7,
        RangeError::Unaligned => 8,
        RangeError::Past => 9,
    }
}

/// Makes the list of these grants. None of them may overlap the machine range of `2^pool_order`
/// bytes from `pool_base`, which is kept for page tables. Where one of them is refused the list
/// stays as it was.
#[unsafe(no_mangle)]
pub extern "C" fn papr_make_grants(
    given: &[PaprGrant],
    pool_base: u64,
    pool_order: u8,
    list: &mut PaprGrants,
) -> PaprMaking
    ensures told { result ≡ making_told (making_of pool_base pool_order given.now) }
    ensures list { listed list.new.grants list.new.count
        ≡ list_after
        (making_of pool_base pool_order given.now)
        (listed list.old.grants list.old.count) }
{
    let pool = match PoolRange::new(pool_base, u64::from(pool_order)) {
        Ok(pool) => pool,
        Err(error) => return PaprMaking {
            index: 0,
            refusal: pool_refusal_number(error),
        },
    };
    let mut grants = Grants::new(pool.base, pool.order);
    for index in 0..given.len() {
        if let Err(error) = grants.add(given[index].grant()) {
            return PaprMaking {
                index,
                refusal: grant_refusal_number(error),
            };
        }
    }
    *list = PaprGrants::of(grants.list());
    PaprMaking {
        index: 0,
        refusal: 0,
    }
}

/// The machine range of the `length` bytes from a logical address, where one grant of the list
/// holds all of them.
#[unsafe(no_mangle)]
pub extern "C" fn papr_machine_of(list: &PaprGrants, logical: u64, length: u64) -> PaprRange
    ensures { result
        ≡ range_told (machine_range (listed list.now.grants list.now.count) logical length) }
{
    match list.machine_of(logical, length) {
        Some((machine, kind)) => PaprRange {
            machine,
            granted: true,
            is_io: matches!(kind, Kind::Io),
        },
        None => PaprRange {
            machine: 0,
            granted: false,
            is_io: false,
        },
    }
}
