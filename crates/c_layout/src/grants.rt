//! Grants in the memory of C: one range with its machine range, and the sorted list of them, which
//! is searched by halving.
ghost use Rattle.std.specs.Prelude.{◌≡◌, ◌≤◌, ◌<◌, ℕ, length};
ghost use Rattle.frame_grants.specs.Grants.{holds, most_grants};
ghost use Rattle.c_layout.specs.Grants.{kind_of, grant_of, fields_at, listed, IsInOrder, AreListed};

use frame_grants::{Grant, Kind, MOST_GRANTS};
use page_grants::GrantedMemory;

/// A range of the guest's logical addresses and the machine range that it is mapped to, in bytes.
#[repr(C)]
#[derive(Clone, Copy)]
pub struct PaprGrant {
    /// The first logical address.
    pub logical: u64,
    /// The machine address of the first byte.
    pub machine: u64,
    /// The length of both ranges.
    pub length: u64,
    /// Whether the machine range is of a device's registers, and not of main storage.
    pub is_io: bool,
}

impl PaprGrant {
    /// No byte, at address 0.
    pub const NONE: PaprGrant = PaprGrant {
        logical: 0,
        machine: 0,
        length: 0,
        is_io: false,
    };

    /// The grant as `frame_grants` has it, to be added to others.
    pub fn grant(&self) -> Grant
        ensures { result ≡ grant_of self.now }
    {
        Grant {
            logical: self.logical,
            machine: self.machine,
            length: self.length,
            kind: self.kind(),
        }
    }

    /// What the machine range is of: main storage, or a device's registers.
    fn kind(&self) -> Kind
        ensures { result ≡ kind_of self.now.is_io }
    {
        if self.is_io { Kind::Io } else { Kind::Ram }
    }

    /// Whether the whole logical range lies in the grant. Its end may be past 2^64.
    fn holds(&self, logical: u64, length: u64) -> bool
        ensures { result ≡ holds logical length (grant_of self.now) }
    {
        self.logical <= logical
            && logical - self.logical <= self.length
            && length <= self.length - (logical - self.logical)
    }

    /// The grant as C has it.
    pub fn of(grant: &Grant) -> PaprGrant
        ensures { grant_of result ≡ grant.now }
    {
        PaprGrant {
            logical: grant.logical,
            machine: grant.machine,
            length: grant.length,
            is_io: matches!(grant.kind, Kind::Io),
        }
    }
}

/// A list of at most 64 grants that was checked, in order of logical address. All zero is the list
/// of none. One whose count is above 64 grants nothing, whatever its grants are.
#[repr(C)]
#[derive(Clone, Copy)]
pub struct PaprGrants {
    /// In order of logical address; those from `count` on are empty.
    pub grants: [PaprGrant; MOST_GRANTS],
    /// How many there are: 0 to 64.
    pub count: u32,

    ghost room: { length grants ≡ most_grants },
    ghost in_order: { count ≤ most_grants → IsInOrder grants count },
}

impl PaprGrants {
    /// The list of grants that stand apart.
    pub fn of(grants: &[Grant]) -> PaprGrants
        requires few { length grants.now ≤ most_grants }
        requires apart { AreListed grants.now }
        ensures { listed result.grants result.count ≡ grants.now }
    {
        let mut list = [PaprGrant::NONE; MOST_GRANTS];
        for i in 0..grants.len() {
            list[i] = PaprGrant::of(&grants[i]);
        }
        PaprGrants {
            grants: list,
            count: grants.len() as u32,
        }
    }

    /// How many grants begin at or below the address. The list is halved, so this takes at most
    /// seven looks.
    fn count_below(&self, logical: u64) -> usize
        requires few { self.now.count ≤ most_grants }
        ensures bound { result ≤ self.now.count }
        ensures below { (k : ℕ)
            → k < result
            → (fields_at self.now.grants k).logical ≤ logical }
        ensures above { (k : ℕ)
            → result ≤ k
            → k < self.now.count
            → logical < (fields_at self.now.grants k).logical }
    {
        let mut low = 0;
        let mut high = self.count as usize;
        while low < high {
            let middle = low + (high - low) / 2;
            if self.grants[middle].logical <= logical {
                low = middle + 1;
            } else {
                high = middle;
            }
        }
        low
    }
}

impl GrantedMemory for PaprGrants {
    ghost grants = { λ list. listed list.grants list.count };

    fn machine_of(&self, logical: u64, length: u64) -> Option<(u64, Kind)> {
        if self.count > MOST_GRANTS as u32 {
            return None;
        }
        if length == 0 {
            return None;
        }
        let below = self.count_below(logical);
        if below == 0 {
            return None;
        }
        let grant = &self.grants[below - 1];
        if !grant.holds(logical, length) {
            return None;
        }
        Some((grant.machine + (logical - grant.logical), grant.kind()))
    }
}
