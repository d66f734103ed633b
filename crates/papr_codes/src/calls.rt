//! The hypervisor calls on the page table and on DMA windows, each with its number and its name.
ghost use Rattle.std.specs.Prelude.{◌≡◌, IsTrue, is_some};
ghost use Rattle.papr_codes.specs.Hcalls.{row_of, hcall_of, hcall_number, hcall_name, is_named};

/// A hypervisor call, as the number in register 3 names it.
#[derive(Clone, Copy, PartialEq, Eq, Debug)]
pub enum Hcall {
    /// H_REMOVE
    Remove,
    /// H_ENTER
    Enter,
    /// H_READ
    Read,
    /// H_CLEAR_MOD
    ClearMod,
    /// H_CLEAR_REF
    ClearRef,
    /// H_PROTECT
    Protect,
    /// H_GET_TCE
    GetTce,
    /// H_PUT_TCE
    PutTce,
    /// H_BULK_REMOVE
    BulkRemove,
    /// H_RESIZE_HPT_PREPARE
    Prepare,
    /// H_RESIZE_HPT_COMMIT
    Commit,
    /// A number that is none of these calls.
    Other(u64),
}

impl Hcall {
    /// The call that a guest asks for by this number.
    #[tactic(auto, unfolding(crate::specs::Hcalls::row_of, crate::specs::Hcalls::hcall_of))]
    pub fn of_number(number: u64) -> Hcall
        ensures call { result ≡ hcall_of number }
        ensures number { hcall_number result ≡ number }
        ensures listed { is_named result ≡ is_some (row_of number) }
    {
        match number {
            0x04 => Hcall::Remove,
            0x08 => Hcall::Enter,
            0x0C => Hcall::Read,
            0x10 => Hcall::ClearMod,
            0x14 => Hcall::ClearRef,
            0x18 => Hcall::Protect,
            0x1C => Hcall::GetTce,
            0x20 => Hcall::PutTce,
            0x124 => Hcall::BulkRemove,
            0x36C => Hcall::Prepare,
            0x370 => Hcall::Commit,
            _ => Hcall::Other(number),
        }
    }

    /// The number by which a guest asks for this call.
    #[tactic(auto, unfolding(crate::specs::Hcalls::row_of, crate::specs::Hcalls::hcall_of))]
    pub fn number(&self) -> u64
        ensures value { result ≡ hcall_number self.now }
        ensures back { IsTrue (is_named self.now) → hcall_of result ≡ self.now }
    {
        match self {
            Hcall::Remove => 0x04,
            Hcall::Enter => 0x08,
            Hcall::Read => 0x0C,
            Hcall::ClearMod => 0x10,
            Hcall::ClearRef => 0x14,
            Hcall::Protect => 0x18,
            Hcall::GetTce => 0x1C,
            Hcall::PutTce => 0x20,
            Hcall::BulkRemove => 0x124,
            Hcall::Prepare => 0x36C,
            Hcall::Commit => 0x370,
            Hcall::Other(number) => *number,
        }
    }

    /// The call's name, as traces and replies write it; `hcall` for a number that has no name.
    pub fn name(&self) -> &'static str
        ensures { result.now ≡ hcall_name self.now }
    {
        match self {
            Hcall::Remove => "H_REMOVE",
            Hcall::Enter => "H_ENTER",
            Hcall::Read => "H_READ",
            Hcall::ClearMod => "H_CLEAR_MOD",
            Hcall::ClearRef => "H_CLEAR_REF",
            Hcall::Protect => "H_PROTECT",
            Hcall::GetTce => "H_GET_TCE",
            Hcall::PutTce => "H_PUT_TCE",
            Hcall::BulkRemove => "H_BULK_REMOVE",
            Hcall::Prepare => "H_RESIZE_HPT_PREPARE",
            Hcall::Commit => "H_RESIZE_HPT_COMMIT",
            Hcall::Other(_) => "hcall",
        }
    }
}
