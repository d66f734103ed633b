//! The walk that an access of C asks for: its page, its kind, and its operations on the page's two
//! groups.
ghost use Rattle.hpte_fields.specs.TableSize.{IsTableOrder};
ghost use Rattle.std.specs.Prelude.{◌≡◌};
ghost use Rattle.entry_model.specs.Calls.{AreCallsIn};
ghost use Rattle.hpt_walk.specs.PageCalls.{calls_of};
ghost use Rattle.shared_pass.specs.Walks.{walk_asked, calls_of_walk};

use c_layout::{PaprAccess, want_of};
use hpt_walk::PageCalls;
use power_addr::Page;
use storage_prot::Want;

/// An access whose arguments are in range, so that it can walk the table.
#[derive(Clone, Copy)]
pub struct PageWalk {
    /// The access as C asks for it.
    pub access: PaprAccess,
    /// The page of the access's address.
    pub page: Page,
    /// What it wants.
    pub want: Want,
}

impl PageWalk {
    /// The walk of an access. `None` where its segment's number, its page size or its kind is out
    /// of range.
    pub fn of(access: &PaprAccess) -> Option<PageWalk>
        ensures { result ≡ walk_asked access.now }
    {
        let page = Page::of_address(access.one_tb, access.vsid, access.shift, access.ea);
        let (Some(page), Some(want)) = (page, want_of(access.want)) else {
            return None;
        };
        Some(PageWalk {
            access: *access,
            page,
            want,
        })
    }

    /// The walk's calls on a table of `2^order` bytes.
    #[inline]
    pub fn calls(&self, order: u8) -> PageCalls
        requires order { IsTableOrder order }
        ensures calls { calls_of result ≡ calls_of_walk order self.now }
        ensures fits { AreCallsIn order (calls_of result) }
    {
        let access = &self.access;
        PageCalls::of(
            &self.page,
            order,
            self.want,
            access.key,
            access.no_execute,
            access.masks(),
        )
    }
}
