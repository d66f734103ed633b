//! Which operations H_PUT_TCE and H_GET_TCE make, decided by the arguments, the window and the
//! grants before any entry is touched.
ghost use Rattle.std.specs.Prelude.{◌≡◌};
ghost use Rattle.dma_window.specs.Calls as calls;
ghost use Rattle.dma_window.specs.TcePlans.{plan_of, FitsWindow};

use crate::tce::{address, entering, is_ram, permits, removal};
use bus_window::Window;
use entry_model::{Answer, CallList, Op};
use page_grants::GrantedMemory;
use papr_codes::Rc;

/// What a hypervisor call on TCEs with its arguments is.
#[derive(Clone, Copy)]
pub enum TcePlan {
    /// It is answered by this code, and touches no entry.
    Code { rc: Rc },
    /// H_GET_TCE: it reads an entry.
    Reads { entry: u32 },
    /// H_PUT_TCE of a TCE that permits nothing: it empties an entry.
    Empties { entry: u32 },
    /// H_PUT_TCE of any other: it empties an entry, and unless that is worn makes this operation on
    /// it.
    Replaces { entry: u32, op: Op },
}

impl CallList for TcePlan {
    ghost use Rattle.dma_window.specs.TcePlans.{plan_of};

    ghost calls = { λ plan. (plan_of plan).calls };

    ghost goes_on = { λ plan. (plan_of plan).goes_on };

    fn call_at(&self, made: u32) -> Option<(u32, Op)> {
        match (self, made) {
            (TcePlan::Reads { entry }, 0) => Some((*entry, Op::Read)),
            (TcePlan::Empties { entry } | TcePlan::Replaces { entry, .. }, 0) => {
                Some((*entry, removal()))
            }
            (TcePlan::Replaces { entry, op }, 1) => Some((*entry, *op)),
            _ => None,
        }
    }

    fn goes_on_after(&self, answer: Answer) -> bool {
        match self {
            TcePlan::Code { .. } | TcePlan::Reads { .. } => true,
            TcePlan::Empties { .. } | TcePlan::Replaces { .. } => !matches!(answer, Answer::Worn),
        }
    }
}

/// H_PUT_TCE (LoPAR): sets the TCE of the page at a bus address, over any that is there.
/// H_PARAMETER where the address lies outside the window, or the TCE permits something and no
/// single grant of ram holds its page.
#[tactic(auto, unfolding(crate::specs::Calls::put_tce_plan))]
pub fn put_tce_plan<G: GrantedMemory>(grants: &G, window: &Window, ioba: u64, tce: u64) -> TcePlan
    ensures plan { plan_of result
        ≡ calls.put_tce_plan (G.grants grants.now) window.now ioba tce }
    ensures fits { FitsWindow result }
{
    let Some(entry) = window.entry_at(ioba) else {
        return TcePlan::Code { rc: Rc::Parameter };
    };
    if !permits(tce, false) && !permits(tce, true) {
        return TcePlan::Empties { entry };
    }
    if !is_ram(grants, address(tce)) {
        return TcePlan::Code { rc: Rc::Parameter };
    }
    let op = entering(tce);
    TcePlan::Replaces { entry, op }
}

/// H_GET_TCE (LoPAR): reads the TCE of the page at a bus address. H_PARAMETER where that lies
/// outside the window.
#[tactic(auto, unfolding(crate::specs::Calls::get_tce_plan))]
pub fn get_tce_plan(window: &Window, ioba: u64) -> TcePlan
    ensures plan { plan_of result ≡ calls.get_tce_plan window.now ioba }
    ensures fits { FitsWindow result }
{
    match window.entry_at(ioba) {
        Some(entry) => TcePlan::Reads { entry },
        None => TcePlan::Code { rc: Rc::Parameter },
    }
}
