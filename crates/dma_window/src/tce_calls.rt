//! How H_PUT_TCE and H_GET_TCE are run: the operations of the plan on the store, and the return
//! code and words that their receipts give.
ghost use Rattle.std.specs.Prelude.{◌≡◌, ◌<◌, length};
ghost use Rattle.entry_model.specs.Replies.{reply_with};
ghost use Rattle.entry_model.specs.Trial.{IsReplyOf, IsTrial};
ghost use Rattle.dma_window.specs.Calls as plans;
ghost use Rattle.dma_window.specs.TcePlans.{plan_of, FitsWindow};

use crate::tce::tce_of;
use crate::tce_plan::{TcePlan, get_tce_plan, put_tce_plan};
use bus_window::Window;
use entry_model::{
    Answer, EntryStore, HReply, Receipt, Receipts, Registers, ReplyWords, make_trial,
};
use frame_grants::Grants;
use papr_codes::Rc;

/// The return code of a call that ended with this answer.
pub fn code_of(answer: Answer) -> Rc
    ensures { result ≡ plans.code_of answer }
{
    match answer {
        Answer::Worn => Rc::Hardware,
        Answer::Taken => Rc::Busy,
        _ => Rc::Success,
    }
}

/// The return code by the last of the receipts.
fn code_by_last(receipts: &[Receipt]) -> Rc
    requires { 0 < length receipts.now }
    ensures { result ≡ plans.code_by_last receipts.now }
{
    code_of(receipts[receipts.len() - 1].answer)
}

/// The return code and the words of a call on TCEs, by its receipts.
fn tce_registers(plan: &TcePlan, receipts: &[Receipt]) -> Registers
    requires { IsTrial (plan_of plan.now).goes_on (plan_of plan.now).calls receipts.now }
    ensures { (result.rc, result.words) ≡ (plan_of plan.now).told receipts.now }
{
    match plan {
        TcePlan::Code { rc } => Registers::with_code(*rc),
        TcePlan::Reads { .. } => {
            let mut words = ReplyWords::new();
            words.push(tce_of(&receipts[0].before));
            Registers {
                rc: Rc::Success,
                words,
            }
        }
        TcePlan::Empties { .. } => Registers::with_code(code_by_last(receipts)),
        TcePlan::Replaces { .. } => Registers::with_code(code_by_last(receipts)),
    }
}

/// Makes a call on the TCEs of a window. Its receipts replace those that are in `receipts`.
#[inline(always)]
pub fn run_tce_plan<T: EntryStore>(
    store: &mut T,
    plan: &TcePlan,
    receipts: &mut Receipts,
) -> Registers
    requires { FitsWindow plan.now }
    ensures made { T.made store.old store.new receipts.new }
    ensures reply { IsReplyOf (plan_of plan.now) (reply_with result receipts.new) }
{
    // No store is so small that it lacks an entry of a window.
    let _order = store.order();
    let _ending = make_trial(store, plan, receipts);
    tce_registers(plan, receipts.as_slice())
}

/// Makes a call on the TCEs of a window, and gives its whole reply.
fn reply_tce_plan<T: EntryStore>(store: &mut T, plan: &TcePlan) -> HReply
    requires { FitsWindow plan.now }
    ensures made { T.made store.old store.new result.receipts }
    ensures reply { IsReplyOf (plan_of plan.now) result }
{
    let mut receipts = Receipts::new();
    let registers = run_tce_plan(store, plan, &mut receipts);
    registers.into_reply(receipts)
}

/// H_PUT_TCE (LoPAR): sets the TCE of the page at a bus address, over any that is there. A TCE that
/// permits nothing empties the entry. Between its two steps the entry is empty: another call that
/// enters a TCE there meanwhile makes this one H_BUSY.
///
/// H_PARAMETER where the address lies outside the window, or the TCE permits something and no
/// single grant of ram holds its page. H_HARDWARE where the entry's stamp is at its last value.
pub fn put_tce<T: EntryStore>(
    store: &mut T,
    grants: &Grants,
    window: &Window,
    ioba: u64,
    tce: u64,
) -> HReply
    ensures made { T.made store.old store.new result.receipts }
    ensures reply { IsReplyOf (plans.put_tce_plan grants.now.grants window.now ioba tce) result }
{
    let plan = put_tce_plan(grants, window, ioba, tce);
    reply_tce_plan(store, &plan)
}

/// H_GET_TCE (LoPAR): the TCE of the page at a bus address, in register 4. It is 0 where none is
/// set.
///
/// H_PARAMETER where the address lies outside the window.
pub fn get_tce<T: EntryStore>(store: &mut T, window: &Window, ioba: u64) -> HReply
    ensures made { T.made store.old store.new result.receipts }
    ensures reply { IsReplyOf (plans.get_tce_plan window.now ioba) result }
{
    let plan = get_tce_plan(window, ioba);
    reply_tce_plan(store, &plan)
}
