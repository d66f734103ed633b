//! The laws of the table. Each function does nothing, and its contract is the law.
//!
//! Between any two atomic operations the words and the passes' views show a state of `lock_core`'s
//! machine that a list of its steps reaches, and each pass knows which of these it took: that is
//! [`crate::LockRule`]. Which steps a call is, its own contract says. The first six laws say that
//! the list begins empty, that each operation is one step of it, and that each step that the
//! machine allows can be taken by one operation.

ghost use denote.Param.Send.{IsSend, IsSync};
ghost use Rattle.entry_lock.specs.contracts.table.LockTable as lock_table;
ghost use Rattle.entry_lock.specs.contracts.table.Pass as pass;
ghost use Rattle.entry_lock.specs.Resting.{StatesAtRestClose};
ghost use Rattle.entry_lock.specs.SingleSteps.{OperationsAreSingleSteps};
ghost use Rattle.entry_lock.specs.Laws.{TablesOpenOnTheirStates, EachOperationIsAStep, LooksThatFindGoneAreNoSteps, SplitsAreSteps, JoinsAreSteps, RaisedBitsStand};

/// A table that opens shows the machine that has taken no step.
pub fn tables_open_on_their_states()
    ensures { TablesOpenOnTheirStates }
{}

/// Each atomic operation on an entry is one step of the machine, and its pass knows which. The one
/// exception is a first look that finds a cached translation gone, which is no step.
pub fn operations_are_single_steps()
    ensures { OperationsAreSingleSteps }
{}

/// Each step on an entry that the machine allows can be taken by one atomic operation on one word.
pub fn each_operation_is_a_step()
    ensures { EachOperationIsAStep }
{}

/// A first look by a cached translation that finds the entry gone is no step of the machine.
pub fn looks_that_find_gone_are_no_steps()
    ensures { LooksThatFindGoneAreNoSteps }
{}

/// A split of a pass is the machine's split.
pub fn splits_are_steps()
    ensures { SplitsAreSteps }
{}

/// A join of two passes is the machine's join.
pub fn joins_are_steps()
    ensures { JoinsAreSteps }
{}

/// In the histories that `LockTable::close` gives, a bit that is set after a receipt is set in each
/// later state before, up to and with that of the first receipt that clears it.
pub fn raised_bits_stand()
    ensures { RaisedBitsStand }
{}

/// A pass with all shares closes a table to one list of states: that of the states which its
/// entries rest in.
pub fn states_at_rest_close()
    ensures { StatesAtRestClose }
{}

/// Threads may share a table by reference, and one may hand it to another.
pub fn tables_are_shared()
    ensures sync { IsSync lock_table.the_row }
    ensures send { IsSend lock_table.the_row }
{}

/// A pass may go to another thread.
pub fn passes_change_threads()
    ensures { IsSend pass.the_row }
{}
