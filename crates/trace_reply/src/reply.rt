//! The six kinds of replies, by what the run line asks for.
use crate::shown::Shown;
use entry_model::{AccessReply, DeviceReply, HReply};

/// The reply to a run line.
#[derive(Drop)]
pub enum Reply {
    /// Of a hypervisor call.
    Hcall(HReply),
    /// Of an access to memory.
    Access(AccessReply),
    /// Of an access of a device.
    Device(DeviceReply),
    /// Of a change of the segment lookaside buffer: whether it was accepted.
    Segment(bool),
    /// Of the setting of an authority mask, which is never refused.
    MaskSet,
    /// Of a dump.
    Dump(Shown),
}
