//! What a hypervisor call can return: the names of LoPAR, and their values in register 3.
ghost use Rattle.std.specs.Prelude.{◌≡◌};
ghost use Rattle.papr_codes.specs.ReturnCodes.{rc_code};

/// The return code of a hypervisor call.
#[derive(Clone, Copy, PartialEq, Eq, Debug)]
pub enum Rc {
    /// H_SUCCESS
    Success,
    /// H_BUSY
    Busy,
    /// H_CLOSED
    Closed,
    /// H_LONG_BUSY_ORDER_1_MSEC: the guest is to ask again after about a millisecond.
    LongBusy,
    /// H_HARDWARE
    Hardware,
    /// H_FUNCTION
    Function,
    /// H_PARAMETER
    Parameter,
    /// H_PTEG_FULL
    PtegFull,
    /// H_NOT_FOUND
    NotFound,
    /// H_NO_MEM
    NoMem,
    /// H_RESOURCE
    Resource,
}

impl Rc {
    /// The value that the guest gets in register 3.
    pub fn code(&self) -> i64
        ensures { result ≡ rc_code self.now }
    {
        match self {
            Rc::Success => 0,
            Rc::Busy => 1,
            Rc::Closed => 2,
            Rc::LongBusy => 9900,
            Rc::Hardware => -1,
            Rc::Function => -2,
            Rc::Parameter => -4,
            Rc::PtegFull => -6,
            Rc::NotFound => -7,
            Rc::NoMem => -9,
            Rc::Resource => -16,
        }
    }
}
