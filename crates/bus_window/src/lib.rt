//! Windows of a bus, through which a device reaches memory: their numbers, their ranges of bus
//! addresses, and the entry of each page.
//!
//! LoPAR, H_PUT_TCE: a window has a logical I/O bus number (LIOBN), and an address in it is an I/O
//! bus address (IOBA).
//!
//! Main contracts: `Window::new` is the window exactly if each part is in its range; `entry_at`.
#![tactic(auto)]

mod window;

pub use window::Window;
