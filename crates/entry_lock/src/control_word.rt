//! Control words as numbers: lock, shut, valid, R and C from bit 63 down, and the stamp in the low
//! 32.
ghost use Rattle.std.specs.Prelude.{◌≡◌, ◌<◌, ◌^◌, if◌then◌else◌};
ghost use Rattle.lock_core.specs.declared.control.Control.{Control};
ghost use Rattle.entry_lock.specs.Layout.{word_of, Means, control_of_word};

use lock_core::Control;

/// A hypervisor call holds the entry.
pub const LOCKED: u64 = 1 << 63;

/// Its holder is changing the entry.
pub const SHUT: u64 = 1 << 62;

/// The entry has a translation (V of the first doubleword).
pub const VALID: u64 = 1 << 61;

/// R of the second doubleword.
pub const REFERENCED: u64 = 1 << 60;

/// C of the second doubleword.
pub const CHANGED: u64 = 1 << 59;

/// The stamp: how often the entry was changed. At 2^32 - 1 it changes no more.
pub const STAMP: u64 = 0xffff_ffff;

/// The control word of a number.
#[inline(always)]
pub fn control_of(word: u64) -> Control
    ensures means { (k : Control) → Means word k → result ≡ k }
    ensures exact { result ≡ control_of_word word }
{
    Control {
        locked: word & LOCKED == LOCKED,
        shut: word & SHUT == SHUT,
        valid: word & VALID == VALID,
        referenced: word & REFERENCED == REFERENCED,
        changed: word & CHANGED == CHANGED,
        stamp: (word & STAMP) as u32,
    }
}

/// The weight of a bit that is set.
#[inline(always)]
fn weight_if(one: bool, weight: u64) -> u64
    ensures { result ≡ (if one then weight else 0) }
{
    if one { weight } else { 0 }
}

/// The number of a control word.
#[inline(always)]
pub fn word_from(control: &Control) -> u64
    ensures value { result ≡ word_of control.now }
    ensures low { control.now.stamp < 2 ^ 32 }
{
    let bits = weight_if(control.referenced, REFERENCED)
        + (weight_if(control.changed, CHANGED) + control.stamp as u64);
    weight_if(control.locked, LOCKED)
        + (weight_if(control.shut, SHUT) + (weight_if(control.valid, VALID) + bits))
}
