//! The traits through which a run reads its input and writes its text, and what each call assures
//! of bytes and faults.
ghost use Rattle.std.specs.Prelude.{◌≡◌, ◌≤◌, ◌<◌, ℕ, List, [], take, length, Option, IfOk, OnOk, OnErr};
ghost use Rattle.trace_io.specs.Outside.{Took, Put, AtEnd, Rose};

/// A read or a write that failed. Nothing was taken.
#[derive(Clone, Copy, PartialEq, Eq, Debug)]
pub struct Failed;

/// Where bytes come from.
pub trait Source {
    /// The bytes left, where the source shows them.
    ghost left: { Self → Option (List ℕ) };

    /// How often the source failed. The count may stop at the last value of a `u64`.
    ghost faults: { Self → ℕ };

    /// Takes the first bytes left, as many as it likes, and puts them first in `into`. To give none
    /// where there is room is the end of the input.
    fn read(&mut self, into: &mut [u8]) -> Result<usize, Failed>
        ensures room { IfOk result (λ n. n ≤ length into.old) }
        ensures took { IfOk result (λ n. Took (left self.old) (take n into.new) (left self.new)) }
        ensures end { IfOk result (λ n. n ≡ 0 → 0 < length into.old → AtEnd (left self.new)) }
        ensures nothing { OnErr result (Took (left self.old) [] (left self.new)) }
        ensures stands { OnOk result (faults self.new ≡ faults self.old) }
        ensures faults { faults self.old ≤ faults self.new }
        ensures cause { OnErr result (Rose (faults self.old) (faults self.new)) };
}

/// Where bytes go.
pub trait Sink {
    /// The bytes taken, where the sink shows them.
    ghost taken: { Self → Option (List ℕ) };

    /// How often the sink failed. The count may stop at the last value of a `u64`.
    ghost faults: { Self → ℕ };

    /// Takes the first bytes of a piece, at least one.
    fn write(&mut self, piece: &[u8]) -> Result<usize, Failed>
        requires { 0 < length piece.now }
        ensures some { IfOk result (λ n. 0 < n) }
        ensures room { IfOk result (λ n. n ≤ length piece.now) }
        ensures put { IfOk result (λ n. Put (taken self.old) (take n piece.now) (taken self.new)) }
        ensures nothing { OnErr result (Put (taken self.old) [] (taken self.new)) }
        ensures stands { OnOk result (faults self.new ≡ faults self.old) }
        ensures faults { faults self.old ≤ faults self.new }
        ensures cause { OnErr result (Rose (faults self.old) (faults self.new)) };
}
