ghost use Rattle.std.specs.Prelude.{◌≡◌, ◌<◌, ◌≤◌, ℕ, List, Option, None, length, IfOk, OnErr};
ghost use Rattle.mdv_base.specs.Causes.{HasCause};
ghost use Rattle.mdv_port.specs.Source.{Takes};

use mdv_base::Failed;

/// Where the bytes of a script come from.
pub trait Source {
    /// The bytes that are still to come, where the source tells them.
    ghost left: { Self → Option (List ℕ) };

    /// How often a call failed. It stands still at 2^64 - 1.
    ghost faults: { Self → ℕ };

    /// Puts the next bytes of the input at the front of `out`, and says how many: at least one
    /// unless the input is at its end, where it gives 0.
    fn take(&mut self, out: &mut [u8]) -> Result<usize, Failed>
        requires { 0 < length out.old }
        ensures fits { IfOk result (λ n. n ≤ length out.new) }
        ensures taken { (bytes : List ℕ) → left self.old ≡ Some bytes → IfOk result (λ n. Takes bytes n out.new (left self.new)) }

        // A source that tells nothing goes on telling nothing.
        ensures silent { left self.old ≡ None → left self.new ≡ None }
        ensures err { OnErr result (left self.new ≡ left self.old) }
        ensures cause { HasCause (faults self.old) (faults self.new) result };
}
