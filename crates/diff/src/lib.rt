// Template 5.3, after the Rust's diff.rs: numbers are restored from their differences, in the lent octets where unpacking
// left the packed ones.
#![tactic(auto)]

ghost use Rattle.std.specs.Prelude.{List};
ghost use Rattle.format.specs.declared.DecodedValue.{DecodedValue};
ghost use Rattle.diff.specs.Restoring.{Orderly, Holding, Restored};

mod kept;
mod restoring;

use format::{Differencing, Refusal};
pub use restoring::{Descriptors, Restoring};

// Restores the packed points, which take all of the lent octets, as far as none is beyond 2^60 either way. It stays a function
// of its own: within unpacking the compiler makes a constant of the loop anew at each point.
#[inline(never)]
pub fn restore(differencing: Differencing, payload: &[u8], points: &mut [u8]) -> Result<(), Refusal>
    requires { Orderly differencing }
    ensures { (packed : List DecodedValue) → Holding packed points.old → Restored differencing payload.now packed result points.old points.new }
{
    let octets = differencing.octets as usize;
    if differencing.order == 1 {
        let descriptors = Descriptors::<1>::read(octets, payload);
        return descriptors.restore(points);
    }
    let descriptors = Descriptors::<2>::read(octets, payload);
    descriptors.restore(points)
}
