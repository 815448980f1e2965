// Points restored one after another, from the descriptors and the packed points.
ghost use Rattle.std.specs.Prelude.{◌≡◌, ◌+◌, ◌*◌, ◌<◌, ◌≤◌, length};
ghost use Rattle.format.specs.Bits.{number_at};
ghost use Rattle.format.specs.Layout.{point_size};
ghost use Rattle.format.specs.Differences.{descriptors_of};
ghost use Rattle.diff.specs.Kept.{bias, kept, Minimum};
ghost use Rattle.diff.specs.Restoring.{Expected, following, first_restoring, settled, Coming, Told, Onward};

use crate::kept::{BIAS, Kept};
use format::{BitPlace, POINT_SIZE, Refusal};
use std::marker::Model;

// As many first values as the order says, and the minimum, each with the bias added to it.
#[derive(Clone, Copy)]
pub struct Descriptors<const ORDER: usize> {
    firsts: [u64; ORDER],
    minimum: u64,
}

impl<const ORDER: usize> Model for Descriptors<ORDER> {
    ghost use Rattle.std.specs.Prelude.{ℕ, List, map};
    ghost use Rattle.std.proofs.Common.{ap₂};
    ghost use Rattle.format.specs.Differences.{Descriptors};
    ghost use Rattle.diff.specs.Kept.{kept, unkept, unkept-kept, all-unkept, Slight};

    ghost Value = { Descriptors };

    ghost view = { λ d. record { firsts = map kept d.firsts; minimum = kept d.minimum } };

    ghost invariant = { λ d. Slight d.minimum };

    ghost inverse = { λ d. record { firsts = map unkept d.firsts; minimum = unkept d.minimum } };

    ghost inverse_ok = { λ d h. ap₂ (λ (ns : List ℕ) (n : ℕ). record { firsts = ns; minimum = n }) (all-unkept d.firsts) (unkept-kept d.minimum) };
}

// How many first values are still to come; the previous number, and the one before.
#[derive(Clone, Copy)]
pub struct Restoring {
    left: usize,
    previous: Kept,
    before: Kept,
}

impl Restoring {
    // A number is restored.
    fn after(self, number: Kept) -> Restoring
        ensures { result ≡ following number self }
    {
        Restoring {
            left: self.left.saturating_sub(1),
            previous: number,
            before: self.previous,
        }
    }

    // "First order: [..] plus the previous restored number. Second order: [..] + 2 × previous − the one before."
    fn expected<const ORDER: usize>(self) -> u64
        ensures { Expected ORDER self.previous self.before result }
    {
        let previous = self.previous.biased();
        if ORDER == 1 {
            return previous;
        }
        2 * previous - self.before.biased()
    }
}

// A first value, "unsigned". That a descriptor has four octets at most is asked here and by the two below, which it is read for.
fn first_value(octets: usize, payload: &[u8], k: usize) -> u64
    requires { (octets ≤ 4) × (k ≤ 1) }
    ensures { result ≡ bias + number_at payload.now (k * (octets * 8)) (octets * 8) }
{
    let width = octets * 8;
    BIAS + u64::from(stream::read_number(payload, BitPlace(k * width), width))
}

// The minimum behind so many first values, "with a leading sign bit and magnitude (minus zero is zero)".
fn minimum(octets: usize, payload: &[u8], order: usize) -> u64
    requires { (0 < octets) × (octets ≤ 4) × (order ≤ 2) }
    ensures { Minimum payload.now octets order result }
{
    let width = octets * 8;
    let at = order * width;
    let magnitude = u64::from(stream::read_number(payload, BitPlace(at + 1), width - 1));
    if stream::read_number(payload, BitPlace(at), 1) == 1 {
        return BIAS - magnitude;
    }
    BIAS + magnitude
}

impl<const ORDER: usize> Descriptors<ORDER> {
    pub(crate) fn read(octets: usize, payload: &[u8]) -> Self
        requires { (0 < octets) × (octets ≤ 4) × (ORDER ≤ 2) }
        ensures { result ≡ descriptors_of (record { order = ORDER; octets = octets }) payload.now }
    {
        let mut firsts = [BIAS; ORDER];
        for (k, first) in firsts.iter_mut().enumerate() {
            *first = first_value(octets, payload, k);
        }
        Descriptors {
            firsts,
            minimum: minimum(octets, payload, ORDER),
        }
    }

    // The next number: one of the first values, or the packed number, the minimum and what is expected.
    fn next(&self, restoring: &Restoring, packed: u32) -> u64
        requires { restoring.now.left ≤ ORDER }
        ensures { Coming ORDER self.now restoring.now packed result }
    {
        if restoring.left > 0 {
            return self.firsts[ORDER - restoring.left];
        }
        u64::from(packed) + self.minimum + restoring.expected::<ORDER>() - BIAS
    }

    // Restores point k. "Missing points do not advance this."
    fn restore_point(
        &self,
        restoring: Restoring,
        points: &mut [u8],
        k: usize,
    ) -> Result<Restoring, Refusal>
        requires { (restoring.left ≤ ORDER) × ((k + 1) * point_size ≤ length points.old) }
        ensures { Told ORDER self.now restoring k points.old points.new result }
    {
        if layout::mark_in(points, k) != 0 {
            return Ok(restoring);
        }
        let next = self.next(&restoring, layout::packed_in(points, k));
        let Some(number) = Kept::new(next) else {
            return Err(Refusal::Beyond);
        };
        layout::store_signed(points, k, number.signed());
        Ok(restoring.after(number))
    }

    // Restores the points from one on. That no first value is still to come is known here, so that it is not asked for at
    // each point.
    fn restore_later(
        &self,
        restoring: Restoring,
        points: &mut [u8],
        start: usize,
    ) -> Result<(), Refusal>
        requires { start * point_size ≤ length points.old }
        ensures { Onward ORDER self.now (settled restoring) start points.old result points.new }
    {
        let mut restoring = Restoring {
            left: 0,
            ..restoring
        };
        for k in start..points.len() / POINT_SIZE {
            restoring = self.restore_point(restoring, points, k)?;
        }
        Ok(())
    }

    // Restores all points, each by its place: what chunks hold once they are lent back is not known to a proof.
    pub(crate) fn restore(&self, points: &mut [u8]) -> Result<(), Refusal>
        ensures { Onward ORDER self.now (first_restoring ORDER) 0 points.old result points.new }
    {
        let mut restoring = Restoring {
            left: ORDER,
            previous: Kept::zero(),
            before: Kept::zero(),
        };
        for k in 0..points.len() / POINT_SIZE {
            if restoring.left == 0 {
                return self.restore_later(restoring, points, k);
            }
            restoring = self.restore_point(restoring, points, k)?;
        }
        Ok(())
    }
}
