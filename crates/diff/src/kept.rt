// A number that may be below zero is kept with 2^62 − 1 added to it.
ghost use Rattle.std.specs.Prelude.{◌≡◌};
ghost use Rattle.diff.specs.Kept.{bias, kept, Near, within};

use std::marker::Model;

// 2^62 − 1. It is odd on purpose: so the compiler stores the eight octets of a number by one instruction, which it does not
// with 2^62.
pub(crate) const BIAS: u64 = (1 << 62) - 1;

const LEAST: u64 = BIAS - (1 << 60);

const GREATEST: u64 = BIAS + (1 << 60);

// A number within 2^60 either way, which is what clauses see.
#[derive(Clone, Copy)]
pub(crate) struct Kept {
    biased: u64,
}

impl Model for Kept {
    ghost use Rattle.std.specs.Prelude.{ℤ};
    ghost use Rattle.std.proofs.Common.{ap};
    ghost use Rattle.diff.specs.Kept.{kept, unkept, unkept-kept, Near};

    ghost Value = { ℤ };

    ghost view = { λ k. kept k.biased };

    ghost invariant = { λ k. Near k.biased };

    ghost inverse = { λ z. record { biased = unkept z } };

    ghost inverse_ok = { λ k h. ap (λ n. record { biased = n }) (unkept-kept k.biased) };
}

impl Kept {
    pub(crate) fn zero() -> Kept
        ensures { result ≡ kept bias }
    {
        Kept { biased: BIAS }
    }

    // None: "a restored number is beyond 2^60 either way".
    pub(crate) fn new(biased: u64) -> Option<Kept>
        ensures { result ≡ within (kept biased) }
    {
        if (LEAST..=GREATEST).contains(&biased) {
            Some(Kept { biased })
        } else {
            None
        }
    }

    pub(crate) fn biased(self) -> u64
        ensures is { kept result ≡ self }
        ensures near { Near result }
    {
        self.biased
    }

    pub(crate) fn signed(self) -> i64
        ensures { result ≡ self }
    {
        (self.biased as i64) - (BIAS as i64)
    }
}
