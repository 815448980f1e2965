// How levels are coded.

ghost use Rattle.std.specs.Prelude.{◌≡◌, ◌-◌, ◌<◌, ◌≤◌, ◌^◌, MatchResult};
ghost use Rattle.format.specs.Refusals.{refusal_number};
ghost use Rattle.format.specs.RunLength.{base_of, code_refusals};
ghost use Rattle.laws.specs.First.{Gives, Clear};
ghost use Rattle.run_length.specs.Runs.{Coding};

use format::Refusal;

// The greatest code of b bits, 2^b − 1.
pub fn greatest_code(bits: usize) -> usize
    requires { bits ≤ 15 }
    ensures { (result ≡ 2 ^ bits - 1) × (result < 2 ^ 15) }
{
    (places::power(bits) - 1) as usize
}

// In so many bits, up to a greatest level, and with repeat codes for the digits of a base.
#[derive(Clone, Copy)]
pub struct LevelCoding {
    pub bits: usize,
    pub greatest: usize,
    pub base: usize,
    pub ghost accepted: { Coding bits greatest },
    pub ghost base_is: { base ≡ base_of bits greatest },
}

impl LevelCoding {
    // 5: "run-length b not 1 to 15 or M above 2^b − 1".
    pub fn new(bits: u8, greatest: u16) -> Result<LevelCoding, Refusal>
        ensures { MatchResult result (λ coding. Clear (code_refusals bits greatest) × (coding.bits ≡ bits) × (coding.greatest ≡ greatest)) (λ refusal. Gives (refusal_number refusal) (code_refusals bits greatest)) }
    {
        if bits == 0 || 15 < bits {
            return Err(Refusal::Width);
        }
        let bits = bits as usize;
        let greatest = greatest as usize;
        let top = greatest_code(bits);
        if top < greatest {
            return Err(Refusal::Width);
        }
        Ok(LevelCoding {
            bits,
            greatest,
            base: top - greatest,
        })
    }
}
