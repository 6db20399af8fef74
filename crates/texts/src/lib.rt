// A text within its limit, as the readers of texts take it.
#![tactic(auto)]

ghost use Rattle.std.specs.Prelude.{◌≡◌, ◌<◌, ◌≤◌, length, MatchResult};
ghost use Rattle.laws.specs.Bytes.{text_limit};
ghost use Rattle.refusals.specs.declared.Reason.TheVariants.{OverTheLimit};
ghost use Rattle.refusals.specs.Numbers.{refused};

use laws::TEXT_LIMIT;
use refusals::{Reason, Refusal};

// The bytes of a text, at most as many as JVMS 4.4.7 allows.
#[derive(Clone, Copy)]
pub struct Text<'a> {
    pub bytes: &'a [u8],
    ghost within: { length bytes.now ≤ text_limit },
}

impl<'a> Text<'a> {
    // Refused with 21 at 0 where it is over the limit.
    pub fn new(bytes: &'a [u8]) -> Result<Self, Refusal<usize>>
        ensures { MatchResult result (λ t. t.bytes.now ≡ bytes.now) (λ r. (r ≡ refused OverTheLimit 0) × (text_limit < length bytes.now)) }
    {
        if TEXT_LIMIT < bytes.len() {
            return Err(Reason::OverTheLimit.at(0));
        }
        Ok(Text { bytes })
    }
}
