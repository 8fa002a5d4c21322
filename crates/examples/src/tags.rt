// The worked examples of the tag end, shown and run.
ghost use Rattle.std.specs.Prelude.{◌≡◌};
ghost use Rattle.examples.specs.Tags.{WorkedTags, codes_given};

use tag::code::tap_code;

// The codes that the code gives on the examples.
#[derive(Clone, Copy)]
pub struct Codes {
    pub first_code: [u8; 3],
    pub code_of_36: [u8; 3],
    pub last_code: [u8; 3],
}

// Every example of the tag end holds of the rules, and the code gives what the rules give.
#[tactic(auto, using(crate::proofs::Tapping::worked_tags))]
pub fn worked_tag_examples() -> Codes
    ensures value { result ≡ codes_given }
    ensures hold { WorkedTags }
{
    Codes {
        first_code: tap_code(0),
        code_of_36: tap_code(36),
        last_code: tap_code(46_655),
    }
}
