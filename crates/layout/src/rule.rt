// The rule byte that frames 21, 22 and 23 have last; 01, 02 and 03 have none, and open with rule 1.
ghost use Rattle.std.specs.Prelude.{◌≡◌, ◌<◌, ◌^◌};
ghost use Rattle.layout.specs.Fields.{has_bytes};
ghost use Rattle.layout.specs.Rule.{ruled, length_of, rule_at};

use hexadecimal::byte_at;
use segmentation::Rule;

// The first kind that states its rule.
const RULED: u8 = 0x21;

// Does the line's kind state a rule?
#[tactic(auto, unfolding(crate::specs::Rule::ruled))]
fn stated(line: &[u8]) -> bool
    ensures { result ≡ ruled line.now }
{
    RULED <= byte_at(line, 0)
}

// The length of an opening whose segments end here.
#[tactic(auto, unfolding(crate::specs::Rule::length_of))]
pub fn length(line: &[u8], end: usize) -> usize
    requires { end < 2 ^ 61 }
    ensures value { result ≡ length_of line.now end }
    ensures bound { result < 2 ^ 62 }
{
    if stated(line) { end + 1 } else { end }
}

// Is that the line's?
pub(crate) fn fits(line: &[u8], end: usize) -> bool
    requires { end < 2 ^ 61 }
    ensures { result ≡ has_bytes line.now (length_of line.now end) }
{
    crate::has(line, length(line, end))
}

// The rule of an opening whose segments end here.
#[tactic(auto, unfolding(crate::specs::Rule::rule_at))]
pub fn at(line: &[u8], end: usize) -> Rule
    ensures { result ≡ rule_at line.now end }
{
    if stated(line) {
        Rule(u64::from(byte_at(line, end)))
    } else {
        Rule(Rule::FIRST)
    }
}
