// The check digits of PESEL and NIP.
ghost use Rattle.std.specs.Prelude.{◌≡◌, ◌<◌, ◌≤◌, ◌%◌, length};
ghost use Rattle.polish.specs.Numbers.{weighed, pesel_right, nip_right};

// The remainder of the weighted sum. The weights are few, so the sum stays small.
fn weighed_by(s: &[u8], weights: &[u8], by: u32) -> u32
    requires { (length weights.now ≤ 10) × (0 < by) }
    ensures { result ≡ weighed weights.now s.now % by }
{
    let mut sum = 0;
    for i in 0..weights.len() {
        sum += text::digit_of(weights[i]) * text::digit_of(text::byte_at(s, i));
    }
    sum % by
}

// What the sum lacks to the next multiple of ten is the check digit.
#[tactic(auto, unfolding(crate::specs::Numbers::pesel_right))]
pub fn pesel_right(s: &[u8]) -> bool
    ensures { result ≡ pesel_right s.now }
{
    (10 - weighed_by(s, b"1379137913", 10)) % 10 == text::digit_of(text::byte_at(s, 10))
}

// The remainder itself is the check digit, and 10 is none.
#[tactic(auto, unfolding(crate::specs::Numbers::nip_right))]
pub fn nip_right(s: &[u8]) -> bool
    ensures { result ≡ nip_right s.now }
{
    weighed_by(s, b"657234567", 11) == text::digit_of(text::byte_at(s, 9))
}
