// Reading a decimal number. The programs read every number in a line or an argument with this function. specs/Decimal.antt has the rule.
#![tactic(auto)]

ghost use Rattle.std.specs.Prelude.{◌≡◌};
ghost use Rattle.numbers.specs.Decimal.{read_number};

pub fn read_number(digits: &[u8]) -> Option<u32>
    ensures { result ≡ read_number digits.now }
{
    if digits.is_empty() {
        return None;
    }
    if 10 < digits.len() {
        return None;
    }
    if 1 < digits.len() && digits[0] == b'0' {
        return None;
    }
    let mut value: u64 = 0;
    for digit in digits {
        if !digit.is_ascii_digit() {
            return None;
        }
        value = value * 10 + u64::from(digit - b'0');
    }
    u32::try_from(value).ok()
}
