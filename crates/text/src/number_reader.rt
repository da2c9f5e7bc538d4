// Numbers in a text: "decimal without leading zeros", 0 to 4,294,967,295.
ghost use Rattle.std.specs.Prelude.{◌≡◌};
ghost use Rattle.text.specs.Numbers.{number};
ghost use Rattle.text.specs.Readings.{value_in};

use byte_classes::{ByteClass, class_of, is_byte};

// The value of digits, leading zeros or not. It stops at the first byte that is no digit, or that takes the value over the maximum: more
// digits never lower it.
fn read_digits(digits: &[u8]) -> Option<u32>
    ensures { result ≡ value_in 0 digits.now }
{
    let mut value: u64 = 0;
    for i in 0..digits.len() {
        let ByteClass::Digit(d) = class_of(digits[i]) else {
            return None;
        };
        value = value * 10 + u64::from(d);
        if 4294967295 < value {
            return None;
        }
    }
    Some(value as u32)
}

// The number reader.
pub fn read_number(digits: &[u8]) -> Option<u32>
    ensures { result ≡ number digits.now }
{
    if digits.is_empty() {
        return None;
    }
    if 1 < digits.len() && is_byte(digits[0], b'0') {
        return None;
    }
    read_digits(digits)
}
