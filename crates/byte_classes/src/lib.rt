// What kind of byte stands in a text (02, U7): told by ranges, without a table.
#![tactic(auto)]

ghost use Rattle.std.specs.Prelude.{◌≡◌, eqb};
ghost use Rattle.byte_classes.specs.Classes.{class_of};
ghost use Rattle.byte_classes.specs.Codes.{code_of};

// The first code of a class of several bytes.
const SEVERAL: u8 = 13;

// "digit, lower-case letter, comma, equals sign, line end or other". A digit comes with its value, so that no reader takes it from the byte.
#[derive(Clone, Copy, Debug, PartialEq, Eq)]
pub enum ByteClass {
    Digit(u8),
    Letter,
    Comma,
    Equals,
    LineEnd,
    Other,
}

pub fn class_of(b: u8) -> ByteClass
    ensures { result ≡ class_of b }
{
    match b {
        b'0'..=b'9' => ByteClass::Digit(b - b'0'),
        b'a'..=b'z' => ByteClass::Letter,
        b',' => ByteClass::Comma,
        b'=' => ByteClass::Equals,
        b'\n' => ByteClass::LineEnd,
        _ => ByteClass::Other,
    }
}

// A class as a number: a digit is its value, and the classes of several bytes come last.
fn code_of(class: ByteClass) -> u8
    ensures { result ≡ code_of class }
{
    match class {
        ByteClass::Digit(value) => value,
        ByteClass::Letter => SEVERAL,
        ByteClass::Comma => 10,
        ByteClass::Equals => 11,
        ByteClass::LineEnd => 12,
        ByteClass::Other => 14,
    }
}

// A byte is the one asked for: a digit by its value, comma, equals sign and line end by their classes, which have one byte each. Only letters
// and other bytes are compared themselves.
pub fn is_byte(b: u8, asked: u8) -> bool
    ensures { result ≡ eqb b asked }
{
    let code = code_of(class_of(asked));
    if code < SEVERAL {
        code_of(class_of(b)) == code
    } else {
        b == asked
    }
}
