//! Ethernet addresses.

ghost use Rattle.std.specs.Prelude.{◌≡◌, ◌<◌, ◌^◌, ◌++◌, MatchResult, IfSome, IfErr, Ok, Err, OnOk, OnErr};
ghost use Rattle.vtep_base.specs.Reading.{IsLongestFront};
ghost use Rattle.vtep_base.specs.Addresses.{be, be_bytes, hex_value, hex_digit, pair_text, read_mac, mac_of, mac_text, is_group};

use crate::answers::OutOfMemory;
use crate::lists::Bytes;
use crate::reading::{Front, TextFault, read};
use std::marker::Model;

/// The value of a hexadecimal digit of either case.
fn hex_value(byte: u8) -> Option<u8>
    ensures value { result ≡ hex_value byte }
    ensures within { IfSome result (λ v. v < 16) }
{
    match byte {
        b'0'..=b'9' => Some(byte - b'0'),
        b'a'..=b'f' => Some(byte - b'a' + 10),
        b'A'..=b'F' => Some(byte - b'A' + 10),
        _ => None,
    }
}

/// The hexadecimal digit of a value, in lower case.
fn hex_digit(value: u8) -> u8
    requires { value < 16 }
    ensures { result ≡ hex_digit value }
{
    if value < 10 {
        b'0' + value
    } else {
        b'a' + (value - 10)
    }
}

/// The two hexadecimal digits of a byte.
fn pair(byte: u8) -> [u8; 2]
    ensures { result ≡ pair_text byte }
{
    [hex_digit(byte / 16), hex_digit(byte % 16)]
}

/// An Ethernet address. Contracts see it as the number of its 48 bits, the first byte highest.
#[derive(Clone, Copy, Debug, PartialEq, Eq, PartialOrd, Ord)]
pub struct Mac {
    number: u64,
}

impl Model for Mac {
    ghost use Rattle.std.specs.Prelude.{ℕ, ◌<◌, ◌^◌};

    ghost Value = { ℕ };

    ghost view = { λ m. m.number };

    ghost invariant = { λ m. m.number < 2 ^ 48 };

    ghost inverse = { λ n. record { number = n } };
}

/// An address as far as it is read: how many bytes of its text are left, and the number of the digits so far.
#[derive(Clone, Copy)]
pub struct Pairs {
    left: u8,
    number: u64,
}

impl Model for Pairs {
    ghost use Rattle.std.specs.Prelude.{ℕ};
    ghost use Rattle.vtep_base.specs.PairCells.{IsRead};

    ghost Value = { ℕ × ℕ };

    ghost view = { λ p. (p.left, p.number) };

    ghost invariant = { IsRead };

    ghost inverse = { λ v. record { left = v.0; number = v.1 } };
}

impl Front for Pairs {
    ghost use Rattle.vtep_base.specs.Addresses.{mac_step, mac_done};

    type Value = Mac;

    ghost step = { mac_step };

    ghost done = { mac_done };

    fn step(self, byte: u8) -> Option<Pairs> {
        if self.left == 0 {
            return None;
        }
        let left = self.left - 1;
        if self.left % 3 == 0 {
            let number = self.number;
            return if byte == b':' {
                Some(Pairs { left, number })
            } else {
                None
            };
        }
        let digit = hex_value(byte)?;
        Some(Pairs {
            left,
            number: 16 * self.number + u64::from(digit),
        })
    }

    fn done(self) -> Option<Mac> {
        if self.left == 0 {
            Some(Mac {
                number: self.number,
            })
        } else {
            None
        }
    }
}

impl Mac {
    /// The address with these bytes.
    pub fn from_bytes(bytes: [u8; 6]) -> Mac
        ensures { result ≡ be bytes }
    {
        let [a, b, c, d, e, f] = bytes;
        Mac {
            number: u64::from_be_bytes([0, 0, a, b, c, d, e, f]),
        }
    }

    /// The bytes of the address.
    pub fn bytes(self) -> [u8; 6]
        ensures value { result ≡ be_bytes 6 self }
        ensures back { be result ≡ self }
    {
        let [_, _, a, b, c, d, e, f] = self.number.to_be_bytes();
        [a, b, c, d, e, f]
    }

    /// Whether the address is that of a group: the lowest bit of its first byte is set.
    pub fn is_group(self) -> bool
        ensures { result ≡ is_group self }
    {
        self.number / (1 << 40) % 2 == 1
    }

    /// Reads six pairs of hexadecimal digits of either case, joined by `:`.
    pub fn parse(text: &[u8]) -> Result<Mac, TextFault>
        ensures value { MatchResult result (λ m. read_mac text.now ≡ Ok m)
            (λ f. read_mac text.now ≡ Err f.offset) }
        ensures longest { IfErr result (λ f. IsLongestFront mac_of text.now f.offset) }
    {
        let front = Pairs {
            left: 17,
            number: 0,
        };
        read(front, text)
    }

    /// The text of the address, in lower case.
    fn text(self) -> [u8; 17]
        ensures { result ≡ mac_text self }
    {
        let [a, b, c, d, e, f] = self.bytes();
        let [[a, g], [b, h], [c, i], [d, j], [e, k], [f, l]] = [
            pair(a),
            pair(b),
            pair(c),
            pair(d),
            pair(e),
            pair(f),
        ];
        [
            a, g, b':', b, h, b':', c, i, b':', d, j, b':', e, k, b':', f, l,
        ]
    }

    /// Appends the address in lower case.
    pub fn print(&self, out: &mut Bytes) -> Result<(), OutOfMemory>
        ensures ok { OnOk result (out.new ≡ out.old ++ mac_text self.now) }
        ensures err { OnErr result (out.new ≡ out.old) }
    {
        out.append(&self.text())
    }
}
