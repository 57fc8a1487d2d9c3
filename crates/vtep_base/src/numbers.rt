//! Addresses and numbers of networks.

ghost use Rattle.std.specs.Prelude.{◌≡◌, ◌≤◌, ◌<◌, ◌^◌, ◌++◌, MatchResult, Ok, Err, IfSome, IfOk, IfErr, OnOk, OnErr, decimal};
ghost use Rattle.vtep_base.specs.Reading.{IsLongestFront};
ghost use Rattle.vtep_base.specs.Texts.{digit_after, read_number, number_upto, read_ipv4, ipv4_of, ipv4_text, vni_of, vlan_of};

use crate::answers::OutOfMemory;
use crate::lists::Bytes;
use crate::reading::{Front, TextFault, read};
use itoa::Buffer;
use std::marker::Model;

/// The value of decimal digits and one more, where a number up to `most` begins so.
fn digit_after(most: u32, value: Option<u32>, byte: u8) -> Option<u32>
    ensures value { result ≡ digit_after most value byte }
    ensures within { IfSome result (λ v. v ≤ most) }
{
    if !byte.is_ascii_digit() {
        return None;
    }
    let digit = u64::from(byte - b'0');
    let number = match value {
        None => digit,
        Some(0) => return None,
        Some(value) => 10 * u64::from(value) + digit,
    };
    if number > u64::from(most) {
        return None;
    }
    Some(number as u32)
}

/// A decimal number up to `most` as far as it is read.
#[derive(Clone, Copy)]
pub struct Number {
    most: u32,
    value: Option<u32>,
}

impl Front for Number {
    ghost use Rattle.vtep_base.specs.Texts.{number_step, number_done};

    type Value = u32;

    ghost step = { number_step };

    ghost done = { number_done };

    fn step(self, byte: u8) -> Option<Number> {
        let value = digit_after(self.most, self.value, byte)?;
        Some(Number {
            most: self.most,
            value: Some(value),
        })
    }

    fn done(self) -> Option<u32> {
        self.value
    }
}

/// Reads a decimal number up to `most`, without a needless leading zero.
pub fn parse_number(text: &[u8], most: u32) -> Result<u32, TextFault>
    ensures value { MatchResult result (λ n. read_number most text.now ≡ Ok n)
        (λ f. read_number most text.now ≡ Err f.offset) }
    ensures longest { IfErr result (λ f. IsLongestFront (number_upto most) text.now f.offset) }
    ensures within { IfOk result (λ n. n ≤ most) }
{
    read(Number { most, value: None }, text)
}

/// The finished octets of an address as far as it is read.
#[derive(Clone, Copy)]
pub enum Octets {
    Zero,
    One(u8),
    Two(u8, u8),
    Three(u8, u8, u8),
}

/// An address as far as it is read.
#[derive(Clone, Copy)]
pub struct Dotted {
    finished: Octets,
    octet: Option<u8>,
}

impl Front for Dotted {
    ghost use Rattle.vtep_base.specs.Texts.{dotted_step, dotted_done};

    type Value = u32;

    ghost step = { dotted_step };

    ghost done = { dotted_done };

    fn step(self, byte: u8) -> Option<Dotted> {
        if byte == b'.' {
            let finished = match (self.finished, self.octet?) {
                (Octets::Zero, a) => Octets::One(a),
                (Octets::One(a), b) => Octets::Two(a, b),
                (Octets::Two(a, b), c) => Octets::Three(a, b, c),
                (Octets::Three(..), _) => return None,
            };
            return Some(Dotted {
                finished,
                octet: None,
            });
        }
        let octet = digit_after(255, self.octet.map(u32::from), byte)?;
        Some(Dotted {
            finished: self.finished,
            octet: Some(octet as u8),
        })
    }

    fn done(self) -> Option<u32> {
        match (self.finished, self.octet) {
            (Octets::Three(a, b, c), Some(d)) => Some(u32::from_be_bytes([a, b, c, d])),
            _ => None,
        }
    }
}

/// Reads the 32 bits of dotted decimal.
fn parse_bits(text: &[u8]) -> Result<u32, TextFault>
    ensures value { MatchResult result (λ ip. read_ipv4 text.now ≡ Ok ip)
        (λ f. read_ipv4 text.now ≡ Err f.offset) }
    ensures longest { IfErr result (λ f. IsLongestFront ipv4_of text.now f.offset) }
{
    let front = Dotted {
        finished: Octets::Zero,
        octet: None,
    };
    read(front, text)
}

/// An IPv4 address.
#[derive(Clone, Copy, Debug, PartialEq, Eq, PartialOrd, Ord)]
pub struct Ipv4 {
    bits: u32,
}

impl Model for Ipv4 {
    ghost use Rattle.std.specs.Prelude.{ℕ};

    ghost Value = { ℕ };

    ghost view = { λ i. i.bits };

    ghost inverse = { λ n. record { bits = n } };
}

impl Ipv4 {
    /// The address with these 32 bits.
    pub fn from_bits(bits: u32) -> Ipv4
        ensures { result ≡ bits }
    {
        Ipv4 { bits }
    }

    /// The 32 bits of the address.
    pub fn bits(self) -> u32
        ensures value { result ≡ self }
        ensures fits { result < 2 ^ 32 }
    {
        self.bits
    }

    /// Reads dotted decimal.
    pub fn parse(text: &[u8]) -> Result<Ipv4, TextFault>
        ensures value { MatchResult result (λ ip. read_ipv4 text.now ≡ Ok ip)
            (λ f. read_ipv4 text.now ≡ Err f.offset) }
        ensures longest { IfErr result (λ f. IsLongestFront ipv4_of text.now f.offset) }
    {
        let bits = parse_bits(text)?;
        Ok(Ipv4 { bits })
    }

    /// Appends the address in dotted decimal.
    pub fn print(&self, out: &mut Bytes) -> Result<(), OutOfMemory>
        ensures ok { OnOk result (out.new ≡ out.old ++ ipv4_text self.now) }
        ensures err { OnErr result (out.new ≡ out.old) }
    {
        let mut first = Buffer::new();
        let mut second = Buffer::new();
        let mut third = Buffer::new();
        let mut fourth = Buffer::new();
        out.append_all(&[
            first.format(self.bits / (1 << 24)).as_bytes(),
            b".",
            second.format(self.bits / (1 << 16) % 256).as_bytes(),
            b".",
            third.format(self.bits / (1 << 8) % 256).as_bytes(),
            b".",
            fourth.format(self.bits % 256).as_bytes(),
        ])
    }
}

/// The number of a VXLAN network (RFC 7348): 0 to 16777215.
#[derive(Clone, Copy, Debug, PartialEq, Eq, PartialOrd, Ord)]
pub struct Vni {
    number: u32,
}

impl Model for Vni {
    ghost use Rattle.std.specs.Prelude.{ℕ, ◌<◌, ◌^◌};

    ghost Value = { ℕ };

    ghost view = { λ v. v.number };

    ghost invariant = { λ v. v.number < 2 ^ 24 };

    ghost inverse = { λ n. record { number = n } };
}

/// The number of a VLAN (IEEE 802.1Q): 0 to 4095.
#[derive(Clone, Copy, Debug, PartialEq, Eq, PartialOrd, Ord)]
pub struct Vlan {
    number: u16,
}

impl Model for Vlan {
    ghost use Rattle.std.specs.Prelude.{ℕ, ◌<◌, ◌^◌};

    ghost Value = { ℕ };

    ghost view = { λ v. v.number };

    ghost invariant = { λ v. v.number < 2 ^ 12 };

    ghost inverse = { λ n. record { number = n } };
}

impl Vni {
    /// The network with this number.
    pub fn new(number: u32) -> Vni
        requires { number < 2 ^ 24 }
        ensures { result ≡ number }
    {
        Vni { number }
    }

    /// The number, below 2^24.
    pub fn number(self) -> u32
        ensures value { result ≡ self }
        ensures fits { result < 2 ^ 24 }
    {
        self.number
    }

    /// Reads a decimal number up to 16777215.
    pub fn parse(text: &[u8]) -> Result<Vni, TextFault>
        ensures value { MatchResult result (λ v. read_number 16777215 text.now ≡ Ok v)
            (λ f. read_number 16777215 text.now ≡ Err f.offset) }
        ensures longest { IfErr result (λ f. IsLongestFront vni_of text.now f.offset) }
    {
        let number = parse_number(text, 16_777_215)?;
        Ok(Vni { number })
    }

    /// Appends the number in decimal.
    pub fn print(&self, out: &mut Bytes) -> Result<(), OutOfMemory>
        ensures ok { OnOk result (out.new ≡ out.old ++ decimal self.now) }
        ensures err { OnErr result (out.new ≡ out.old) }
    {
        let mut buffer = Buffer::new();
        out.append(buffer.format(self.number).as_bytes())
    }
}

impl Vlan {
    /// The VLAN with this number.
    pub fn new(number: u16) -> Vlan
        requires { number < 2 ^ 12 }
        ensures { result ≡ number }
    {
        Vlan { number }
    }

    /// The number, below 2^12.
    pub fn number(self) -> u16
        ensures value { result ≡ self }
        ensures fits { result < 2 ^ 12 }
    {
        self.number
    }

    /// Reads a decimal number up to 4095.
    pub fn parse(text: &[u8]) -> Result<Vlan, TextFault>
        ensures value { MatchResult result (λ v. read_number 4095 text.now ≡ Ok v)
            (λ f. read_number 4095 text.now ≡ Err f.offset) }
        ensures longest { IfErr result (λ f. IsLongestFront vlan_of text.now f.offset) }
    {
        let number = parse_number(text, 4095)?;
        Ok(Vlan {
            number: number as u16,
        })
    }

    /// Appends the number in decimal.
    pub fn print(&self, out: &mut Bytes) -> Result<(), OutOfMemory>
        ensures ok { OnOk result (out.new ≡ out.old ++ decimal self.now) }
        ensures err { OnErr result (out.new ≡ out.old) }
    {
        let mut buffer = Buffer::new();
        out.append(buffer.format(self.number).as_bytes())
    }
}
