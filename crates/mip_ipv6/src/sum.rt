ghost use Rattle.std.specs.Prelude.{◌≡◌, ◌+◌, ◌*◌, ◌%◌, ◌≤◌, length, IsTrue};
ghost use Rattle.mip_words.specs.Addresses.{address_bytes};
ghost use Rattle.mip_words.specs.Numbers.{number_bytes};
ghost use Rattle.mip_ipv6.specs.Sum.{word_sum, pseudo_header, is_right_sum, with_number_at, folded, checksum_of};

use mip_words::{Address, u64_at};

/// The sum of the four words in eight bytes, which are read as one number.
fn sum_of_eight(bytes: &[u8]) -> u64
    requires { length bytes.now ≡ 8 }
    ensures value { result ≡ word_sum bytes.now }
    ensures small { result ≤ 65535 * 8 }
{
    let number = u64_at(bytes, 0);
    number / 0x1_0000_0000_0000
        + number / 0x1_0000_0000 % 0x1_0000
        + number / 0x1_0000 % 0x1_0000
        + number % 0x1_0000
}

/// The plain sum of the 16-bit words.
#[tactic(auto, using(crate::proofs::Sums::word_sum_front))]
fn sum_of(bytes: &[u8]) -> u64
    requires { length bytes.now ≤ 65535 }
    ensures value { result ≡ word_sum bytes.now }
    ensures small { result ≤ 65535 * length bytes.now }
{
    let mut sum = 0u64;
    let mut rest = bytes;
    while rest.len() >= 8 {
        let (eight, after) = rest.split_at(8);
        sum += sum_of_eight(eight);
        rest = after;
    }
    sum + sum_of_few(rest)
}

/// The same a word at a time.
#[tactic(auto, using(crate::proofs::Sums::word_sum_two, crate::proofs::Sums::word_sum_one, crate::proofs::Sums::word_sum_none))]
fn sum_of_few(bytes: &[u8]) -> u64
    requires { length bytes.now ≤ 65535 }
    ensures value { result ≡ word_sum bytes.now }
    ensures small { result ≤ 65535 * length bytes.now }
{
    let mut sum = 0u64;
    let mut rest = bytes;
    while rest.len() >= 2 {
        let (pair, after) = rest.split_at(2);
        sum += u64::from(pair[0]) * 256 + u64::from(pair[1]);
        rest = after;
    }
    match rest.first() {
        Some(last) => sum + u64::from(*last) * 256,
        None => sum,
    }
}

/// The sum of the words of an address.
#[tactic(auto, using(crate::proofs::Sums::word_sum_front))]
fn address_sum(address: Address) -> u64
    ensures value { result ≡ word_sum (address_bytes address) }
    ensures small { result ≤ 65535 * 16 }
{
    let bytes = address.bytes();
    let (front, back) = bytes.split_at(8);
    sum_of_eight(front) + sum_of_eight(back)
}

/// The sum of the two words of a number.
#[tactic(auto, using(crate::proofs::Sums::word_sum_number))]
fn number_sum(number: u32) -> u64
    ensures value { result ≡ word_sum (number_bytes 4 number) }
    ensures small { result ≤ 65535 * 2 }
{
    u64::from(number / 0x1_0000 + number % 0x1_0000)
}

/// The sum of the pseudo-header.
#[tactic(auto, using(crate::proofs::Sums::pseudo_header_is))]
fn pseudo_sum(source: Address, destination: Address, size: u32, proto: u8) -> u64
    ensures value { result ≡ word_sum (pseudo_header source destination size proto) }
    ensures small { result ≤ 40 * 65535 }
{
    address_sum(source) + address_sum(destination) + number_sum(size) + number_sum(u32::from(proto))
}

/// The sum of the body with zero in its checksum's field.
#[tactic(auto, using(crate::proofs::Sums::zeroed_is))]
fn zeroed_sum(body: &[u8], at: usize) -> u64
    requires even { at % 2 ≡ 0 }
    requires inside { at + 2 ≤ length body.now }
    requires fits { length body.now ≤ 65535 }
    ensures value { result ≡ word_sum (with_number_at at 0 body.now) }
    ensures small { result ≤ 65535 * 65535 }
{
    let (front, rest) = body.split_at(at);
    let (_, back) = rest.split_at(2);
    sum_of(front) + sum_of(back)
}

/// The sum folded to 16 bits.
fn fold(sum: u64) -> u16
    ensures { result ≡ folded sum }
{
    if sum == 0 {
        0
    } else {
        ((sum - 1) % 65535 + 1) as u16
    }
}

/// The checksum of a body: what has to stand in the two bytes at `at`, which count as zero here.
#[tactic(auto, using(crate::proofs::Sums::checksum_is, crate::proofs::Sums::checksum_whole))]
pub fn checksum(source: Address, destination: Address, proto: u8, body: &[u8], at: usize) -> u16
    requires even { at % 2 ≡ 0 }
    requires inside { at + 2 ≤ length body.now }
    requires fits { length body.now ≤ 65535 }
    ensures value { result ≡ checksum_of source destination proto body.now at }
    ensures whole { IsTrue (is_right_sum source destination proto (with_number_at at result body.now)) }
{
    let size = body.len() as u32;
    u16::MAX - fold(pseudo_sum(source, destination, size, proto) + zeroed_sum(body, at))
}

/// Whether the checksum in a body holds.
#[tactic(auto, unfolding(crate::specs::Sum::message_sum), using(crate::proofs::Sums::message_sum_is))]
pub fn checksum_holds(source: Address, destination: Address, proto: u8, body: &[u8]) -> bool
    requires { length body.now ≤ 65535 }
    ensures { result ≡ is_right_sum source destination proto body.now }
{
    let size = body.len() as u32;
    (pseudo_sum(source, destination, size, proto) + sum_of(body)) % 65535 == 0
}
