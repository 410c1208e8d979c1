// Numbers and sums over bytes.
ghost use Rattle.std.specs.Prelude.{◌≡◌, ◌+◌, ◌≤◌, ◌==◌, length};
ghost use Rattle.std.specs.List.{list_all};
ghost use Rattle.layout.specs.Layout.{word, long, weighted};

use crate::parts::CHECK_AT;

// The little-endian 16-bit number at `at`.
pub fn u16_at(bytes: &[u8], at: usize) -> u16
    requires { at + 2 ≤ length bytes.now }
    ensures { result ≡ word bytes.now at }
{
    u16::from_le_bytes([bytes[at], bytes[at + 1]])
}

// The little-endian 32-bit number at `at`.
pub fn u32_at(bytes: &[u8], at: usize) -> u32
    requires { at + 4 ≤ length bytes.now }
    ensures { result ≡ long bytes.now at }
{
    u32::from_le_bytes([bytes[at], bytes[at + 1], bytes[at + 2], bytes[at + 3]])
}

// The sum of (i + 1) × byte i.
pub fn weighted_sum(bytes: &[u8]) -> u32
    requires { length bytes.now ≤ CHECK_AT }
    ensures { result ≡ weighted bytes.now 0 (length bytes.now) }
{
    bytes
        .iter()
        .enumerate()
        .map(|(i, &byte)| (i as u32 + 1) * u32::from(byte))
        .sum()
}

// Whether all bytes are zero.
pub fn all_zero(bytes: &[u8]) -> bool
    ensures { result ≡ list_all (λ byte. byte == 0) bytes.now }
{
    bytes.iter().all(|&byte| byte == 0)
}
