// Blocks of 512 bytes: the check, little-endian numbers, runs of zeros.

#![tactic(auto)]

ghost use Rattle.std.specs.Prelude.{◌≡◌, ◌+◌, ◌≤◌, ◌<◌, ◌%◌, length, take};
ghost use Rattle.block.specs.Bytes.{u16_at, u32_at, signed as signed_of, i16_at, bytes16, bytes32, bits as bits_of, zeros as zeros_of};
ghost use Rattle.block.specs.Block.{sums_of, checked as checked_of, sealed, buffer_with};
ghost use Rattle.block.specs.Columns.{column_sums};

// The two sums of the check.
#[derive(Clone, Copy)]
pub struct Sums {
    pub a: u8,
    pub b: u8,
}

// The 510 bytes under the check as 15 rows of 34: the sum of each column, and the sum of what that sum was before each row.
#[derive(Clone, Copy)]
struct Columns {
    sums: [u16; 34],
    rows: [u16; 34],
}

// The columns are added up side by side, no byte waiting for the one before: the compiler takes many at a time.
fn by_columns(s: &[u8]) -> Columns
    requires { length s.now ≡ 510 }
    ensures { column_sums result ≡ sums_of s.now }
{
    let mut sums = [0u16; 34];
    let mut rows = [0u16; 34];
    for row in 0..15 {
        for j in 0..34 {
            rows[j] += sums[j];
            sums[j] += u16::from(s[34 * row + j]);
        }
    }
    Columns { sums, rows }
}

// The check's sums from those of the columns: a byte is in b 34 times for each row after its own, and once for each column from its own on.
// Both stay small enough for the remainders to be taken once, at the end.
fn add_up(c: Columns) -> Sums
    ensures { result ≡ column_sums c }
{
    let mut a: u32 = 0;
    let mut b: u32 = 0;
    for j in 0..34 {
        a += u32::from(c.sums[j]);
        b += a + 34 * u32::from(c.rows[j]);
    }
    Sums {
        a: (a % 255) as u8,
        b: (b % 255) as u8,
    }
}

// The sums of the 510 bytes of a block that are under its check.
fn check_sums(s: &[u8]) -> Sums
    requires { length s.now ≡ 510 }
    ensures { result ≡ sums_of s.now }
{
    add_up(by_columns(s))
}

// Whether the last two bytes of a block are its check.
pub fn checked(s: &[u8; 512]) -> bool
    ensures { result ≡ checked_of s.now }
{
    let c = check_sums(&s[..510]);
    s[510] == c.a && s[511] == c.b
}

// The block with its check put in.
pub fn seal(mut b: [u8; 512]) -> [u8; 512]
    ensures { result ≡ sealed (take 510 b) }
{
    let c = check_sums(&b[..510]);
    b[510] = c.a;
    b[511] = c.b;
    b
}

// Puts a block at the start of a buffer.
pub fn place(buffer: &mut [u8], b: [u8; 512])
    requires { 512 ≤ length buffer.old }
    ensures { buffer.new ≡ buffer_with buffer.old b }
{
    buffer[..512].copy_from_slice(&b);
}

// Whether every byte is zero, by their sum: all are looked at, many at a time.
pub fn zeros(s: &[u8]) -> bool
    requires { length s.now ≤ 512 }
    ensures { result ≡ zeros_of s.now }
{
    let sum: u32 = s.iter().map(|x| u32::from(*x)).sum();
    sum == 0
}

// The number of two bytes from a place on.
pub fn u16_at(s: &[u8], at: usize) -> u16
    requires { at + 1 < length s.now }
    ensures { result ≡ u16_at s.now at }
{
    u16::from_le_bytes([s[at], s[at + 1]])
}

// The number of four bytes from a place on.
pub fn u32_at(s: &[u8], at: usize) -> u32
    requires { at + 3 < length s.now }
    ensures { result ≡ u32_at s.now at }
{
    u32::from_le_bytes([s[at], s[at + 1], s[at + 2], s[at + 3]])
}

// The signed number whose 16 bits are n.
pub fn signed(n: u16) -> i16
    ensures { result ≡ signed_of n }
{
    n.cast_signed()
}

// The signed number of two bytes from a place on.
pub fn i16_at(s: &[u8], at: usize) -> i16
    requires { at + 1 < length s.now }
    ensures { result ≡ i16_at s.now at }
{
    signed(u16_at(s, at))
}

// The 16 bits of a signed number.
pub fn bits(x: i16) -> u16
    ensures { result ≡ bits_of x }
{
    x.cast_unsigned()
}

// The two bytes of a number.
pub fn bytes_16(n: u16) -> [u8; 2]
    ensures { result ≡ bytes16 n }
{
    n.to_le_bytes()
}

// The four bytes of a number.
pub fn bytes_32(x: u32) -> [u8; 4]
    ensures { result ≡ bytes32 x }
{
    x.to_le_bytes()
}

// The two bytes of a signed number.
pub fn bytes_i16(x: i16) -> [u8; 2]
    ensures { result ≡ bytes16 (bits_of x) }
{
    bytes_16(bits(x))
}
