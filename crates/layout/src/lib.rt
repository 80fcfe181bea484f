// The 16 stored bytes of a decimal, taken apart and put together.
#![tactic(auto)]

ghost use Rattle.std.specs.Prelude.{◌≡◌, ◌+◌, ◌*◌, ◌/◌, ◌%◌, ◌^◌, ◌<◌, ◌==◌};
ghost use Rattle.meaning.specs.Decimal.{InRange, Decimal};
ghost use Rattle.meaning.specs.Layout.{stored, bytes_of, or_zero, decode, encode, bit_of};
ghost use Rattle.limbs.specs.Value.{value};
ghost use Rattle.layout.specs.Fields.{said, said_by, digits_of, InRange-prop};

#[derive(Clone, Copy, Debug, PartialEq, Eq)]
pub enum Kind {
    Nan { signalling: bool },
    Infinity,
    Finite,
}

// What the bits say. The exponent is the stored field, which is the exponent + 6176. The coefficient stands beside the kind, as
// document 01 has it; a special value has exponent and coefficient 0. That a value is of the format stands in `pack`'s contract and
// not here, since `finite` asks nothing of its caller.
#[derive(Clone, Copy)]
pub struct Fields {
    pub negative: bool,
    pub kind: Kind,
    pub exponent: u32,
    pub coefficient: [u32; 4],
}

// The same of a value of the format, and how many decimal digits its coefficient has, 1 to 34; 1 for zero and for a special value.
#[derive(Clone, Copy)]
pub struct Unpacked {
    pub fields: Fields,
    pub digits: usize,
    ghost ranged: { InRange (said fields) } by { InRange-prop (said fields) },
    ghost counted: { digits ≡ digits_of (said fields) },
}

// A NaN or an infinity.
pub fn special(negative: bool, kind: Kind) -> Fields
    ensures { said result ≡ said_by kind negative 0 0 }
{
    Fields {
        negative,
        kind,
        exponent: 0,
        coefficient: [0, 0, 0, 0],
    }
}

// A finite value.
pub fn finite(negative: bool, exponent: u32, coefficient: [u32; 4]) -> Fields
    ensures { said result ≡ Decimal.finite negative exponent (value coefficient) }
{
    Fields {
        negative,
        kind: Kind::Finite,
        exponent,
        coefficient,
    }
}

// The lower and the upper eight bytes: two names, which say more than one function with a const parameter would.
fn lower(b: [u8; 16]) -> u64
    ensures { result ≡ stored b % 2 ^ 64 }
{
    u64::from_le_bytes([b[0], b[1], b[2], b[3], b[4], b[5], b[6], b[7]])
}

fn upper(b: [u8; 16]) -> u64
    ensures { result ≡ stored b / 2 ^ 64 }
{
    u64::from_le_bytes([b[8], b[9], b[10], b[11], b[12], b[13], b[14], b[15]])
}

// The lower half is loaded as one word; of the upper one the highest limb is needed by itself.
fn words(b: [u8; 16]) -> [u32; 4]
    ensures { value result ≡ stored b }
{
    let low = lower(b);
    [
        (low % 0x1_0000_0000) as u32,
        (low / 0x1_0000_0000) as u32,
        u32::from_le_bytes([b[8], b[9], b[10], b[11]]),
        u32::from_le_bytes([b[12], b[13], b[14], b[15]]),
    ]
}

// The same 16 bytes. They are lent, so that each half is loaded where it is compared: by value every pair pays five instructions,
// and by `a == b` every pair that differs pays four.
pub fn same(a: &[u8; 16], b: &[u8; 16]) -> bool
    ensures { result ≡ (stored a.now == stored b.now) }
{
    lower(*a) == lower(*b) && upper(*a) == upper(*b)
}

// A coefficient above 10^34 - 1 reads as zero.
fn or_zero(c: [u32; 4]) -> [u32; 4]
    ensures { value result ≡ or_zero (value c) }
{
    if limbs::powers::within(c) {
        c
    } else {
        [0, 0, 0, 0]
    }
}

// Where the second finite form, infinity and NaN begin, in the highest limb without its sign bit.
const SECOND_FORM: u32 = 0x6000_0000;

const INFINITY: u32 = 0x7800_0000;

const NAN: u32 = 0x7c00_0000;

// The first finite form is by far the commonest, and is tested first. `rest` is the highest limb without its sign bit.
fn fields_of_words(w: [u32; 4]) -> Fields
    ensures { said result ≡ decode (value w) }
{
    let top = w[3];
    let negative = 0x8000_0000 <= top;
    let rest = top % 0x8000_0000;
    if rest < SECOND_FORM {
        let c = [w[0], w[1], w[2], rest % 0x2_0000];
        return finite(negative, rest / 0x2_0000, or_zero(c));
    }
    if rest < INFINITY {
        return finite(negative, rest / 0x8000 % 0x4000, [0, 0, 0, 0]);
    }
    if rest < NAN {
        return special(negative, Kind::Infinity);
    }
    special(
        negative,
        Kind::Nan {
            signalling: 0x7e00_0000 <= rest,
        },
    )
}

// What 16 bytes say, with nothing counted.
pub fn fields_of(b: [u8; 16]) -> Fields
    ensures { said result ≡ decode (stored b) }
{
    fields_of_words(words(b))
}

// What has no coefficient has one digit, as zero has.
fn digits_of(f: Fields) -> usize
    requires { InRange (said f) }
    ensures { result ≡ digits_of (said f) }
{
    match f.kind {
        Kind::Nan { .. } | Kind::Infinity => 1,
        Kind::Finite => limbs::count::digits(f.coefficient),
    }
}

// The value of 16 bytes.
pub fn unpack(b: [u8; 16]) -> Unpacked
    ensures { said result.fields ≡ decode (stored b) }
{
    let fields = fields_of(b);
    Unpacked {
        fields,
        digits: digits_of(fields),
    }
}

// The bytes of four limbs, lowest first. The library joins no arrays without a heap, and four copies into
// parts of a zeroed array would be no shorter.
fn bytes_of(w: [u32; 4]) -> [u8; 16]
    ensures { result ≡ bytes_of 16 (value w) }
{
    let [b0, b1, b2, b3] = w[0].to_le_bytes();
    let [b4, b5, b6, b7] = w[1].to_le_bytes();
    let [b8, b9, b10, b11] = w[2].to_le_bytes();
    let [b12, b13, b14, b15] = w[3].to_le_bytes();
    [
        b0, b1, b2, b3, b4, b5, b6, b7, b8, b9, b10, b11, b12, b13, b14, b15,
    ]
}

// The highest limb of a NaN.
fn nan_top(negative: bool, signalling: bool) -> u32
    ensures { result ≡ bit_of negative * 2 ^ 31 + 31 * 2 ^ 26 + bit_of signalling * 2 ^ 25 }
{
    negative as u32 * 0x8000_0000 + 0x7c00_0000 + signalling as u32 * 0x200_0000
}

// That of an infinity.
fn infinity_top(negative: bool) -> u32
    ensures { result ≡ bit_of negative * 2 ^ 31 + 30 * 2 ^ 26 }
{
    negative as u32 * 0x8000_0000 + 0x7800_0000
}

// That of a finite value, whose coefficient has `high` there.
fn finite_top(negative: bool, exponent: u32, high: u32) -> u32
    requires { (exponent < 2 ^ 14) × (high < 2 ^ 17) }
    ensures { result ≡ bit_of negative * 2 ^ 31 + exponent * 2 ^ 17 + high }
{
    negative as u32 * 0x8000_0000 + exponent * 0x2_0000 + high
}

fn pack_words(f: Fields) -> [u32; 4]
    requires { InRange (said f) }
    ensures { value result ≡ encode (said f) }
{
    match f.kind {
        Kind::Nan { signalling } => [0, 0, 0, nan_top(f.negative, signalling)],
        Kind::Infinity => [0, 0, 0, infinity_top(f.negative)],
        Kind::Finite => {
            let c = f.coefficient;
            [c[0], c[1], c[2], finite_top(f.negative, f.exponent, c[3])]
        }
    }
}

// Always the first finite form; what is not said is zero.
pub fn pack(f: Fields) -> [u8; 16]
    requires { InRange (said f) }
    ensures { result ≡ bytes_of 16 (encode (said f)) }
{
    bytes_of(pack_words(f))
}
