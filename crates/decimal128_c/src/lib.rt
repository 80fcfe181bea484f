// The public operations as C and Rust call them: include/decimal128.h says what each gives and what it leaves alone. Each export
// calls the function of the same name in `decimal128::c` and states its clause again.
#![tactic(auto)]

ghost use Rattle.meaning.specs.Layout.{stored, decode};
ghost use Rattle.meaning.specs.Writing.{write_text, debug_text};
ghost use Rattle.decimal128.specs.Operations.{PutGives, ReadGives, ParseGives, CompareGives};

use decimal128::c;

#[unsafe(no_mangle)]
pub extern "C" fn decimal128_read(text: &[u8], out: &mut [u8; 16], place: &mut usize) -> u32
    ensures { ReadGives text.now result out.new place.new }
{
    c::decimal128_read(text, out, place)
}

#[unsafe(no_mangle)]
pub extern "C" fn decimal128_write(bytes: &[u8; 16], buf: &mut [u8], len: &mut usize) -> u32
    ensures { PutGives (write_text (decode (stored bytes.now))) buf.old result len.new buf.new }
{
    c::decimal128_write(bytes, buf, len)
}

#[unsafe(no_mangle)]
pub extern "C" fn decimal128_debug(bytes: &[u8; 16], buf: &mut [u8], len: &mut usize) -> u32
    ensures { PutGives (debug_text bytes.now) buf.old result len.new buf.new }
{
    c::decimal128_debug(bytes, buf, len)
}

#[unsafe(no_mangle)]
pub extern "C" fn decimal128_parse(bytes: &[u8], out: &mut [u8; 16]) -> u32
    ensures { ParseGives bytes.now result out.new }
{
    c::decimal128_parse(bytes, out)
}

#[unsafe(no_mangle)]
pub extern "C" fn decimal128_compare(a: &[u8; 16], b: &[u8; 16], order: &mut i32) -> u32
    ensures { CompareGives a.now b.now result order.new }
{
    c::decimal128_compare(a, b, order)
}
