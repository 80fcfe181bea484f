// The larger of two texts as C and Rust call it: include/decimal128.h says what it gives. The export calls the function of the
// same name in `larger` and states its clause again.
#![tactic(auto)]

ghost use Rattle.larger.specs.Part.{LargerAllows};

#[unsafe(no_mangle)]
pub extern "C" fn decimal128_larger<'a>(a: &'a [u8], b: &'a [u8], part: &mut &'a [u8])
    ensures { LargerAllows a.entry b.entry part.new }
{
    larger::decimal128_larger(a, b, part)
}
