// An altitude put into a lent output at a place of it. It has room there as a whole, or nothing changes.
#![tactic(auto)]

ghost use Rattle.rules.specs.Promises.{AltitudePut};

use rules::Height;

// Five digits, or a minus and four digits.
pub fn altitude(out: &mut [u8], at: usize, h: Height)
    ensures { AltitudePut h at out.old out.new }
{
    if out.len() < at || out.len() - at < 5 {
        return;
    }
    let metres = rules_values::magnitude(h);
    if rules_values::has_no_minus(h) {
        byte_put::digits(out, at, 5, metres);
        return;
    }
    byte_put::byte(out, at, b'-');
    byte_put::digits(out, at + 1, 4, metres);
}
