// Bytes, as the programs print them.
ghost use Rattle.std.specs.Prelude.{Some};
ghost use Rattle.cases.specs.Shown.{bytes_text};

use octets::Hex;
use std::fmt;

// In hexadecimal, and `empty` where there are none.
#[derive(Clone, Copy)]
pub struct Bytes<'a>(pub &'a [u8]);

impl fmt::Display for Bytes<'_> {
    ghost output = { λ b. Some (bytes_text b.0.now) };

    fn fmt<W: fmt::Write>(&self, f: &mut fmt::Formatter<W>) -> fmt::Result {
        if self.0.is_empty() {
            return write!(f, "empty");
        }
        write!(f, "{}", Hex(self.0))
    }
}
