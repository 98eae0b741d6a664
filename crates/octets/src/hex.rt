// Bytes in hexadecimal, for programs that print them.
ghost use Rattle.std.specs.Prelude.{Some};
ghost use Rattle.octets.specs.Hex.{hex_text};

use std::fmt;

// Two digits for each byte.
#[derive(Clone, Copy)]
pub struct Hex<'a>(pub &'a [u8]);

impl fmt::Display for Hex<'_> {
    ghost output = { λ h. Some (hex_text h.0.now) };

    fn fmt<W: fmt::Write>(&self, f: &mut fmt::Formatter<W>) -> fmt::Result {
        for &byte in self.0 {
            write!(f, "{byte:02x}")?;
        }
        Ok(())
    }
}
