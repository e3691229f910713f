//! A page is written from a blank one on, and copied out.

ghost use Rattle.std.specs.Prelude.{◌≡◌, [], ◌++◌, length, decimal};
ghost use Rattle.field.specs.Refusals.{by_number};
ghost use Rattle.page.specs.Pages.{fitted, text, HasRoom};
ghost use Rattle.reckoning.specs.Lists.{answer, leaves};
ghost use Rattle.std.specs.Fmt.{signed_decimal};

use crate::page::Page;
use arrayvec::ArrayVec;
use field::Refusal;
use itoa::Buffer;

impl Page {
    /// A page with no text.
    pub fn blank() -> Page
        ensures { text result ≡ [] }
    {
        Page {
            bytes: ArrayVec::new(),
        }
    }

    /// What was added so far.
    pub fn text(&self) -> &[u8]
        ensures { result.now ≡ text self.now }
    {
        self.bytes.as_slice()
    }

    /// Adds bytes at the end of the text.
    pub fn add(&mut self, bytes: &[u8])
        requires { HasRoom self.old bytes.now }
        ensures { text self.new ≡ text self.old ++ bytes.now }
    {
        self.bytes.try_extend_from_slice(bytes).unwrap();
    }

    /// Adds a number in decimal.
    pub fn add_decimal(&mut self, n: u64)
        requires { HasRoom self.old (decimal n) }
        ensures { text self.new ≡ text self.old ++ decimal n }
    {
        self.add(Buffer::new().format(n).as_bytes());
    }

    /// Adds a signed number in decimal, with `-` for minus.
    // The same line at another type: a generic function for both would be no shorter.
    pub fn add_signed(&mut self, z: i64)
        requires { HasRoom self.old (signed_decimal z) }
        ensures { text self.new ≡ text self.old ++ signed_decimal z }
    {
        self.add(Buffer::new().format(z).as_bytes());
    }

    /// Copies the text to the beginning of a list, and answers its length.
    pub fn copy_to(&self, list: &mut [u8]) -> Result<usize, Refusal>
        ensures answer { by_number result ≡ answer (fitted (text self.now) (length list.old)) }
        ensures list { list.new ≡ leaves (fitted (text self.now) (length list.old)) list.old }
    {
        let text = self.text();
        if list.len() < text.len() {
            return Err(Refusal::ListTooShort);
        }
        list[..text.len()].copy_from_slice(text);
        Ok(text.len())
    }
}
