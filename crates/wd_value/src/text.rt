ghost use Rattle.std.specs.Prelude.{◌≡◌, ℕ, List, IfOk, IfErr};
ghost use Rattle.std.specs.String.{string_bytes};

use std::alloc::{AllocError, Global};
use std::marker::Model;
use std::rc::Rc;

/// A text in UTF-8, which contracts see as the list of its bytes. A copy shares the bytes of the original. A text is one pointer wide, so
/// that a `Value` takes 16 bytes.
#[derive(Debug, Drop)]
pub struct Text {
    string: Rc<String>,
}

impl Model for Text {
    ghost Value = { List ℕ };

    ghost view = { λ t. string_bytes t.string.value };
}

impl Text {
    /// The text of a string; its bytes are not copied.
    pub fn new(alloc: Global, string: String) -> Result<Text, AllocError>
        ensures { IfOk result (λ t. t ≡ string_bytes string) }
    {
        let string = Rc::new(alloc, string)?;
        Ok(Text { string })
    }

    pub fn from_str(alloc: Global, text: &str) -> Result<Text, AllocError>
        ensures { IfOk result (λ t. t ≡ text.now) }
    {
        let string = String::from_str(alloc, text)?;
        Text::new(alloc, string)
    }

    pub fn as_str(&self) -> &str
        ensures { result.now ≡ self.now }
    {
        self.string.as_str()
    }

    pub fn as_bytes(&self) -> &[u8]
        ensures { result.now ≡ self.now }
    {
        self.string.as_bytes()
    }

    /// The string of the text, or the text itself where a copy of it still exists. Takes no memory.
    pub fn into_string(self) -> Result<String, Text>
        ensures ok { IfOk result (λ s. string_bytes s ≡ self) }
        ensures err { IfErr result (λ t. t ≡ self) }
    {
        let Text { string } = self;
        match Rc::try_unwrap(string) {
            Ok(string) => Ok(string),
            Err(string) => Err(Text { string }),
        }
    }

    /// An equal text, which shares the bytes. An error only where no further copy can be counted.
    pub fn copy(&self) -> Result<Text, AllocError>
        ensures { IfOk result (λ t. t ≡ self.now) }
    {
        let string = self.string.clone()?;
        Ok(Text { string })
    }
}
