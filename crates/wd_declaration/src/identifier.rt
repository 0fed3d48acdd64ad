//! Names of tables and columns.

ghost use Rattle.std.specs.Prelude.{◌≡◌, ◌<◌, length, [], IfOk, IfSome, IfNone};

use std::alloc::AllocError;
use wd_value::Text;

/// The name of a table or a column. It is not empty.
#[derive(Drop)]
pub struct Identifier {
    pub text: Text,
    ghost some: { 0 < length text },
}

impl Identifier {
    /// The name with these bytes, if there are any.
    pub fn new(text: Text) -> Option<Identifier>
        ensures found { IfSome result (λ name. name.text ≡ text) }
        ensures none { IfNone result (text ≡ []) }
    {
        if text.as_str().is_empty() {
            return None;
        }
        Some(Identifier { text })
    }

    /// An equal name. The bytes are not copied.
    pub fn copy(&self) -> Result<Identifier, AllocError>
        ensures { IfOk result (λ name. name.text ≡ self.now.text) }
    {
        let text = self.text.copy()?;
        Ok(Identifier { text })
    }
}
