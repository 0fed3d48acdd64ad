use wd_value::Text;

/// A name as it is written: a word that is not reserved, or a name in quotes. These two always differ, since a name in quotes is no key
/// word.
#[derive(Drop)]
pub struct Name {
    pub text: Text,
    pub quoted: bool,
}
