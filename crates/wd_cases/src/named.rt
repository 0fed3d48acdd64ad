use crate::escape::unescape;
use crate::failure::Failure;
use std::alloc::Global;

#[derive(Drop)]
struct NamedText {
    name: String,
    text: Vec<u8>,
}

/// Texts under names, such as files.
#[derive(Drop)]
pub struct NamedTexts {
    texts: Vec<NamedText>,
}

impl NamedTexts {
    /// No texts.
    pub fn new(alloc: Global) -> NamedTexts {
        NamedTexts {
            texts: Vec::new(alloc),
        }
    }

    /// `NAME TEXT` is a further text, and without a blank all texts are taken away. Gives how many
    /// there are.
    pub fn set(&mut self, alloc: Global, line: &str) -> Result<usize, Failure> {
        match line.split_once(' ') {
            Some((name, text)) => self.texts.push(named_text(alloc, name, text)?)?,
            None => self.texts.clear(),
        }
        Ok(self.texts.len())
    }

    /// The names and texts.
    pub fn pairs(&self, alloc: Global) -> Result<Vec<(&str, &[u8])>, Failure> {
        let mut pairs = Vec::new(alloc);
        for NamedText { name, text } in &self.texts {
            pairs.push((name.as_str(), text.as_slice()))?;
        }
        Ok(pairs)
    }
}

fn named_text(alloc: Global, name: &str, text: &str) -> Result<NamedText, Failure> {
    let name = String::from_str(alloc, name)?;
    match unescape(alloc, text) {
        Ok(text) => Ok(NamedText { name, text }),
        Err(error) => Err(Failure::from(error)),
    }
}
