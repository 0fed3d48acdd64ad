//! A page while it is written.

ghost use Rattle.std.specs.Prelude.{◌≡◌, ℕ, ◌++◌, List, [], codes, IfOk, OnErr, OnOk, string_bytes};
ghost use Rattle.wd_markup.specs.Escapes.{escaped};
ghost use Rattle.wd_markup.specs.Pages.{IsPage, shown_piece};
ghost use Rattle.wd_markup.specs.Pages as piece;

use crate::escape;
use crate::style::{BEGIN, END};
use crate::vocabulary::{Class, Tag, class_words, tag_name};
use std::alloc::{AllocError, Global};
use std::fmt::Write;
use std::marker::Model;

/// A page while it is written, which contracts see as its bytes so far: all of them are tags or escaped texts. Where memory runs out in a
/// call, the page is unchanged.
#[derive(Drop)]
pub struct Page {
    alloc: Global,
    html: String,
}

impl Model for Page {
    ghost Value = { List ℕ };

    ghost view = { λ p. string_bytes p.html };

    ghost invariant = { λ p. IsPage (string_bytes p.html) };
}

impl Page {
    /// An empty page.
    pub fn new(alloc: Global) -> Page
        ensures { result ≡ [] }
    {
        Page {
            alloc,
            html: String::new(alloc),
        }
    }

    /// Writes what comes before the contents of a file: its head with the style, and the tag of its body.
    pub fn begin(&mut self) -> Result<(), AllocError>
        ensures written { OnOk result (self.new ≡ self.old ++ shown_piece piece.Begin) }
        ensures kept { OnErr result (self.new ≡ self.old) }
    {
        self.push(BEGIN)
    }

    /// Writes what follows the contents of a file.
    pub fn end(&mut self) -> Result<(), AllocError>
        ensures written { OnOk result (self.new ≡ self.old ++ shown_piece piece.End) }
        ensures kept { OnErr result (self.new ≡ self.old) }
    {
        self.push(END)
    }

    /// Writes the tag that begins an element.
    pub fn open(&mut self, tag: Tag, class: Class) -> Result<(), AllocError>
        ensures written { OnOk result (self.new ≡ self.old ++ shown_piece (piece.Opening tag class)) }
        ensures kept { OnErr result (self.new ≡ self.old) }
    {
        let tag = opening(self.alloc, tag, class)?;
        self.push(tag.as_str())
    }

    /// Writes the tag that ends an element.
    pub fn close(&mut self, tag: Tag) -> Result<(), AllocError>
        ensures written { OnOk result (self.new ≡ self.old ++ shown_piece (piece.Closing tag)) }
        ensures kept { OnErr result (self.new ≡ self.old) }
    {
        let tag = closing(self.alloc, tag)?;
        self.push(tag.as_str())
    }

    /// Writes the tag that begins an element to which links lead by its number.
    pub fn open_anchor(&mut self, tag: Tag, class: Class, number: u64) -> Result<(), AllocError>
        ensures written { OnOk result (self.new ≡ self.old ++ shown_piece (piece.Anchor tag class number)) }
        ensures kept { OnErr result (self.new ≡ self.old) }
    {
        let tag = anchor(self.alloc, tag, class, number)?;
        self.push(tag.as_str())
    }

    /// Writes the tag that begins a link to the element with this number.
    pub fn open_link(&mut self, number: u64) -> Result<(), AllocError>
        ensures written { OnOk result (self.new ≡ self.old ++ shown_piece (piece.LinkTo number)) }
        ensures kept { OnErr result (self.new ≡ self.old) }
    {
        let tag = link(self.alloc, number)?;
        self.push(tag.as_str())
    }

    /// Writes the tag that begins a span of a bar, whose length is its share of the bar.
    pub fn open_share(&mut self, class: Class, share: u64) -> Result<(), AllocError>
        ensures written { OnOk result (self.new ≡ self.old ++ shown_piece (piece.Share class share)) }
        ensures kept { OnErr result (self.new ≡ self.old) }
    {
        let tag = share_tag(self.alloc, class, share)?;
        self.push(tag.as_str())
    }

    /// Writes a text, escaped.
    pub fn text(&mut self, text: &[u8]) -> Result<(), AllocError>
        ensures written { OnOk result (self.new ≡ self.old ++ escaped text.now) }
        ensures kept { OnErr result (self.new ≡ self.old) }
    {
        let more = escape::escape_text(self.alloc, text)?;
        self.push(more.as_str())
    }

    /// Writes an element with a text.
    pub fn element(&mut self, tag: Tag, class: Class, text: &[u8]) -> Result<(), AllocError>
        ensures written { OnOk result (self.new ≡ self.old ++ (shown_piece (piece.Opening tag class) ++ escaped text.now ++ shown_piece (piece.Closing tag))) }
        ensures kept { OnErr result (self.new ≡ self.old) }
    {
        let element = element_of(self.alloc, tag, class, text)?;
        self.push(element.as_str())
    }

    /// Writes the contents of another page.
    pub fn append(&mut self, more: &Page) -> Result<(), AllocError>
        ensures written { OnOk result (self.new ≡ self.old ++ more.now) }
        ensures kept { OnErr result (self.new ≡ self.old) }
    {
        self.push(more.html.as_str())
    }

    /// Writes pieces of a page.
    fn push(&mut self, html: &str) -> Result<(), AllocError>
        requires { IsPage html.now }
        ensures written { OnOk result (self.new ≡ self.old ++ html.now) }
        ensures kept { OnErr result (self.new ≡ self.old) }
    {
        self.html.push_str(html)
    }

    /// The bytes of the page: tags of fixed words, and escaped texts.
    pub fn into_bytes(self) -> Vec<u8>
        ensures bytes { result.items ≡ self }
        ensures page { IsPage result.items }
    {
        let Page { html, alloc: _ } = self;
        html.into_bytes()
    }
}

/// The tag that begins an element.
fn opening(alloc: Global, tag: Tag, class: Class) -> Result<String, AllocError>
    ensures { IfOk result (λ s. string_bytes s ≡ shown_piece (piece.Opening tag class)) }
{
    let name = tag_name(tag);
    let class = class_words(class);
    format!(in alloc; "<{name}{class}>")
}

/// The tag that ends an element.
fn closing(alloc: Global, tag: Tag) -> Result<String, AllocError>
    ensures { IfOk result (λ s. string_bytes s ≡ shown_piece (piece.Closing tag)) }
{
    let name = tag_name(tag);
    format!(in alloc; "</{name}>")
}

/// An element with a text.
fn element_of(alloc: Global, tag: Tag, class: Class, text: &[u8]) -> Result<String, AllocError>
    ensures { IfOk result (λ s. string_bytes s ≡ shown_piece (piece.Opening tag class) ++ escaped text.now ++ shown_piece (piece.Closing tag)) }
{
    let text = escape::escape_text(alloc, text)?;
    let last = closing(alloc, tag)?;
    let mut element = opening(alloc, tag, class)?;
    element.push_str(text.as_str())?;
    element.push_str(last.as_str())?;
    Ok(element)
}

/// The tag that begins an element with a number.
fn anchor(alloc: Global, tag: Tag, class: Class, number: u64) -> Result<String, AllocError>
    ensures { IfOk result (λ s. string_bytes s ≡ shown_piece (piece.Anchor tag class number)) }
{
    let mut all = String::from_str(alloc, "<")?;
    all.push_str(tag_name(tag))?;
    all.push_str(class_words(class))?;
    add_id(&mut all, number)?;
    Ok(all)
}

/// Adds the attribute by which links lead to an element, and the end of its tag.
fn add_id(tag: &mut String, number: u64) -> Result<(), AllocError>
    ensures { IfOk result (λ _. string_bytes tag.new ≡ string_bytes tag.old ++ piece.id_words number) }
{
    Ok(write!(tag, " id='q{number}'>")?)
}

/// The tag that begins a link.
fn link(alloc: Global, number: u64) -> Result<String, AllocError>
    ensures { IfOk result (λ s. string_bytes s ≡ shown_piece (piece.LinkTo number)) }
{
    format!(in alloc; "<a href='#q{number}'>")
}

/// The tag that begins a span of a bar.
fn share_tag(alloc: Global, class: Class, share: u64) -> Result<String, AllocError>
    ensures { IfOk result (λ s. string_bytes s ≡ shown_piece (piece.Share class share)) }
{
    let mut all = String::from_str(alloc, "<span")?;
    all.push_str(class_words(class))?;
    add_share(&mut all, share)?;
    Ok(all)
}

/// Adds the attribute for the length of a span of a bar, and the end of its tag.
fn add_share(tag: &mut String, share: u64) -> Result<(), AllocError>
    ensures { IfOk result (λ _. string_bytes tag.new ≡ string_bytes tag.old ++ piece.share_words share) }
{
    Ok(write!(tag, " style='flex-grow:{share}'>")?)
}
