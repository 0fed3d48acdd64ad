//! The words of which tags are made.

ghost use Rattle.std.specs.Prelude.{◌≡◌};
ghost use Rattle.wd_markup.specs.Vocabulary as spec;

/// An element of a page.
#[derive(Clone, Copy)]
pub enum Tag {
    Main,
    Header,
    Footer,
    Section,
    Division,
    TitleHeading,
    SectionHeading,
    PartHeading,
    Paragraph,
    Table,
    TableHead,
    TableBody,
    Row,
    HeadCell,
    DataCell,
    Numbered,
    Bulleted,
    Item,
    Preformatted,
    Code,
    Mark,
    Deleted,
    Inserted,
    Strong,
    Span,
    Details,
    Summary,
    Figure,
    Caption,
    Link,
}

/// The style of an element.
#[derive(Clone, Copy)]
pub enum Class {
    /// The style of the element itself.
    Plain,
    /// A query with one answer.
    Deterministic,
    /// A query with two answers.
    Depends,
    /// A query that has not been shown to have one answer or two.
    MayTie,
    /// A text that is not read.
    NotRead,
    /// The coloured bar of counts.
    Bar,
    /// The list that explains the colours of the bar.
    Legend,
    /// The word of a verdict.
    Chip,
    /// A wide table or text that scrolls within the page.
    Scroll,
    /// Figures side by side.
    Side,
    /// Text that is less prominent.
    Soft,
    /// A value or a row that only one of two answers has.
    Differs,
    /// A number that only one of two answers has.
    NumberDiffers,
    /// The word NULL in place of a value.
    Null,
    /// A number, right-aligned in its cell.
    Number,
    /// The line under a refused text that points at it.
    Caret,
    /// A node of a plan.
    Node,
    /// What a node of a plan does.
    Does,
    /// A rule that justifies a call or a limit.
    Rule,
    /// A call or a limit without a rule.
    Open,
}

/// The name of an element.
pub(crate) fn tag_name(tag: Tag) -> &'static str
    ensures { result.now ≡ spec.tag_name tag }
{
    match tag {
        Tag::Main => "main",
        Tag::Header => "header",
        Tag::Footer => "footer",
        Tag::Section => "section",
        Tag::Division => "div",
        Tag::TitleHeading => "h1",
        Tag::SectionHeading => "h2",
        Tag::PartHeading => "h3",
        Tag::Paragraph => "p",
        Tag::Table => "table",
        Tag::TableHead => "thead",
        Tag::TableBody => "tbody",
        Tag::Row => "tr",
        Tag::HeadCell => "th",
        Tag::DataCell => "td",
        Tag::Numbered => "ol",
        Tag::Bulleted => "ul",
        Tag::Item => "li",
        Tag::Preformatted => "pre",
        Tag::Code => "code",
        Tag::Mark => "mark",
        Tag::Deleted => "del",
        Tag::Inserted => "ins",
        Tag::Strong => "strong",
        Tag::Span => "span",
        Tag::Details => "details",
        Tag::Summary => "summary",
        Tag::Figure => "figure",
        Tag::Caption => "figcaption",
        Tag::Link => "a",
    }
}

/// The attribute of a class, with the blank before it.
pub(crate) fn class_words(class: Class) -> &'static str
    ensures { result.now ≡ spec.class_words class }
{
    match class {
        Class::Plain => "",
        Class::Deterministic => " class='deterministic'",
        Class::Depends => " class='depends'",
        Class::MayTie => " class='may-tie'",
        Class::NotRead => " class='not-read'",
        Class::Bar => " class='bar'",
        Class::Legend => " class='legend'",
        Class::Chip => " class='chip'",
        Class::Scroll => " class='scroll'",
        Class::Side => " class='side'",
        Class::Soft => " class='soft'",
        Class::Differs => " class='differs'",
        Class::NumberDiffers => " class='number differs'",
        Class::Null => " class='null'",
        Class::Number => " class='number'",
        Class::Caret => " class='caret'",
        Class::Node => " class='node'",
        Class::Does => " class='does'",
        Class::Rule => " class='rule'",
        Class::Open => " class='open'",
    }
}
