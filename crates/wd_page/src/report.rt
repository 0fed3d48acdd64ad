//! The whole page.

ghost use Rattle.std.specs.Prelude.{◌≡◌, ℕ, List, map, is_some, false, IfOk, OnErr, OnOk};
ghost use Rattle.wd_lines.specs.Counts.{with_query};
ghost use Rattle.wd_lines.specs.declared.count.Counts.{Counts};
ghost use Rattle.wd_lines.specs.declared.count.Kind.TheVariants as k;
ghost use Rattle.wd_markup.specs.Pages.{IsPage};

use crate::query::{Judged, Query, Refusal};
use crate::section::{add_judged, add_number, add_place, add_refused};
use crate::words::{counted_word, kind_class, kind_word};
use std::alloc::Global;
use std::marker::Model;
use wd_lines::{Counts, Kind, Standing};
use wd_markup::{Class, Page, Tag};
use wd_page_parts::Place;
use wd_value::OutOfMemory;

/// The heads of the table of all queries.
const HEADS: [&str; 4] = ["Query", "Verdict", "Open", "Help"];

/// The findings on queries, for a page. Contracts see for each query its row in the table of all queries and its section, and the counts.
#[derive(Drop)]
pub struct Report {
    alloc: Global,
    entries: Vec<Entry>,
    counts: Counts,
}

/// What was found of a query, as it appears in the page.
#[derive(Drop)]
struct Entry {
    kind: Kind,
    standing: Standing,
    is_mended: bool,
    /// Its row in the table of all queries.
    row: Page,
    section: Page,
}

impl Model for Report {
    ghost Value = { List (List ℕ × List ℕ) × Counts };

    ghost view = { λ r. (map (λ e. (e.row, e.section)) r.entries.items, r.counts) };
}

impl Report {
    /// A report without queries.
    pub fn new(alloc: Global) -> Report {
        Report {
            alloc,
            entries: Vec::new(alloc),
            counts: Counts::NONE,
        }
    }

    /// Adds a query that was read: its open calls and limits, and the text with added keys with which it has one answer, if one is known.
    /// Where memory runs out, the report is unchanged.
    pub fn add_judged(
        &mut self,
        query: Query<'_, '_, '_>,
        judged: Judged<'_>,
        places: &[Place],
        help: Option<&[u8]>,
    ) -> Result<(), OutOfMemory>
        ensures counted { OnOk result (self.new.1 ≡ with_query judged.entry.kind query.entry.standing (is_some help.entry) self.old.1) }
        ensures kept { OnErr result (self.new ≡ self.old) }
    {
        let number = self.next();
        let entry = judged_entry(self.alloc, number, query, judged, places, help)?;
        self.add(entry)
    }

    /// Adds a query that was not read. Where memory runs out, the report is unchanged.
    pub fn add_refused(
        &mut self,
        query: Query<'_, '_, '_>,
        refusal: Refusal<'_, '_>,
    ) -> Result<(), OutOfMemory>
        ensures counted { OnOk result (self.new.1 ≡ with_query k.NotRead query.entry.standing false self.old.1) }
        ensures kept { OnErr result (self.new ≡ self.old) }
    {
        let number = self.next();
        let entry = refused_entry(self.alloc, number, query, refusal)?;
        self.add(entry)
    }

    /// The number of the next query, from 1.
    fn next(&self) -> u64 {
        (self.entries.len() as u64).saturating_add(1)
    }

    /// Adds what is found of a query.
    fn add(&mut self, entry: Entry) -> Result<(), OutOfMemory>
        ensures counted { OnOk result (self.new.1 ≡ with_query entry.kind entry.standing entry.is_mended self.old.1) }
        ensures kept { OnErr result (self.new ≡ self.old) }
    {
        let kind = entry.kind;
        let standing = entry.standing;
        let is_mended = entry.is_mended;
        self.entries.push(entry)?;
        self.counts.add(kind, standing, is_mended);
        Ok(())
    }

    /// The file: a page of HTML, in which texts from an input appear only escaped.
    pub fn to_bytes(&self) -> Result<Vec<u8>, OutOfMemory>
        ensures page { IfOk result (λ v. IsPage v.items) }
    {
        let mut page = Page::new(self.alloc);
        self.add_to(&mut page)?;
        Ok(page.into_bytes())
    }

    /// Writes the file.
    fn add_to(&self, page: &mut Page) -> Result<(), OutOfMemory> {
        page.begin()?;
        page.open(Tag::Header, Class::Plain)?;
        page.element(
            Tag::TitleHeading,
            Class::Plain,
            b"Do these queries have one answer?",
        )?;
        self.add_counts(page)?;
        self.add_bar(page)?;
        self.add_rows(page)?;
        page.close(Tag::Header)?;
        for entry in &self.entries {
            page.append(&entry.section)?;
        }
        add_footer(page)?;
        Ok(page.end()?)
    }

    /// Adds the line that counts the queries.
    fn add_counts(&self, page: &mut Page) -> Result<(), OutOfMemory> {
        let mut line = String::new(self.alloc);
        self.counts.add_line(&mut line)?;
        Ok(page.element(Tag::Paragraph, Class::Plain, line.as_bytes())?)
    }

    /// Adds the bar of the counts, and what its colours mean.
    fn add_bar(&self, page: &mut Page) -> Result<(), OutOfMemory> {
        let shares = self.shares();
        page.open(Tag::Division, Class::Bar)?;
        for (kind, count) in &shares {
            if *count > 0 {
                page.open_share(kind_class(*kind), *count)?;
                page.close(Tag::Span)?;
            }
        }
        page.close(Tag::Division)?;
        page.open(Tag::Bulleted, Class::Legend)?;
        for (kind, count) in &shares {
            add_share(self.alloc, page, *kind, *count)?;
        }
        Ok(page.close(Tag::Bulleted)?)
    }

    /// How many queries have each verdict.
    fn shares(&self) -> [(Kind, u64); 4] {
        [
            (Kind::Depends, self.counts.depend),
            (Kind::MayTie, self.counts.may_tie),
            (Kind::NotRead, self.counts.not_read),
            (Kind::Deterministic, self.counts.deterministic),
        ]
    }

    /// Adds the table of all queries.
    fn add_rows(&self, page: &mut Page) -> Result<(), OutOfMemory> {
        page.open(Tag::Division, Class::Scroll)?;
        page.open(Tag::Table, Class::Plain)?;
        page.open(Tag::Row, Class::Plain)?;
        for head in &HEADS {
            page.element(Tag::HeadCell, Class::Plain, head.as_bytes())?;
        }
        page.close(Tag::Row)?;
        for entry in &self.entries {
            page.append(&entry.row)?;
        }
        page.close(Tag::Table)?;
        Ok(page.close(Tag::Division)?)
    }
}

/// Adds what a colour of the bar means.
fn add_share(alloc: Global, page: &mut Page, kind: Kind, count: u64) -> Result<(), OutOfMemory> {
    let word = counted_word(kind, count);
    let words = format!(in alloc; "{count} {word}")?;
    Ok(page.element(Tag::Item, kind_class(kind), words.as_bytes())?)
}

/// Adds what is below all sections.
fn add_footer(page: &mut Page) -> Result<(), OutOfMemory> {
    Ok(page.element(
        Tag::Footer,
        Class::Plain,
        b"Written by wdreport. A key says which of the rows that tie comes first: whether that is the right one, it can't know.",
    )?)
}

/// The entry of a query that was read.
fn judged_entry(
    alloc: Global,
    number: u64,
    query: Query<'_, '_, '_>,
    judged: Judged<'_>,
    places: &[Place],
    help: Option<&[u8]>,
) -> Result<Entry, OutOfMemory>
    ensures kind { IfOk result (λ e. e.kind ≡ judged.entry.kind) }
    ensures standing { IfOk result (λ e. e.standing ≡ query.entry.standing) }
    ensures mended { IfOk result (λ e. e.is_mended ≡ is_some help.entry) }
{
    let mut row = Page::new(alloc);
    let mut section = Page::new(alloc);
    add_row(
        alloc,
        &mut row,
        number,
        query,
        judged.kind,
        places,
        help.is_some(),
    )?;
    add_judged(alloc, &mut section, number, query, judged, places, help)?;
    Ok(Entry {
        kind: judged.kind,
        standing: query.standing,
        is_mended: help.is_some(),
        row,
        section,
    })
}

/// The entry of a query that was not read.
fn refused_entry(
    alloc: Global,
    number: u64,
    query: Query<'_, '_, '_>,
    refusal: Refusal<'_, '_>,
) -> Result<Entry, OutOfMemory>
    ensures kind { IfOk result (λ e. e.kind ≡ k.NotRead) }
    ensures standing { IfOk result (λ e. e.standing ≡ query.entry.standing) }
    ensures mended { IfOk result (λ e. e.is_mended ≡ false) }
{
    let mut row = Page::new(alloc);
    let mut section = Page::new(alloc);
    add_row(alloc, &mut row, number, query, Kind::NotRead, &[], false)?;
    add_refused(alloc, &mut section, number, query, refusal)?;
    Ok(Entry {
        kind: Kind::NotRead,
        standing: query.standing,
        is_mended: false,
        row,
        section,
    })
}

/// Adds the row of a query in the table of all.
fn add_row(
    alloc: Global,
    page: &mut Page,
    number: u64,
    query: Query<'_, '_, '_>,
    kind: Kind,
    places: &[Place],
    is_mended: bool,
) -> Result<(), OutOfMemory> {
    page.open(Tag::Row, Class::Plain)?;
    page.open(Tag::DataCell, Class::Plain)?;
    page.open_link(number)?;
    add_place(alloc, page, query.path, query.line)?;
    page.close(Tag::Link)?;
    page.close(Tag::DataCell)?;
    page.open(Tag::DataCell, Class::Plain)?;
    page.element(Tag::Span, kind_class(kind), kind_word(kind).as_bytes())?;
    page.close(Tag::DataCell)?;
    add_lines(alloc, page, places)?;
    let words = help_words(query.standing, is_mended);
    page.element(Tag::DataCell, Class::Plain, words.as_bytes())?;
    Ok(page.close(Tag::Row)?)
}

/// The table's words for how a finding counts, and for a help.
fn help_words(standing: Standing, is_mended: bool) -> &'static str {
    match (standing, is_mended) {
        (Standing::Excused, true) => "excused; a key mends it",
        (Standing::Excused, false) => "excused",
        (Standing::Known, true) => "known; a key mends it",
        (Standing::Known, false) => "known",
        (Standing::New, true) => "a key mends it",
        (Standing::New, false) => "",
    }
}

/// Adds a cell with the lines of places.
fn add_lines(alloc: Global, page: &mut Page, places: &[Place]) -> Result<(), OutOfMemory> {
    page.open(Tag::DataCell, Class::Plain)?;
    for (number, place) in places.iter().enumerate() {
        let word = if number > 0 { ", " } else { "line " };
        add_number(alloc, page, word, place.line)?;
    }
    Ok(page.close(Tag::DataCell)?)
}
