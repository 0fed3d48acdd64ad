//! How queries are counted.

use crate::hold::{Hold, Settled};
use crate::known::Knowledge;
use wd_lines::{Counts, Kind, Standing};

/// Counts of queries, and the findings that are known.
#[derive(Drop)]
pub struct Tally {
    /// Whether statements that a key mends are written with the key.
    is_fix: bool,
    /// The counts as the statements are found.
    pub found: Counts,
    /// The counts of the statements in the files as they are written.
    pub left: Counts,
    /// How many lost the certificate that a lock had of them, and are neither excused nor known nor mended.
    pub lost: u64,
    pub knowledge: Knowledge,
    /// The page on which all is shown, if one is asked for.
    pub page: Option<wd_page::Report>,
}

impl Tally {
    /// No queries so far.
    pub fn new(is_fix: bool, knowledge: Knowledge, page: Option<wd_page::Report>) -> Tally {
        Tally {
            is_fix,
            found: Counts::NONE,
            left: Counts::NONE,
            lost: 0,
            knowledge,
            page,
        }
    }

    /// Counts one more query. An excused query is not mended.
    pub(crate) fn add(&mut self, settled: &Settled<'_>, standing: Standing) {
        let is_mended = settled.is_mended();
        let is_left = self.add_kind(settled.kind(), standing, is_mended);
        if matches!(settled.hold, Hold::Lost) && standing == Standing::New && is_left {
            self.lost = self.lost.saturating_add(1);
        }
    }

    /// Counts one more query of a kind, and returns whether it is still of that kind in the file that is written.
    pub(crate) fn add_kind(&mut self, kind: Kind, standing: Standing, is_mended: bool) -> bool {
        self.found.add(kind, standing, is_mended);
        if self.is_fix && is_mended && standing != Standing::Excused {
            self.left.add(Kind::Deterministic, standing, is_mended);
            false
        } else {
            self.left.add(kind, standing, is_mended);
            true
        }
    }

    /// The exit status if the run itself succeeds: that of the counts, or 1 where that is 0 and a query lost its certificate, even if
    /// queries that may tie are allowed.
    pub fn status(&self, allows_unknown: bool) -> u8 {
        match self.left.status(allows_unknown) {
            0 if self.lost > 0 => 1,
            status => status,
        }
    }
}
