//! Which sort keys leave nothing open in a query: they are put in, and the analysis is asked what is open then.
//!
//! Place after place is closed, the first that is open next. A key that closes one place may open another one (rows may be exchanged
//! under only one of two orderings): that place is closed next.

ghost use Rattle.std.specs.Prelude.{◌≡◌};
ghost use Rattle.wd_help.specs.Helps.{most_lists};

use std::alloc::Global;
use wd_analyse::{Analysis, Reason};
use wd_decide::{DecideError, Examined, examine};
use wd_keys::{Change, apply_changes};
use wd_lex::lex;
use wd_sites::{KeyPlace, PlanSite, sites};
use wd_value::OutOfMemory;

/// The most questions about one query.
const MOST_QUESTIONS: usize = 1000;

/// The most bytes that the texts of all questions about one query may have together.
const MOST_BYTES: usize = 2_000_000;

/// The most orderings that are changed.
const MOST_ROUNDS: usize = 16;

/// What is open in a text, and where its window calls and limits are.
#[derive(Drop)]
pub(crate) struct Open {
    pub(crate) reasons: Vec<Reason>,
    pub(crate) sites: Vec<PlanSite>,
}

/// Changes, and what is open with them.
#[derive(Drop)]
struct Step {
    changes: Vec<Change>,
    open: Open,
}

/// A query over a schema, and what is tried on it.
#[derive(Clone, Copy)]
struct Search<'a> {
    alloc: Global,
    schema: &'a [u8],
    query: &'a [u8],
    /// Where its window calls and limits are in the unchanged text.
    sites: &'a [PlanSite],
    /// The lists of sort keys that are tried.
    candidates: &'a [String],
}

/// How many lists are tried on a query of `bytes` bytes.
pub(crate) fn most_lists(bytes: usize) -> usize
    ensures { result ≡ most_lists bytes }
{
    MOST_QUESTIONS.min(MOST_BYTES / bytes.max(1))
}

/// The changes with which nothing is open, where several ORDER BYs may be changed.
pub(crate) fn find_changes(
    alloc: Global,
    schema: &[u8],
    query: &[u8],
    sites: &[PlanSite],
    candidates: &[String],
) -> Result<Option<Vec<Change>>, OutOfMemory> {
    let search = Search {
        alloc,
        schema,
        query,
        sites,
        candidates,
    };
    search.run()
}

/// What the analysis finds of a text. `None` where the text is refused.
pub(crate) fn examine_text(
    alloc: Global,
    schema: &[u8],
    text: &[u8],
) -> Result<Option<Examined>, OutOfMemory> {
    match examine(alloc, schema, text) {
        Ok(examined) => Ok(Some(examined)),
        Err(DecideError::OutOfMemory) => Err(OutOfMemory),
        Err(_) => Ok(None),
    }
}

/// What is open in a text.
pub(crate) fn open_in(alloc: Global, examined: Examined, text: &[u8]) -> Result<Open, OutOfMemory> {
    let Examined { planned, analysis } = examined;
    let sites = match lex(alloc, text) {
        Ok(tokens) => sites(alloc, &tokens, &planned.resolved.plan)?,
        Err(_) => Vec::new(alloc),
    };
    let reasons = match analysis {
        Analysis::Certified(_) => Vec::new(alloc),
        Analysis::Open(reasons, _) => reasons,
    };
    Ok(Open { reasons, sites })
}

impl Search<'_> {
    /// The changes with which nothing is open.
    fn run(self) -> Result<Option<Vec<Change>>, OutOfMemory> {
        let changes = Vec::new(self.alloc);
        let Some(open) = self.open_with(&changes)? else {
            return Ok(None);
        };
        let mut step = Step { changes, open };
        let mut tried = 0;
        for _ in 0..MOST_ROUNDS {
            if step.open.reasons.is_empty() {
                return Ok(Some(step.changes));
            }
            match self.closed(&step, &mut tried)? {
                Some(next) => step = next,
                None => return Ok(None),
            }
        }
        Ok(None)
    }

    /// What is open with these changes. `None` where the changed text is refused.
    fn open_with(self, changes: &[Change]) -> Result<Option<Open>, OutOfMemory> {
        let alloc = self.alloc;
        let Some(text) = apply_changes(alloc, self.query, changes)? else {
            return Ok(None);
        };
        match examine_text(alloc, self.schema, &text)? {
            Some(examined) => Ok(Some(open_in(alloc, examined, &text)?)),
            None => Ok(None),
        }
    }

    /// The first further change that closes a place that is open.
    fn closed(self, step: &Step, tried: &mut usize) -> Result<Option<Step>, OutOfMemory> {
        for reason in &step.open.reasons {
            let places = self.places_of(&step.open, *reason)?;
            if places.is_empty() {
                continue;
            }
            if let Some(found) = self.close_at(&step.changes, &places, tried)? {
                return Ok(Some(found));
            }
        }
        Ok(None)
    }

    /// The first further change that closes these places.
    fn close_at(
        self,
        changes: &[Change],
        places: &[KeyPlace],
        tried: &mut usize,
    ) -> Result<Option<Step>, OutOfMemory> {
        for keys in self.candidates {
            if self.is_spent(*tried) {
                return Ok(None);
            }
            *tried = tried.saturating_add(1);
            let next = self.with_keys(changes, places, keys.as_str())?;
            if let Some(open) = self.open_with(&next)? {
                if !self.is_open_at(&open, places)? {
                    return Ok(Some(Step {
                        changes: next,
                        open,
                    }));
                }
            }
        }
        Ok(None)
    }

    /// Whether something is open at one of these places.
    fn is_open_at(self, open: &Open, places: &[KeyPlace]) -> Result<bool, OutOfMemory> {
        for reason in &open.reasons {
            let still = self.places_of(open, *reason)?;
            if share_a_place(&still, places) {
                return Ok(true);
            }
        }
        Ok(false)
    }

    /// Whether no further question may be asked.
    fn is_spent(self, tried: usize) -> bool {
        tried >= most_lists(self.query.len())
    }

    /// Where keys can be added for this reason, each place once.
    fn places_of(self, open: &Open, reason: Reason) -> Result<Vec<KeyPlace>, OutOfMemory> {
        let mut places: Vec<KeyPlace> = Vec::new(self.alloc);
        if open.sites.len() != self.sites.len() {
            return Ok(places);
        }
        for (now, before) in open.sites.iter().zip(self.sites) {
            if now.node != reason.node || now.call != reason.call {
                continue;
            }
            if let Some(key) = before.site.key {
                if !places.iter().any(|place| place.at == key.at) {
                    places.push(key)?;
                }
            }
        }
        Ok(places)
    }

    /// The changes with these keys at each of the places.
    fn with_keys(
        self,
        changes: &[Change],
        places: &[KeyPlace],
        keys: &str,
    ) -> Result<Vec<Change>, OutOfMemory> {
        let mut all = Vec::with_capacity(self.alloc, changes.len())?;
        for change in changes {
            all.push(change.copy(self.alloc)?)?;
        }
        for place in places {
            self.add_keys(&mut all, *place, keys)?;
        }
        Ok(all)
    }

    /// Adds keys at one place.
    fn add_keys(
        self,
        changes: &mut Vec<Change>,
        place: KeyPlace,
        keys: &str,
    ) -> Result<(), OutOfMemory> {
        for change in changes.iter_mut() {
            if change.at == place.at {
                return change.add(self.alloc, keys);
            }
        }
        let change = Change::first(self.alloc, self.query, place, keys)?;
        let before = changes.iter().filter(|other| other.at < place.at).count();
        changes.insert(before.min(changes.len()), change)?;
        Ok(())
    }
}

/// Whether two lists of places have a place in common.
fn share_a_place(some: &[KeyPlace], others: &[KeyPlace]) -> bool {
    some.iter()
        .any(|place| others.iter().any(|other| other.at == place.at))
}
