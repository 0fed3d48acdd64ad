//! What of the files and the streams fails in a case.
use wd_cases::Failure;

/// How many writes a stream takes before one fails, and whether it can be flushed.
#[derive(Clone, Copy)]
pub struct Limit {
    pub writes: u64,
    pub flushes: bool,
}

const UNLIMITED: Limit = Limit {
    writes: u64::MAX,
    flushes: true,
};

#[derive(Clone, Copy)]
pub struct Settings {
    /// How many reads are made before one fails.
    pub reads: Option<u64>,
    pub out: Limit,
    pub err: Limit,
}

const NOTHING_FAILS: Settings = Settings {
    reads: None,
    out: UNLIMITED,
    err: UNLIMITED,
};

/// Settings as a line writes them: `reads N`, `out N` and `err N`, with a `|` between two of them.
pub fn settings_in(text: &str) -> Result<Settings, Failure> {
    let mut settings = NOTHING_FAILS;
    for setting in text.split_terminator('|') {
        settings.set(setting.trim())?;
    }
    Ok(settings)
}

impl Settings {
    fn set(&mut self, setting: &str) -> Result<(), Failure> {
        let (name, value) = setting.split_once(' ').ok_or(Failure::NoCase)?;
        match name {
            "reads" => self.reads = Some(value.parse::<u64>()?),
            "out" => self.out = limit_of(value)?,
            "err" => self.err = limit_of(value)?,
            _ => return Err(Failure::NoCase),
        }
        Ok(())
    }
}

/// `N`, or `N unflushed`.
fn limit_of(value: &str) -> Result<Limit, Failure> {
    let (writes, flushes) = match value.strip_suffix(" unflushed") {
        Some(writes) => (writes, false),
        None => (value, true),
    };
    let writes = writes.parse::<u64>()?;
    Ok(Limit { writes, flushes })
}
