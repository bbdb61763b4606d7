// How far a run over many values is.

/// After how many bytes a line is printed.
const STEP: u64 = 67108864;

/// How far a run over many values is, told now and then by a line on standard error.
#[derive(Drop)]
pub struct Progress<'r, E> {
    rt: &'r E,
    /// Whether anything is printed.
    is_shown: bool,
    /// How many bytes there are, if that is known.
    pub all: Option<u64>,
    bytes: u64,
    values: u64,
}

impl<'r, E: Eprint> Progress<'r, E> {
    pub fn new(rt: &'r E, is_shown: bool) -> Progress<'r, E> {
        Progress {
            rt,
            is_shown,
            all: None,
            bytes: 0,
            values: 0,
        }
    }

    /// One more value, of so many bytes.
    pub fn step(&mut self, length: usize) {
        let steps = self.bytes / STEP;
        self.bytes = self.bytes.saturating_add(length as u64);
        self.values = self.values.saturating_add(1);
        if !self.is_shown || self.bytes / STEP == steps {
            return;
        }
        let (rt, bytes, values) = (self.rt, self.bytes, self.values);
        let _told = match self.all {
            Some(all) => rt.eprintln(format_args!("{bytes} of {all} bytes, {values} values")),
            None => rt.eprintln(format_args!("{bytes} bytes, {values} values")),
        };
    }
}
