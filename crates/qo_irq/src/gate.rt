//! What drives a line.

ghost use Rattle.std.specs.Prelude.{◌≡◌, false, if◌then◌else◌, nat_lt};
ghost use Rattle.std.specs.List.{list_any, list_all};
ghost use Rattle.qo_irq.specs.Wires.{wire_of, is_input, names_below, level_at, gate_level};

/// What drives a line. A gate names lines by their numbers.
#[derive(Debug, Drop)]
pub enum Gate {
    /// The line is set from outside.
    Input,
    /// The line is high where one of these is.
    Or(Vec<u32>),
    /// One output of a splitter: the line is high where this one is.
    Copy(u32),
    /// The line is high where the first is high and the second is low.
    Off(u32, u32),
}

/// Whether each of these lines is below a number.
fn all_below(named: &[u32], lines: usize) -> bool
    ensures { result ≡ list_all (λ line. nat_lt line lines) named.now }
{
    named.iter().all(|line| (*line as usize) < lines)
}

/// The level of a line; one that is not there is low.
fn level_of(levels: &[bool], line: u32) -> bool
    ensures { result ≡ level_at levels.now line }
{
    match levels.get(line as usize) {
        Some(level) => *level,
        None => false,
    }
}

/// Whether one of these lines is high.
fn any_high(named: &[u32], levels: &[bool]) -> bool
    ensures { result ≡ list_any (level_at levels.now) named.now }
{
    named.iter().any(|line| level_of(levels, *line))
}

impl Gate {
    /// 1 for an input, else 0.
    pub(crate) fn input_count(&self) -> u32
        ensures { result ≡ (if is_input (wire_of self.now false) then 1 else 0) }
    {
        match self {
            Gate::Input => 1,
            Gate::Or(_) | Gate::Copy(_) | Gate::Off(_, _) => 0,
        }
    }

    /// Whether each line that the gate names is below a number.
    pub(crate) fn names_below(&self, lines: usize) -> bool
        ensures { result ≡ names_below lines (wire_of self.now false) }
    {
        match self {
            Gate::Input => true,
            Gate::Or(named) => all_below(named, lines),
            Gate::Copy(line) => (*line as usize) < lines,
            Gate::Off(line, by) => (*line as usize) < lines && (*by as usize) < lines,
        }
    }

    /// The level that the gate gives its line, by the levels of the lines that it names; an input keeps
    /// the one that it has.
    pub(crate) fn level(&self, levels: &[bool], line: u32) -> bool
        ensures { result ≡ gate_level (level_at levels.now) (wire_of self.now (level_at levels.now line)) }
    {
        match self {
            Gate::Input => level_of(levels, line),
            Gate::Or(named) => any_high(named, levels),
            Gate::Copy(line) => level_of(levels, *line),
            Gate::Off(line, by) => level_of(levels, *line) && !level_of(levels, *by),
        }
    }
}
