//! The scanner of an object: where its next byte stands, and how the object ends.

ghost use Rattle.std.specs.Prelude.{◌≡◌, ◌+◌, ◌-◌, ◌≤◌, List, [], ◌∷◌, ℕ, length};
ghost use Rattle.qo_framing.specs.Scanning.{closed, moved, one_too_many, opened, step_of, CountsWithin, HasScanned, IsAfter, OpenWithin, Scans};

use crate::bytes::{after_plain, is_reset};
use qo_values::{MESSAGE_MAX, NESTING_MAX};

/// How an object ends.
#[derive(Clone, Copy)]
pub(crate) enum Ending {
    /// Its brackets are closed.
    Whole,
    /// A byte came that no JSON has.
    Broken,
    /// It has a byte too many.
    TooLong,
    /// It is nested too deep.
    TooDeep,
}

/// Where a byte stands.
#[derive(Clone, Copy, Debug)]
pub(crate) enum StringState {
    /// Outside strings.
    Outside,
    /// In a string.
    InString,
    /// In a string, after a backslash that hides it.
    Escaped,
}

/// What is known of an object that has not ended.
#[derive(Clone, Copy, Debug)]
pub(crate) struct Scanner {
    /// How many brackets are open.
    depth: u64,
    /// Where the next byte stands.
    place: StringState,
}

/// What one byte does.
#[derive(Clone, Copy)]
pub(crate) enum Step {
    Goes(Scanner),
    Ends(Ending),
}

/// What a scan found.
#[derive(Clone, Copy)]
pub(crate) enum Scanned {
    /// No end.
    Open(Scanner),
    /// An end, with so many of the bytes.
    Ended(Ending, usize),
}

impl Scanner {
    /// The scanner after an opening brace.
    pub(crate) fn begun() -> Scanner
        ensures { IsAfter (123 ∷ []) result }
    {
        Scanner {
            depth: 1,
            place: StringState::Outside,
        }
    }

    /// The scanner in another place.
    fn moved(self, place: StringState) -> Step
        ensures { result ≡ moved self place }
    {
        Step::Goes(Scanner {
            depth: self.depth,
            place,
        })
    }

    /// The scanner with one bracket more open.
    fn opened(self) -> Step
        ensures { result ≡ opened self }
    {
        if self.depth >= NESTING_MAX {
            return Step::Ends(Ending::TooDeep);
        }
        Step::Goes(Scanner {
            depth: self.depth + 1,
            place: self.place,
        })
    }

    /// The scanner with one bracket less open.
    fn closed(self) -> Step
        ensures { result ≡ closed self }
    {
        if self.depth <= 1 {
            return Step::Ends(Ending::Whole);
        }
        Step::Goes(Scanner {
            depth: self.depth - 1,
            place: self.place,
        })
    }

    /// What a byte does that is not one too many. Most of those that mean something are quotes, which are told
    /// first.
    fn step(self, byte: u8) -> Step
        ensures { result ≡ step_of self byte }
    {
        match (self.place, byte) {
            (StringState::Outside, b'"') => self.moved(StringState::InString),
            (StringState::InString, b'"') => self.moved(StringState::Outside),
            _ => self.any_step(byte),
        }
    }

    /// The same, of whichever byte.
    fn any_step(self, byte: u8) -> Step
        ensures { result ≡ step_of self byte }
    {
        if is_reset(byte) {
            return Step::Ends(Ending::Broken);
        }
        match self.place {
            StringState::Escaped => self.moved(StringState::InString),
            StringState::InString => match byte {
                b'"' => self.moved(StringState::Outside),
                b'\\' => self.moved(StringState::Escaped),
                _ => Step::Goes(self),
            },
            StringState::Outside => match byte {
                b'"' => self.moved(StringState::InString),
                b'{' | b'[' => self.opened(),
                b'}' | b']' => self.closed(),
                _ => Step::Goes(self),
            },
        }
    }

    /// The place from `at` on of the next byte to look at, or the end.
    fn next_place(self, bytes: &[u8], at: usize) -> usize
        requires { at ≤ length bytes.now }
        ensures least { at ≤ result }
        ensures most { result ≤ length bytes.now }
        ensures scanned { (front : List ℕ) → length front + length bytes.now ≤ MESSAGE_MAX
            → HasScanned front bytes.now at self → HasScanned front bytes.now result self }
    {
        match self.place {
            StringState::Escaped => at,
            StringState::InString | StringState::Outside => after_plain(bytes, at),
        }
    }
}

/// Scans bytes of which none is one too many.
fn scan_all(scanner: Scanner, bytes: &[u8]) -> Scanned
    ensures found { (front : List ℕ) → IsAfter front scanner → length front + length bytes.now ≤ MESSAGE_MAX
        → Scans front bytes.now result }
    ensures count { CountsWithin bytes.now result }
{
    let mut scanner = scanner;
    let mut at = 0;
    while at < bytes.len() {
        let next = scanner.next_place(bytes, at);
        match bytes.get(next) {
            None => return Scanned::Open(scanner),
            Some(byte) => match scanner.step(*byte) {
                Step::Goes(after) => {
                    scanner = after;
                    at = next + 1;
                }
                Step::Ends(ending) => return Scanned::Ended(ending, next + 1),
            },
        }
    }
    Scanned::Open(scanner)
}

/// How a byte that is one too many ends an object.
fn one_too_many(byte: u8) -> Ending
    ensures { result ≡ one_too_many byte }
{
    if is_reset(byte) {
        Ending::Broken
    } else {
        Ending::TooLong
    }
}

/// Scans bytes of an object that has so many already.
pub(crate) fn scan(scanner: Scanner, so_far: usize, bytes: &[u8]) -> Scanned
    requires { so_far ≤ MESSAGE_MAX }
    ensures found { (front : List ℕ) → IsAfter front scanner → length front ≡ so_far
        → Scans front bytes.now result }
    ensures count { CountsWithin bytes.now result }
    ensures open { OpenWithin (MESSAGE_MAX - so_far) bytes.now result }
{
    let room = MESSAGE_MAX as usize - so_far;
    let count = room.min(bytes.len());
    match scan_all(scanner, &bytes[..count]) {
        Scanned::Ended(ending, used) => Scanned::Ended(ending, used),
        Scanned::Open(scanner) => match bytes.get(count) {
            None => Scanned::Open(scanner),
            Some(byte) => Scanned::Ended(one_too_many(*byte), count + 1),
        },
    }
}
