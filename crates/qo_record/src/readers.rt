//! How a recorded stream is read from a source, entry by entry.

ghost use Rattle.std.specs.Prelude.{◌≡◌, ◌≤◌, ℕ, List, Option, Some, None, Ok, false, true, ◌∷◌, length, option_map, IfOk, OnErr, OnOk};
ghost use Rattle.qo_causes.specs.Cause.{HasCause, Rose};
ghost use Rattle.qo_causes.specs.Hub.{AtEnd, ButNextFailed, NamesStay, NextGives, OnNextFailed, is_end};
ghost use Rattle.qo_record.specs.Names.{header_of};
ghost use Rattle.qo_record.specs.Reading.{after_front};
ghost use Rattle.qo_record.specs.Replays.{IsStarved, Went, ahead_of, bad_ahead, inputs_ahead, unread};
ghost use Rattle.qo_record.specs.Windows.{BeginsWithHeader, EntryFound, HeaderFound, HeaderIn, IsFirst, LookedFor, More};
ghost use Rattle.qo_record.specs.declared.versions.Version.{Version};
ghost use Rattle.qo_record.specs.declared.windows.TheConstants.{ROOM};

use crate::entries::{First, first_of};
use crate::names::{SessionNames, none_open, rename};
use crate::reading::after_front;
use crate::versions::{HEADER_SIZE, Version, header_of};
use crate::waiting::is_wrong;
use crate::windows::Window;
use qo_causes::{Failed, Input, NextError, Source};
use std::alloc::{AllocError, Global};
use std::marker::Model;

/// What the first bytes of a stream are.
#[derive(Clone, Copy)]
enum Front {
    /// They begin with the header of this version.
    Header(Version),
    /// They do not begin with a header, whatever follows them.
    Other,
    /// They are fewer bytes than a header has, and the first ones of one.
    Short,
}

/// Whether bytes begin with the header of a version.
fn begins(version: Version, bytes: &[u8]) -> bool
    ensures yes { result ≡ true → BeginsWithHeader version bytes.now }
    ensures no { result ≡ false → after_front (header_of version) bytes.now ≡ None }
{
    after_front(header_of(version), bytes).is_some()
}

/// Whether bytes are the first ones of the header of a version.
fn may_begin(version: Version, bytes: &[u8]) -> bool
    ensures short { result ≡ true → length bytes.now ≤ 7 }
    ensures no { result ≡ false → after_front bytes.now (header_of version) ≡ None }
{
    after_front(bytes, header_of(version)).is_some()
}

/// What the first bytes of a stream are.
fn front_of(bytes: &[u8]) -> Front
    ensures { HeaderIn bytes.now result }
{
    if begins(Version::One, bytes) {
        return Front::Header(Version::One);
    }
    if begins(Version::Two, bytes) {
        return Front::Header(Version::Two);
    }
    if may_begin(Version::One, bytes) || may_begin(Version::Two, bytes) {
        Front::Short
    } else {
        Front::Other
    }
}

/// Takes more bytes for the entry at the front, if there is room; with room for no further byte, and at the end
/// of the source, it answers that there are none.
fn take_more<S: Source>(window: &mut Window, source: &mut S) -> Result<bool, Failed>
    ensures ahead { ahead_of window.new (S.left source.new) ≡ ahead_of window.old (S.left source.old) }
    ensures more { More window.old window.new (S.left source.new) result }
    ensures few { length window.new ≤ ROOM }
    ensures cause { HasCause (S.faults source.old) (S.faults source.new) result }
    ensures quiet { OnOk result (S.faults source.new ≡ S.faults source.old) }
{
    if window.is_full() {
        return Ok(false);
    }
    let count = window.fill(source)?;
    Ok(count > 0)
}

/// The version of the header at the front of what is ahead, or none where no header stands there. As many bytes are
/// taken as it takes to tell.
fn find_header<S: Source>(window: &mut Window, source: &mut S) -> Result<Option<Version>, Failed>
    ensures ahead { ahead_of window.new (S.left source.new) ≡ ahead_of window.old (S.left source.old) }
    ensures found { HeaderFound window.new (S.left source.new) result }
    ensures cause { HasCause (S.faults source.old) (S.faults source.new) result }
    ensures quiet { OnOk result (S.faults source.new ≡ S.faults source.old) }
{
    loop {
        match front_of(window.buffered()) {
            Front::Header(version) => return Ok(Some(version)),
            Front::Other => return Ok(None),
            Front::Short => {}
        }
        if !take_more(window, source)? {
            return Ok(None);
        }
    }
}

/// The entry at the front of what is ahead, which is then held whole, or none where none stands there. As many
/// bytes are taken as it takes to tell. The memory of the input is that of its bytes.
fn find_entry<S: Source>(
    alloc: Global,
    version: Version,
    names: &SessionNames,
    window: &mut Window,
    source: &mut S,
) -> Result<Option<First>, NextError>
    ensures ahead { ahead_of window.new (S.left source.new) ≡ ahead_of window.old (S.left source.old) }
    ensures found { EntryFound version names.now window.new (S.left source.new) result }
    ensures count { S.faults source.old ≤ S.faults source.new }
    ensures looked { LookedFor (S.faults source.old) (S.faults source.new) result }
{
    loop {
        match first_of(alloc, version, names, window.buffered()) {
            Ok(Some(first)) => return Ok(Some(first)),
            Ok(None) => {
                if is_wrong(version, names, window.buffered()) {
                    return Ok(None);
                }
            }
            Err(AllocError) => return Err(NextError::Memory),
        }
        match take_more(window, source) {
            Ok(true) => {}
            Ok(false) => return Ok(None),
            Err(Failed) => return Err(NextError::Failed),
        }
    }
}

/// A recorded stream that is read from a source, and how far it was read.
#[derive(Drop)]
pub(crate) struct Reader {
    alloc: Global,
    window: Window,
    // The version, once the header was read.
    version: Option<Version>,
    // How many bytes were read; it stays at its last value.
    place: u64,
    // By its number, the name of each session that is open.
    names: SessionNames,
}

impl Model for Reader {
    ghost use Rattle.std.specs.Prelude.{◌<◌, ◌^◌};
    ghost use Rattle.qo_record.specs.Replays.{Progress};

    ghost Value = { Progress };

    ghost view = { λ r. record { buffered = r.window; version = r.version; place = r.place; names = r.names } };

    ghost invariant = { λ r. r.place < 2 ^ 64 };
}

impl Reader {
    /// A reader of a stream of which nothing was taken. All memory is taken here that does not go into an input.
    pub(crate) fn new(alloc: Global) -> Result<Reader, AllocError>
        ensures { IfOk result (λ reader. reader ≡ unread) }
    {
        Ok(Reader {
            alloc,
            window: Window::new(alloc)?,
            version: None,
            place: 0,
            names: none_open(),
        })
    }

    /// The names of the sessions that are open, by their numbers.
    pub(crate) fn names(&self) -> &SessionNames
        ensures { result.now ≡ self.now.names }
    {
        &self.names
    }

    /// How many bytes were taken and are not read yet.
    pub(crate) fn buffered_count(&self) -> usize
        ensures count { result ≡ length self.now.buffered }
        ensures few { length self.now.buffered ≤ ROOM }
    {
        self.window.buffered().len()
    }

    /// Goes past the header of a version, which stands at the front.
    fn pass_header(&mut self, version: Version)
        requires fresh { self.old.version ≡ None }
        requires there { BeginsWithHeader version self.old.buffered }
        ensures version { self.new.version ≡ Some version }
        ensures names { self.new.names ≡ self.old.names }
        ensures inputs { (left : Option (List ℕ)) → inputs_ahead self.new left ≡ inputs_ahead self.old left }
        ensures bad { (left : Option (List ℕ)) → bad_ahead self.new left ≡ bad_ahead self.old left }
        ensures went { (left : Option (List ℕ)) → Went self.old self.new left left }
    {
        self.window.let_go(HEADER_SIZE);
        self.version = Some(version);
        self.place = HEADER_SIZE as u64;
    }

    /// Reads the header, unless it was read before, and answers its version, or none where it is not there.
    fn head<S: Source>(&mut self, source: &mut S) -> Result<Option<Version>, Failed>
        ensures version { (v : Version) → result ≡ Ok (Some v) → self.new.version ≡ Some v }
        ensures names { self.new.names ≡ self.old.names }
        ensures starved { OnErr result (IsStarved self.new) }
        ensures none { result ≡ Ok None → AtEnd (inputs_ahead self.new (S.left source.new)) (bad_ahead self.new (S.left source.new)) (Some 0) }
        ensures inputs { inputs_ahead self.new (S.left source.new) ≡ inputs_ahead self.old (S.left source.old) }
        ensures bad { bad_ahead self.new (S.left source.new) ≡ bad_ahead self.old (S.left source.old) }
        ensures went { Went self.old self.new (S.left source.old) (S.left source.new) }
        ensures cause { HasCause (S.faults source.old) (S.faults source.new) result }
        ensures quiet { OnOk result (S.faults source.new ≡ S.faults source.old) }
    {
        if let Some(version) = self.version {
            return Ok(Some(version));
        }
        let Some(version) = find_header(&mut self.window, source)? else {
            return Ok(None);
        };
        self.pass_header(version);
        Ok(Some(version))
    }

    /// Goes past the first entry, which is held, and gives it.
    fn pass_entry(&mut self, version: Version, first: First) -> Input
        requires version { self.old.version ≡ Some version }
        requires first { IsFirst version self.old.names self.old.buffered first }
        ensures some { is_end result.what ≡ false }
        ensures inputs { (left : Option (List ℕ)) → inputs_ahead self.old left ≡ option_map (λ rest. record { input = result; names = self.new.names } ∷ rest) (inputs_ahead self.new left) }
        ensures bad { (left : Option (List ℕ)) → bad_ahead self.new left ≡ bad_ahead self.old left }
        ensures went { (left : Option (List ℕ)) → Went self.old self.new left left }
    {
        let First {
            input,
            session,
            size,
        } = first;
        self.window.let_go(size);
        self.place = self.place.saturating_add(size as u64);
        rename(&mut self.names, session, &input.what);
        input
    }

    /// The next entry after the header of this version, or the end of the inputs.
    fn next_entry<S: Source>(
        &mut self,
        version: Version,
        source: &mut S,
    ) -> Result<Input, NextError>
        requires { self.old.version ≡ Some version }
        ensures given { NextGives (inputs_ahead self.old (S.left source.old)) (inputs_ahead self.new (S.left source.new)) (bad_ahead self.old (S.left source.old)) self.new.names result }
        ensures names { NamesStay self.old.names self.new.names result }
        ensures bad { bad_ahead self.new (S.left source.new) ≡ bad_ahead self.old (S.left source.old) }
        ensures went { Went self.old self.new (S.left source.old) (S.left source.new) }
        ensures count { S.faults source.old ≤ S.faults source.new }
        ensures cause { OnNextFailed result (Rose (S.faults source.old) (S.faults source.new)) }
        ensures quiet { ButNextFailed result (S.faults source.new ≡ S.faults source.old) }
        ensures starved { OnNextFailed result (IsStarved self.new) }
    {
        match find_entry(self.alloc, version, &self.names, &mut self.window, source) {
            Ok(Some(first)) => Ok(self.pass_entry(version, first)),
            Ok(None) => {
                if self.buffered_count() == 0 {
                    return Ok(Input::the_end());
                }
                Err(NextError::Bad(self.place))
            }
            Err(error) => Err(error),
        }
    }

    /// The next input, or their end. It answers `Bad` where no input is left and there is a bad place, `Failed` where
    /// the source failed, and `Memory` where there is none for the input; the inputs left are then as before. A whole
    /// entry that is held is given without a further take.
    pub(crate) fn next<S: Source>(&mut self, source: &mut S) -> Result<Input, NextError>
        ensures given { NextGives (inputs_ahead self.old (S.left source.old)) (inputs_ahead self.new (S.left source.new)) (bad_ahead self.old (S.left source.old)) self.new.names result }
        ensures names { NamesStay self.old.names self.new.names result }
        ensures bad { bad_ahead self.new (S.left source.new) ≡ bad_ahead self.old (S.left source.old) }
        ensures went { Went self.old self.new (S.left source.old) (S.left source.new) }
        ensures count { S.faults source.old ≤ S.faults source.new }
        ensures cause { OnNextFailed result (Rose (S.faults source.old) (S.faults source.new)) }
        ensures quiet { ButNextFailed result (S.faults source.new ≡ S.faults source.old) }
        ensures starved { OnNextFailed result (IsStarved self.new) }
    {
        match self.head(source) {
            Ok(Some(version)) => self.next_entry(version, source),
            Ok(None) => Err(NextError::Bad(0)),
            Err(Failed) => Err(NextError::Failed),
        }
    }
}
