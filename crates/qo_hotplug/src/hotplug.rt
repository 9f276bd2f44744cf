//! The removals that are pending, and the notices that wait for the guest.

ghost use Rattle.std.specs.Prelude.{◌≡◌, ◌≤◌, ◌==◌, ◌||◌, not, filter};
ghost use Rattle.std.specs.List.{list_any};
ghost use Rattle.std.specs.Vec.{vec_len, vec_capacity};
ghost use Rattle.std.specs.Prelude.{◌&&◌, ◌+◌, map, nat_lt};
ghost use Rattle.qo_values.specs.declared.limits.TheConstants.{ASK_AGAIN_AFTER};
ghost use Rattle.qo_model.specs.Board.{Removal as Pending, is_of_device};
ghost use Rattle.qo_model.specs.Hotplug.{asked_at};
ghost use Rattle.qo_model.specs.Unplug.{without_removal};

use crate::errors::{AskError, NotPending, NoticesFull};
use crate::notices::Notice;
use crate::removals::Removal;
use qo_slots::Key as Oid;
use qo_values::{LIVE_OBJECTS_MAX, NOTICES_MAX};
use std::alloc::{AllocError, Global};
use std::marker::Model;

/// Removals that are pending, at most.
const PENDING: usize = LIVE_OBJECTS_MAX as usize;

/// Notices that wait, at most.
const NOTICES: usize = NOTICES_MAX as usize;

/// The devices whose removal is pending, in the order of the first asking, and the notices that wait for the
/// guest, in theirs (include/hw/hotplug.h). Keys may dangle: contracts see births alone. All room
/// is taken by `new`.
#[derive(Drop)]
pub struct Hotplug {
    pending: Vec<Removal>,
    notices: Vec<Notice>,
}

impl Model for Hotplug {
    ghost use Rattle.std.specs.Prelude.{◌≤◌};
    ghost use Rattle.std.specs.Vec.{vec_len, vec_capacity};
    ghost use Rattle.qo_values.specs.declared.limits.TheConstants.{LIVE_OBJECTS_MAX, NOTICES_MAX};
    ghost use Rattle.qo_hotplug.specs.Hotplug.{Asked};

    ghost Value = { Asked };

    ghost view = { λ h. record { pending = h.pending.items; notices = h.notices.items } };

    ghost invariant = { λ h. (LIVE_OBJECTS_MAX ≤ vec_capacity h.pending) × (NOTICES_MAX ≤ vec_capacity h.notices) × (vec_len h.notices ≤ NOTICES_MAX) };
}

/// A device's removals are taken out of those that are pending.
fn drop_pending(pending: &mut Vec<Removal>, device: Oid)
    ensures items { pending.new.items ≡ without_removal device.birth pending.old.items }
    ensures capacity { vec_capacity pending.new ≡ vec_capacity pending.old }
{
    pending.retain(|removal| removal.device().birth != device.birth);
}

/// The notices that the removal of a device is asked for are taken out.
fn drop_unplugs(notices: &mut Vec<Notice>, device: Oid)
    ensures items { notices.new.items ≡ filter (λ x. x.plug || not (x.birth == device.birth)) notices.old.items }
    ensures capacity { vec_capacity notices.new ≡ vec_capacity notices.old }
    ensures bound { vec_len notices.new ≤ vec_len notices.old }
{
    notices.retain(|notice| notice.is_plug() || notice.device().birth != device.birth);
}

/// All notices of a device are taken out.
fn drop_notices(notices: &mut Vec<Notice>, device: Oid)
    ensures items { notices.new.items ≡ filter (λ x. not (x.birth == device.birth)) notices.old.items }
    ensures capacity { vec_capacity notices.new ≡ vec_capacity notices.old }
    ensures bound { vec_len notices.new ≤ vec_len notices.old }
{
    notices.retain(|notice| notice.device().birth != device.birth);
}

/// Whether the removal of a device is among some.
fn is_among(removals: &[Removal], device: Oid) -> bool
    ensures { result ≡ list_any (is_of_device device.birth) removals.now }
{
    removals.iter().any(|removal| removal.is_of(device))
}

/// Whether the removal of a device is among some and was asked for less than `ASK_AGAIN_AFTER` ns before a moment.
fn is_early(removals: &[Removal], device: Oid, now: u64) -> bool
    ensures { result ≡ list_any (λ (r : Pending). is_of_device device.birth r && nat_lt now (r.asked + ASK_AGAIN_AFTER)) removals.now }
{
    removals
        .iter()
        .any(|removal| removal.is_of(device) && removal.is_early(now))
}

/// The removal of a device among some is asked for again.
fn ask_again(removals: &mut Vec<Removal>, device: Oid, now: u64)
    ensures items { removals.new.items ≡ map (asked_at device.birth now) removals.old.items }
    ensures capacity { vec_capacity removals.new ≡ vec_capacity removals.old }
{
    for at in 0..removals.len() {
        removals[at].ask_again(device, now);
    }
}

impl Hotplug {
    ghost use Rattle.std.specs.Prelude.{◌<◌, ◌⊎◌, ◌↔◌, true, None, Some, IfOk, IfErr, OnOk, OnErr, IsErr, is_ok, option_map, slice_get, length};
    ghost use Rattle.qo_values.specs.declared.limits.TheConstants.{LIVE_OBJECTS_MAX, NOTICES_MAX};
    ghost use Rattle.qo_hotplug.specs.Hotplug.{nothing_asked, notified, asked, ask_refusal, refused, gone, first_notice, after_first, is_among};

    /// Nothing is pending and nothing waits. All room is taken here; no other call takes memory.
    pub fn new(alloc: Global) -> Result<Hotplug, AllocError>
        ensures { IfOk result (λ h. h ≡ nothing_asked) }
    {
        Ok(Hotplug {
            pending: Vec::with_capacity(alloc, PENDING)?,
            notices: Vec::with_capacity(alloc, NOTICES)?,
        })
    }

    /// The guest is told that a device was plugged in, unless the notices are full. It takes no
    /// memory.
    pub fn plug(&mut self, device: Oid) -> Result<(), NoticesFull>
        ensures full { IsErr result ↔ (NOTICES_MAX ≤ length self.old.notices) }
        ensures ok { OnOk result (self.new ≡ notified true device.birth self.old) }
        ensures err { OnErr result (self.new ≡ self.old) }
    {
        if self.notices.len() >= NOTICES {
            return Err(NoticesFull);
        }
        self.notices.push_reserved(Notice::plugged(device));
        Ok(())
    }

    /// The removal of a device is asked for at a moment of the virtual time, and the guest is told so. It is refused
    /// where it is pending and was last asked for less than `ASK_AGAIN_AFTER` ns before, and else where the notices are
    /// full. One that is pending keeps its place. It takes no memory.
    pub fn ask(&mut self, device: Oid, now: u64) -> Result<(), AskError>
        requires { (is_among device.birth self.old ≡ true) ⊎ (length self.old.pending < LIVE_OBJECTS_MAX) }
        ensures free { OnOk result (ask_refusal device.birth now self.old ≡ None) }
        ensures ok { OnOk result (self.new ≡ asked device.birth now self.old) }
        ensures refused { IfErr result (λ why. ask_refusal device.birth now self.old ≡ Some why) }
        ensures err { OnErr result (self.new ≡ self.old) }
    {
        if is_early(&self.pending, device, now) {
            return Err(AskError::Pending);
        }
        if self.notices.len() >= NOTICES {
            return Err(AskError::NoticesFull);
        }
        if self.is_pending(device) {
            ask_again(&mut self.pending, device, now);
        } else {
            self.pending.push_reserved(Removal::new(device, now));
        }
        self.notices.push_reserved(Notice::unplug(device));
        Ok(())
    }

    /// The guest lets a device go; this tells whether its removal is pending. That it ends is told by
    /// `gone`. It takes no memory.
    pub fn acked(&self, device: Oid) -> Result<(), NotPending>
        ensures { is_ok result ≡ is_among device.birth self.now }
    {
        if self.is_pending(device) {
            Ok(())
        } else {
            Err(NotPending)
        }
    }

    /// The guest refuses the removal of a device: it is neither pending nor told any more. It is an error
    /// where none is pending. It takes no memory.
    pub fn nacked(&mut self, device: Oid) -> Result<(), NotPending>
        ensures pending { is_ok result ≡ is_among device.birth self.old }
        ensures ok { OnOk result (self.new ≡ refused device.birth self.old) }
        ensures err { OnErr result (self.new ≡ self.old) }
    {
        self.acked(device)?;
        drop_pending(&mut self.pending, device);
        drop_unplugs(&mut self.notices, device);
        Ok(())
    }

    /// The notice that has waited longest, which waits no longer. None where none waits. It takes no
    /// memory.
    pub fn poll(&mut self) -> Option<Notice>
        ensures first { result ≡ first_notice self.old }
        ensures rest { self.new ≡ after_first self.old }
    {
        if self.notices.is_empty() {
            return None;
        }
        Some(self.notices.remove(0))
    }

    /// A device is gone: its removal is not pending any more, and the guest is told nothing of it. It
    /// takes no memory.
    pub fn gone(&mut self, device: Oid)
        ensures { self.new ≡ gone device.birth self.old }
    {
        drop_pending(&mut self.pending, device);
        drop_notices(&mut self.notices, device);
    }

    /// The device whose removal has been pending longest. None where none is. It takes no memory.
    pub fn first_pending(&self) -> Option<Oid>
        ensures { option_map (λ o. o.birth) result ≡ option_map (λ (r : Pending). r.birth) (slice_get self.now.pending 0) }
    {
        let first = self.pending.first()?;
        Some(first.device())
    }

    /// Whether the removal of a device is pending. It takes no memory.
    pub fn is_pending(&self, device: Oid) -> bool
        ensures { result ≡ is_among device.birth self.now }
    {
        is_among(&self.pending, device)
    }

    /// The devices whose removal is pending, in the order of asking. It takes no memory.
    pub fn pending(&self) -> &[Removal]
        ensures { result.now ≡ self.now.pending }
    {
        self.pending.as_slice()
    }

    /// The notices that wait, in their order. It takes no memory.
    pub fn notices(&self) -> &[Notice]
        ensures { result.now ≡ self.now.notices }
    {
        self.notices.as_slice()
    }
}
