//! Bytes that came out of the machine, kept with their turns while earlier states are looked at.

ghost use Rattle.std.specs.Prelude.{◌≡◌, ◌+◌, ◌-◌, ◌≤◌, ◌<◌, ◌++◌, ◌∷◌, [], drop, length, take};
ghost use Rattle.std.specs.Prelude.{min, nat_lt, option_to_list, true, false, OnErr, OnOk};
ghost use Rattle.std.specs.Vec.{vec_capacity, vec_len};
ghost use Rattle.pdp_cpu.specs.KeptTexts.{kept_before, kept_over, put_over, without_turns};

use pdp_word::NoMemory;
use std::alloc::Global;
use std::marker::Model;

/// A byte that came out of the machine, and the turn in which it did.
#[derive(Clone, Copy, Debug, PartialEq, Eq)]
pub struct KeptByte {
    pub byte: u8,
    /// Counted from 0 at power-up.
    pub turn: u32,
}

/// The bytes that came out of the machine up to the latest turn that is kept, of which the first
/// are those of the machine as it is now.
#[derive(Drop)]
pub struct KeptText {
    bytes: Vec<KeptByte>,

    /// How many of them came out of the machine as it is now.
    shown: usize,
}

impl Model for KeptText {
    ghost use Rattle.std.specs.Prelude.{◌-◌, ◌≤◌, length, take};
    ghost use Rattle.std.specs.Vec.{vec_capacity, vec_len};
    ghost use Rattle.pdp_cpu.specs.KeptTexts.{Kept, without_turns};

    ghost Value = { Kept };

    ghost view = { λ t. record {
      bytes = t.bytes.items;
      text = without_turns
          (take t.shown t.bytes.items);
      room = vec_capacity t.bytes - vec_len t.bytes;
    } };

    ghost invariant = { λ t. t.shown ≤ length t.bytes.items };
}

impl KeptText {
    /// Without any byte.
    pub fn new(alloc: Global) -> Self
        ensures bytes { result.bytes ≡ [] }
        ensures text { result.text ≡ [] }
    {
        KeptText {
            bytes: Vec::new(alloc),
            shown: 0,
        }
    }

    /// Whether there is room for one more byte.
    #[inline(always)]
    pub fn has_room(&self) -> bool
        ensures { result ≡ nat_lt 0 self.now.room }
    {
        self.bytes.len() < self.bytes.capacity()
    }

    /// Makes room for one more byte.
    ///
    /// Err(NoMemory) if the memory was refused.
    pub fn make_room(&mut self) -> Result<(), NoMemory>
        ensures room { OnOk result (0 < self.new.room) }
        ensures bytes { self.new.bytes ≡ self.old.bytes }
        ensures text { self.new.text ≡ self.old.text }
    {
        self.bytes.reserve(1)?;
        Ok(())
    }

    /// Keeps the byte that came out in this turn, if any: over the one that is kept in its place,
    /// if there is one.
    #[tactic(auto, using(crate::proofs::Rules::longer_texts))]
    pub fn keep(&mut self, turn: u32, byte: Option<u8>)
        requires { 0 < self.old.room }
        ensures bytes { self.new.bytes ≡ kept_over turn (option_to_list byte)
            (length self.old.text) self.old.bytes }
        ensures text { self.new.text ≡ self.old.text ++ option_to_list byte }
    {
        if let Some(byte) = byte {
            put(&mut self.bytes, self.shown, KeptByte { byte, turn });
            self.shown += 1;
        }
    }

    /// The bytes that came out of the machine as it is now, in their order, with their turns.
    #[tactic(auto, using(crate::proofs::KeptTexts::shown_is))]
    pub fn shown(&self) -> &[KeptByte]
        ensures bytes { result.now ≡ take (length self.now.text) self.now.bytes }
        ensures text { without_turns result.now ≡ self.now.text }
    {
        &self.bytes[..self.shown]
    }

    /// How many bytes came out of the machine as it is now.
    #[tactic(auto, using(crate::proofs::KeptTexts::count_is))]
    pub fn count(&self) -> usize
        ensures { result ≡ length self.now.text }
    {
        self.shown
    }

    /// The machine is now one out of which the first `count` of the bytes came.
    pub fn show(&mut self, count: usize)
        requires { count ≤ length self.old.bytes }
        ensures bytes { self.new.bytes ≡ self.old.bytes }
        ensures text { self.new.text ≡ without_turns (take count self.old.bytes) }
        ensures room { self.new.room ≡ self.old.room }
    {
        self.shown = count;
    }

    /// The machine is now one out of which `more` further bytes of those that are kept came.
    pub fn show_more(&mut self, more: usize)
        requires { length self.old.text + more ≤ length self.old.bytes }
        ensures bytes { self.new.bytes ≡ self.old.bytes }
        ensures text { self.new.text
            ≡ without_turns (take (length self.old.text + more) self.old.bytes) }
    {
        // This read gives the prover the range of the sum.
        let _kept = self.bytes.len();
        let count = self.count();
        self.show(count + more);
    }

    /// All bytes that are kept.
    #[tactic(auto, using(crate::proofs::KeptTexts::text_within))]
    pub fn all(&self) -> &[KeptByte]
        ensures all { result.now ≡ self.now.bytes }
        ensures text { length self.now.text ≤ length result.now }
    {
        &self.bytes
    }

    /// How many of the bytes are left if those at the end that came out in this turn or later are
    /// dropped.
    pub fn count_before(&self, turn: u32) -> usize
        ensures count { result ≡ length (kept_before turn self.now.bytes) }
        ensures within { result ≤ length self.now.bytes }
    {
        kept_length(&self.bytes, turn)
    }

    /// Keeps these bytes too, after all others. They came out of a later machine.
    ///
    /// Err(NoMemory) if memory was refused. The bytes stay as they are then.
    pub fn add(&mut self, more: &[KeptByte]) -> Result<(), NoMemory>
        ensures bytes { OnOk result (self.new.bytes ≡ self.old.bytes ++ more.now) }
        ensures text { self.new.text ≡ self.old.text }
        ensures refused { OnErr result (self.new.bytes ≡ self.old.bytes) }
    {
        self.bytes.extend_from_slice(more)?;
        Ok(())
    }

    /// Drops the bytes after the first `count`, none of which came out of the machine as it is now.
    pub fn keep_first(&mut self, count: usize)
        requires { length self.old.text ≤ count }
        ensures bytes { self.new.bytes ≡ take count self.old.bytes }
        ensures text { self.new.text ≡ self.old.text }
    {
        self.bytes.truncate(count);
    }

    /// Drops the bytes at the end that came out in this turn or later.
    #[tactic(auto, using(crate::proofs::Rules::shorter_texts))]
    pub fn keep_before(&mut self, turn: u32)
        ensures bytes { self.new.bytes ≡ kept_before turn self.old.bytes }
        ensures text { self.new.text ≡ take (length self.new.bytes) self.old.text }
    {
        let kept = kept_length(&self.bytes, turn);
        self.bytes.truncate(kept);
        self.shown = self.shown.min(kept);
    }
}

/// Puts the byte in this place, over the one that is there, or last.
#[tactic(auto, using(crate::proofs::KeptTexts::over_one, crate::proofs::KeptTexts::after_all))]
fn put(bytes: &mut Vec<KeptByte>, place: usize, byte: KeptByte)
    requires room { vec_len bytes.old < vec_capacity bytes.old }
    requires within { place ≤ length bytes.old.items }
    ensures { bytes.new.items ≡ put_over place byte bytes.old.items }
{
    match bytes.get_mut(place) {
        Some(old) => *old = byte,
        None => {
            // it never fails: there is room, as the contract requires
            let _ = bytes.push(byte);
        }
    }
}

/// How many of the bytes are left when those at the end that came out in this turn or later are
/// dropped.
fn kept_length(bytes: &[KeptByte], turn: u32) -> usize
    ensures kept { take result bytes.now ≡ kept_before turn bytes.now }
    ensures within { result ≤ length bytes.now }
{
    let mut kept = bytes.len();
    while ends_late(bytes, kept, turn) {
        kept -= 1;
    }
    kept
}

/// Whether the last of the first `count` bytes came out in this turn or later.
#[tactic(auto, using(crate::proofs::KeptTexts::late_goes, crate::proofs::KeptTexts::early_stays))]
fn ends_late(bytes: &[KeptByte], count: usize, turn: u32) -> bool
    requires { count ≤ length bytes.now }
    ensures some { result ≡ true → 0 < count }
    ensures late { result ≡ true → kept_before turn (take (count - 1) bytes.now) ≡ kept_before turn
        (take count bytes.now) }
    ensures early { result ≡ false → take count bytes.now ≡ kept_before turn
        (take count bytes.now) }
{
    if count == 0 {
        return false;
    }
    bytes[count - 1].turn >= turn
}
