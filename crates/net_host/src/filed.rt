//! Places that are filed in an index under their keys.
ghost use Rattle.std.specs.Prelude.{ℕ, ℤ, Bool, ◌≡◌, ◌&&◌, ◌<◌, ◌≤◌, ◌/◌, IfSome, IsSome, length, get_or};
ghost use Rattle.std.specs.Prelude.{min, slice_get, true};
ghost use Rattle.std.specs.Prelude.{None, false, slice_set};
ghost use Rattle.std.specs.List.{All};
ghost use Rattle.net_host.specs.Indexing.{AreFiledBefore, IsIndexed, IsLentAt, IsSettled, KeepsMarks, are_filed};
ghost use Rattle.net_host.specs.Indexing.{is_filed, is_noted, is_noted_of, lent_of, no_keys};
ghost use Rattle.host_index.specs.Entries.{IsFirst, KeepsElsewhere};
ghost use Rattle.host_index.specs.Filing.{SameMemory, places_of};
ghost use Rattle.net_host.specs.Refiling.{IsWhole, StaysWhole, can_file};
ghost use Rattle.host_bounds.specs.Bounding.{at_once, bound_at};
ghost use Rattle.host_bounds.specs.Marking.{Clears, Sets};
ghost use Rattle.net_host.specs.Sleeping.{AreAsleep};
ghost use Rattle.net_host.specs.declared.key.Keys.{Keys};
ghost use Rattle.net_host.specs.declared.terms.Terms.{Terms};

use crate::guard::GuardSettings;
use crate::key::Keys;
use crate::limits::Limits;
use crate::refiling::refile;
use crate::terms::Terms;
use host_bounds::{Bounds, Marks};
use host_index::{Entry, Index};

/// What has keys.
pub trait Keyed {
    ghost keys_of: { Self → Keys };

    // whether it need not be asked before a moment
    ghost sleeps: { Terms → ℤ → Self → Bool };

    /// Under which keys it is filed.
    fn keys(&self) -> Keys
        ensures keys { result ≡ keys_of self.now }
        ensures can { can_file result ≡ true };

    // Whether something is there, which is filed at this place under its keys and no others. Where the answer is no, it
    // says nothing.
    fn is_filed(&self, index: &Index, place: usize) -> bool
        ensures filed { result ≡ true → are_filed index.now.entries place (keys_of self.now) ≡ true }
        ensures there { result ≡ true → (keys_of self.now).free ≡ false };
}

/// Places, and an index of them. One place at a time is lent, and may be changed; it is filed anew before the next use
/// of the index.
#[derive(Drop)]
pub struct Filed<T: Keyed> {
    pub(crate) slots: Vec<T>,
    pub(crate) index: Index,
    // whether each place is filed, but for the one that was lent
    pub(crate) complete: bool,
    // the places where nothing is are marked, but for the one that was lent
    pub(crate) free: Marks,
    pub(crate) lent: Option<usize>,
    // before which moment each place need not be asked, under these terms; the least where it may have changed
    pub(crate) bounds: Bounds,
    pub(crate) terms: Terms,
    // whether the place that was lent is known to be filed and marked as the others
    pub(crate) settled: bool,
    pub ghost indexed: { IsIndexed T.keys_of complete lent slots.items index.entries free },
    pub ghost asleep: { AreAsleep T.sleeps terms bounds slots.items },
    pub ghost as_many: { length bounds ≡ length slots.items },
    // the places whose connection ended within `emit`, until their program lends them
    pub(crate) ended: Marks,
    pub ghost kept: { settled ≡ true → IsSettled T.keys_of complete slots.items index.entries free },
    pub ghost as_marked: { length ended ≡ length free },
    // each of at most 2^30 places is found by its keys
    pub ghost whole: { IsWhole complete (places_of index) (length slots.items) },
}

impl<T: Keyed> Filed<T> {
    ghost use Rattle.std.specs.Borrow.{sem};
    ghost use Rattle.net_host.specs.LendingPlaces.{LendsPlace};

    /// Places without keys, each to be asked at once.
    pub(crate) fn of_free(
        slots: Vec<T>,
        index: Index,
        free: Marks,
        ended: Marks,
        bounds: Bounds,
    ) -> Filed<T>
        requires free { All (λ s. T.keys_of s ≡ no_keys) slots.items }
        requires noted { (k : ℕ) → k < length slots.items → is_noted free k true ≡ true }
        requires as_many { length bounds ≡ length slots.items }
        requires marked { All (λ b. b ≡ at_once) bounds }
        requires as_marked { length ended ≡ length free }
        requires places { places_of index ≡ min (length slots.items) 1073741824 }
        ensures slots { result.slots ≡ slots }
        ensures ended { result.ended ≡ ended }
        ensures index { result.index ≡ index }
        ensures complete { result.complete ≡ true }
    {
        Filed {
            slots,
            index,
            complete: true,
            free,
            lent: None,
            bounds,
            terms: Terms {
                mtu: 0,
                guards: Limits::of(&GuardSettings::off()),
            },
            settled: true,
            ended,
        }
    }

    /// The place that was lent, if one was, is filed as it is now.
    #[inline(always)]
    pub(crate) fn settle(&mut self)
        ensures slots { self.new.slots ≡ self.old.slots }
        ensures whole { StaysWhole self.old.slots.items self.old.complete self.old.index self.new.complete
            self.new.index }
        ensures settled { IsSettled T.keys_of self.new.complete self.new.slots.items self.new.index.entries
            self.new.free }
        ensures terms { self.new.terms ≡ self.old.terms }
        ensures bounds { self.new.bounds ≡ self.old.bounds }
        ensures ended { self.new.ended ≡ self.old.ended }
    {
        if !self.settled {
            self.settle_lent();
        }
    }

    #[inline(never)]
    fn settle_lent(&mut self)
        ensures slots { self.new.slots ≡ self.old.slots }
        ensures whole { StaysWhole self.old.slots.items self.old.complete self.old.index self.new.complete
            self.new.index }
        ensures settled { IsSettled T.keys_of self.new.complete self.new.slots.items self.new.index.entries
            self.new.free }
        ensures terms { self.new.terms ≡ self.old.terms }
        ensures bounds { self.new.bounds ≡ self.old.bounds }
        ensures ended { self.new.ended ≡ self.old.ended }
    {
        if self.is_lent_filed() {
            self.settled = true;
        } else {
            self.file_anew();
        }
    }

    /// Files the borrowed slot before slots under a key are looked for.
    pub(crate) fn settle_for(&mut self, key: Entry)
        ensures slots { self.new.slots ≡ self.old.slots }
        ensures whole { StaysWhole self.old.slots.items self.old.complete self.old.index self.new.complete
            self.new.index }
        ensures settled { IsSettled T.keys_of self.new.complete self.new.slots.items self.new.index.entries
            self.new.free }
        ensures terms { self.new.terms ≡ self.old.terms }
        ensures bounds { self.new.bounds ≡ self.old.bounds }
        ensures ended { self.new.ended ≡ self.old.ended }
    {
        self.settle();
        self.index.seek(key);
    }

    /// The first place under this key, where that is known, once the place that was lent is filed.
    #[inline(always)]
    #[tactic(auto, using(crate::proofs::Places::settled_before))]
    pub(crate) fn known_place(&mut self, key: Entry) -> Option<usize>
        ensures slots { self.new.slots ≡ self.old.slots }
        ensures whole { StaysWhole self.old.slots.items self.old.complete self.old.index self.new.complete
            self.new.index }
        ensures terms { self.new.terms ≡ self.old.terms }
        ensures bounds { self.new.bounds ≡ self.old.bounds }
        ensures ended { self.new.ended ≡ self.old.ended }
        ensures known { IfSome result (λ i. IsFirst self.new.index.entries key i) }
        ensures filed { self.new.complete ≡ true
            → IfSome result (λ i. AreFiledBefore T.keys_of i self.new.slots.items self.new.index.entries) }
    {
        self.settle();
        self.index.known(key)
    }

    // Whether the place that was lent is filed under its keys, as mostly.
    fn is_lent_filed(&self) -> bool
        ensures { result ≡ true → IsSettled T.keys_of self.now.complete self.now.slots.items self.now.index.entries
            self.now.free }
    {
        match self.lent {
            Some(place) => is_filed_at(&self.slots, &self.index, place),
            None => true,
        }
    }

    #[inline(never)]
    fn file_anew(&mut self)
        ensures slots { self.new.slots ≡ self.old.slots }
        ensures whole { StaysWhole self.old.slots.items self.old.complete self.old.index self.new.complete
            self.new.index }
        ensures settled { IsSettled T.keys_of self.new.complete self.new.slots.items self.new.index.entries
            self.new.free }
        ensures terms { self.new.terms ≡ self.old.terms }
        ensures bounds { self.new.bounds ≡ self.old.bounds }
        ensures ended { self.new.ended ≡ self.old.ended }
    {
        if let Some(place) = self.lent {
            let filed = refile_at(&self.slots, &mut self.index, &mut self.free, place);
            self.complete = both(self.complete, filed);
            self.lent = None;
            self.settled = true;
        }
    }

    /// This place may change: it will be filed as it is then, and is to be asked at once.
    #[inline(always)]
    pub fn lend(&mut self, place: usize)
        ensures slots { self.new.slots ≡ self.old.slots }
        ensures whole { StaysWhole self.old.slots.items self.old.complete self.old.index self.new.complete
            self.new.index }
        ensures lent { IsLentAt place (slice_get self.new.slots.items place) self.new.lent }
        ensures marked { bound_at self.new.bounds place ≡ at_once }
        ensures terms { self.new.terms ≡ self.old.terms }
        ensures bounds { self.new.bounds ≡ slice_set self.old.bounds place at_once }
        ensures unsettled { self.new.settled ≡ false }
        ensures ended { self.new.ended ≡ self.old.ended }
    {
        if !self.is_lent(place) {
            self.lend_anew(place);
        }
        self.mark(place);
        self.settled = false;
    }

    // Whether the place is lent already.
    fn is_lent(&self, place: usize) -> bool
        ensures { result ≡ true → IsLentAt place (slice_get self.now.slots.items place) self.now.lent }
    {
        match &self.lent {
            Some(lent) => *lent == place,
            None => false,
        }
    }

    fn lend_anew(&mut self, place: usize)
        ensures slots { self.new.slots ≡ self.old.slots }
        ensures whole { StaysWhole self.old.slots.items self.old.complete self.old.index self.new.complete
            self.new.index }
        ensures lent { IsLentAt place (slice_get self.new.slots.items place) self.new.lent }
        ensures terms { self.new.terms ≡ self.old.terms }
        ensures bounds { self.new.bounds ≡ self.old.bounds }
        ensures ended { self.new.ended ≡ self.old.ended }
    {
        self.settle();
        self.lent = lent_at(&self.slots, place);
        self.settled = false;
    }

    /// The place is to be asked at once.
    pub(crate) fn mark(&mut self, place: usize)
        ensures slots { self.new.slots ≡ self.old.slots }
        ensures same { (self.new.complete ≡ self.old.complete) × (self.new.index ≡ self.old.index) }
        ensures lent { self.new.lent ≡ self.old.lent }
        ensures marked { bound_at self.new.bounds place ≡ at_once }
        ensures terms { self.new.terms ≡ self.old.terms }
        ensures bounds { self.new.bounds ≡ slice_set self.old.bounds place at_once }
        ensures settled { self.new.settled ≡ self.old.settled }
        ensures ended { self.new.ended ≡ self.old.ended }
    {
        self.bounds.put_at_once(place);
    }

    /// This place is lent to its program: it may change, as by `lend`, and no end of its connection is told any more.
    #[inline(always)]
    pub fn lend_out(&mut self, place: usize)
        ensures slots { self.new.slots ≡ self.old.slots }
        ensures lent { IsLentAt place (slice_get self.new.slots.items place) self.new.lent }
        ensures marked { bound_at self.new.bounds place ≡ at_once }
        ensures terms { self.new.terms ≡ self.old.terms }
        ensures bounds { self.new.bounds ≡ slice_set self.old.bounds place at_once }
        ensures unsettled { self.new.settled ≡ false }
        ensures ended { Clears place self.old.ended self.new.ended }
    {
        self.lend(place);
        self.hear_end(place);
    }

    // Its program is told no more that its connection ended.
    #[inline(always)]
    fn hear_end(&mut self, place: usize)
        ensures slots { self.new.slots ≡ self.old.slots }
        ensures lent { self.new.lent ≡ self.old.lent }
        ensures terms { self.new.terms ≡ self.old.terms }
        ensures bounds { self.new.bounds ≡ self.old.bounds }
        ensures settled { self.new.settled ≡ self.old.settled }
        ensures ended { Clears place self.old.ended self.new.ended }
    {
        if self.ended.is_on(place) {
            self.ended.take_off(place);
        }
    }

    /// The connection at this place ended.
    pub(crate) fn tell_end(&mut self, place: usize)
        requires { place < length self.old.slots.items }
        ensures slots { self.new.slots ≡ self.old.slots }
        ensures terms { self.new.terms ≡ self.old.terms }
        ensures bounds { self.new.bounds ≡ self.old.bounds }
        ensures ended { Sets place self.old.ended self.new.ended }
    {
        self.ended.put_on(place);
    }

    /// The places are asked under these terms from now on: all of them at once, where the terms are others than before.
    pub(crate) fn heed(&mut self, mtu: usize, guards: &Limits)
        ensures slots { self.new.slots ≡ self.old.slots }
        ensures terms { self.new.terms ≡ record { mtu = mtu; guards = guards.now } }
        ensures ended { self.new.ended ≡ self.old.ended }
    {
        if !self.terms.are(mtu, guards) {
            self.bounds.reset();
            self.terms = Terms {
                mtu,
                guards: Limits::of(&guards.settings()),
            };
        }
    }

    /// What stands at this place, lent to its program: once it is given back, each other place is as it was.
    pub(crate) fn place_mut(&mut self, place: usize) -> Option<&mut T>
        ensures* writes_back { sem 𝓛 (LendsPlace T.row T.Keyed self.entry place result) }
        ensures there { IsSome result → place < length self.old.slots.items }
        ensures beyond { place < length self.old.slots.items → IsSome result }
        ensures value { IfSome result (λ s. s.now ≡ get_or self.old.slots.items place s.now) }
    {
        self.lend_out(place);
        self.slots.get_mut(place)
    }
}

fn both(a: bool, b: bool) -> bool
    ensures { result ≡ a && b }
{
    a && b
}

fn lent_at<T: Keyed>(slots: &[T], place: usize) -> Option<usize>
    ensures { result ≡ lent_of place (slice_get slots.now place) }
{
    match slots.get(place) {
        Some(_) => Some(place),
        None => None,
    }
}

// Whether what stands at the place is filed.
fn is_filed_at<T: Keyed>(slots: &[T], index: &Index, place: usize) -> bool
    ensures { result ≡ true → IfSome (slice_get slots.now place)
        (λ s. (are_filed index.now.entries place (T.keys_of s) ≡ true) × ((T.keys_of s).free ≡ false)) }
{
    match slots.get(place) {
        Some(slot) => slot.is_filed(index, place),
        None => true,
    }
}

// A place is marked where nothing is there.
fn note(free: &mut Marks, place: usize, is: bool)
    requires { place / 64 < length free.old }
    ensures here { is_noted free.new place is ≡ true }
    ensures kept { KeepsMarks place free.old free.new }
{
    if is {
        free.put_on(place);
    } else {
        free.take_off(place);
    }
}

fn refile_at<T: Keyed>(slots: &[T], index: &mut Index, free: &mut Marks, place: usize) -> bool
    requires { place / 64 < length free.old }
    ensures filed { result ≡ true → is_filed T.keys_of index.new.entries place (slice_get slots.now place) ≡ true }
    ensures whole { length slots.now ≤ places_of index.old → result ≡ true }
    ensures memory { SameMemory index.old index.new }
    ensures others { KeepsElsewhere place index.old.entries index.new.entries }
    ensures noted { is_noted_of T.keys_of free.new place (slice_get slots.now place) ≡ true }
    ensures marks { KeepsMarks place free.old free.new }
{
    match slots.get(place) {
        Some(slot) => {
            let keys = slot.keys();
            note(free, place, keys.free);
            refile(index, place, &keys)
        }
        None => true,
    }
}
