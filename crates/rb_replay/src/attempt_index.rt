ghost use Rattle.std.specs.Prelude.{◌≡◌, ◌≤◌, ◌∷◌, [], None, IfOk, OnOk, IfSome, IfNone};
ghost use Rattle.std.specs.List.{find, list_any};
ghost use Rattle.rb_queue.specs.Bag.{Bag, bag_from};
ghost use Rattle.rb_replay.specs.Links.{Past, is_attempt};
ghost use Rattle.rb_replay.specs.AttemptIndex.{next_id_of, offer_of, element_of, begun, given_first, Recalls, IsNext};
ghost use Rattle.rb_replay.specs.AttemptIndex.{IsPlaceOf, MarksRetry, Keeps, KeepsOpened, KeepsOffer, KeepsGiven};

use crate::attempt::Attempt;
use crate::offered_element::OfferedElement;
use rb_delayed::Element;
use rb_queue::{Act, Opening};
use std::alloc::{AllocError, Global};
use std::collections::{BTreeMap, BTreeSet};

/// What the events so far say about the jobs.
///
/// Most elements are offered as a job's first attempt. Such an element is at the place of its id, and
/// needs no entry in a map.
#[derive(Drop)]
pub(crate) struct AttemptIndex {
    /// The elements that were there at the start, by their ids.
    opened: BTreeMap<u64, Element>,
    /// The id of the first element that was offered.
    first_id: u64,
    /// The elements that were offered. Their ids follow one another.
    offers: Vec<OfferedElement>,
    /// The attempts, other than first ones, of which an element was offered or there at the start.
    offered: BTreeSet<Attempt>,
    /// For each attempt, the element of it that was given first, unless an offer is marked as that one.
    given: BTreeMap<Attempt, Element>,
}

impl AttemptIndex {
    /// What the opening of a run says about the jobs.
    pub(crate) fn new_from(alloc: Global, opening: &Opening) -> Result<AttemptIndex, AllocError>
        ensures recalls { IfOk result (Recalls (bag_from opening.now.elements)
            (record { offers = opening.now.elements; given = [] })) }
        ensures next_id { IfOk result (λ attempts. next_id_of attempts ≡ opening.now.next_id) }
    {
        let mut attempts = AttemptIndex {
            opened: BTreeMap::new(alloc),
            first_id: opening.next_id,
            offers: Vec::new(alloc),
            offered: BTreeSet::new(alloc),
            given: BTreeMap::new(alloc),
        };
        for element in opening.elements.as_slice() {
            attempts.keep_opened(element)?;
        }
        Ok(attempts)
    }

    /// Whether an element of the attempt, which is not a first one, was offered or there at the start.
    pub(crate) fn is_offered(&self, attempt: Attempt) -> bool
        requires { 2 ≤ attempt.number }
        ensures { (came : Bag) (past : Past) → Recalls came past self.now
            → result ≡ list_any (is_attempt attempt.origin attempt.number) past.offers }
    {
        self.offered.contains(&attempt)
    }

    /// The element of the attempt that was given first, if any was given.
    pub(crate) fn first_given(&self, attempt: Attempt) -> Option<Element>
        ensures first { result ≡ given_first self.now attempt }
        ensures found { (came : Bag) (past : Past) → Recalls came past self.now
            → result ≡ find (is_attempt attempt.origin attempt.number) past.given }
    {
        match self.first_begun(attempt) {
            Some(element) => Some(element),
            None => self.given.get(&attempt).copied(),
        }
    }

    /// Adds what an event did. It requires that an offered element has the next id. `Err` means that there
    /// was not enough memory; the index may then have a part of it.
    pub(crate) fn keep(&mut self, act: &Act) -> Result<(), AllocError>
        requires { IsNext act.now self.old }
        ensures { OnOk result (Keeps act.now self.old self.new) }
    {
        match act {
            Act::Offer(element) => self.keep_offer(element),
            Act::Poll(Some(id)) | Act::Take(id) | Act::PollFor { got: Some(id), .. } => {
                self.keep_given(*id)
            }
            Act::Drain { ids, .. } => self.keep_all_given(ids.as_slice()),
            _ => Ok(()),
        }
    }

    // Adds an element that was there at the start. None has been offered yet.
    fn keep_opened(&mut self, element: &Element) -> Result<(), AllocError>
        requires { self.old.offers.items ≡ [] }
        ensures { OnOk result (KeepsOpened element.now self.old self.new) }
    {
        self.opened.insert(element.id, *element)?;
        mark_retry(&mut self.offered, Attempt::of(element))
    }

    // Adds an element that was offered.
    fn keep_offer(&mut self, element: &Element) -> Result<(), AllocError>
        requires { element.now.id ≡ next_id_of self.old }
        ensures { OnOk result (KeepsOffer element.now self.old self.new) }
    {
        self.offers.push(OfferedElement {
            element: *element,
            is_given_first: false,
        })?;
        mark_retry(&mut self.offered, Attempt::of(element))
    }

    // Adds that the elements of these ids were given, one after the other.
    fn keep_all_given(&mut self, ids: &[u64]) -> Result<(), AllocError>
        ensures { OnOk result (KeepsGiven ids.now self.old self.new) }
    {
        for id in ids {
            self.keep_given(*id)?;
        }
        Ok(())
    }

    // Adds that the element of the id was given, unless one of its attempt was given before.
    fn keep_given(&mut self, id: u64) -> Result<(), AllocError>
        ensures { OnOk result (KeepsGiven (id ∷ []) self.old self.new) }
    {
        let Some(element) = self.element(id) else {
            return Ok(());
        };
        let attempt = Attempt::of(&element);
        if self.first_given(attempt).is_some() {
            return Ok(());
        }
        match self.place_of(id) {
            Some(place) if attempt.number == 1 && attempt.origin == id => {
                self.offers[place].is_given_first = true;
            }
            _ => {
                self.given.insert(attempt, element)?;
            }
        }
        Ok(())
    }

    // The element of the id, if one came in.
    fn element(&self, id: u64) -> Option<Element>
        ensures { result ≡ element_of self.now id }
    {
        match self.place_of(id) {
            Some(place) => Some(self.offers[place].element),
            None => self.opened.get(&id).copied(),
        }
    }

    // The element of the attempt, if it is the first attempt of its own job and was given first.
    fn first_begun(&self, attempt: Attempt) -> Option<Element>
        ensures { result ≡ begun self.now attempt }
    {
        if attempt.number != 1 {
            return None;
        }
        let offer = &self.offers[self.place_of(attempt.origin)?];
        offer.is_given_first.then_some(offer.element)
    }

    // The place of the offer that has the id.
    fn place_of(&self, id: u64) -> Option<usize>
        ensures some { IfSome result (IsPlaceOf self.now id) }
        ensures none { IfNone result (offer_of self.now id ≡ None) }
    {
        if id < self.first_id {
            return None;
        }
        let place = (id - self.first_id) as usize;
        if place >= self.offers.len() {
            return None;
        }
        Some(place)
    }
}

// Marks an attempt that was offered or there at the start, if it is a retry. A first attempt needs no mark.
fn mark_retry(offered: &mut BTreeSet<Attempt>, attempt: Attempt) -> Result<(), AllocError>
    ensures { OnOk result (MarksRetry attempt offered.old offered.new) }
{
    if attempt.number >= 2 {
        offered.insert(attempt)?;
    }
    Ok(())
}
