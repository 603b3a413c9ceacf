ghost use Rattle.std.specs.Prelude.{◌≡◌, ◌+◌, ◌-◌, ◌<◌, ◌≤◌, ◌↔◌, ◌++◌, ℕ, length, slice_index, slice_set, Contains, IfOk, IsTrue, OnOk, IsPermutation, MatchBool};
ghost use Rattle.mdv_tab.specs.Making.{IsGraph, IsLeft, IsFree, IsBound, IsCounted, IsSeen, IsSoFar, IsQueued, IsQueuedBut, IsTaken, IsRest, MakesOne, AreMade, IsEach, NeedsIn};
ghost use Rattle.mdv_tab.specs.Making.{IsFirstAwaited, IsPassed, count_name, count_of, name_count, makers_of, users_at};
ghost use Rattle.mdv_tab.specs.Order.{IsNext, IsOrder};

use crate::graph::{Graph, Place};
use crate::queue::Queue;
use std::alloc::{AllocError, Global};

// Whether another place than this one, which makes the first name or none, is left to make the name.
fn is_awaited(makes: Option<u32>, left: &[u32], name: u32) -> bool
    requires { name < length left.now }
    ensures { IsTrue result ↔ (count_name makes name < slice_index left.now name) }
{
    let own = match makes {
        Some(made) if made == name => 1,
        _ => 0,
    };
    own < left[name as usize]
}

// The index, not below `from`, of the first of a place's names that is awaited, or the end.
fn first_awaited(place: &Place, left: &[u32], from: usize) -> usize
    requires { (x : ℕ) → Contains place.now.stands.items x → x < length left.now }
    ensures { IsFirstAwaited place.now left.now from result }
{
    for k in from..place.stands.len() {
        if is_awaited(place.makes, left, place.stands[k]) {
            return k;
        }
    }
    place.stands.len()
}

// Whether the place isn't made yet, and stands on no name that another place is to make. The names
// that it is found not to wait for are passed.
fn is_free(graph: &Graph, made: &[bool], left: &[u32], seen: &mut [usize], place: u32) -> bool
    requires graph { IsGraph graph.now }
    requires counted { IsCounted graph.now made.now left.now }
    requires seen { IsSeen graph.now made.now seen.old }
    requires within { place < count_of graph.now }
    ensures free { MatchBool result (IsFree graph.now made.now place)
        (IsLeft made.now place → IsBound graph.now made.now place) }
    ensures seen { IsSeen graph.now made.now seen.new }
{
    let at = place as usize;
    if made[at] {
        return false;
    }
    let passed = first_awaited(&graph.places[at], left, seen[at]);
    seen[at] = passed;
    passed == graph.places[at].stands.len()
}

// Takes the first free place from the queue, and in front of it those that aren't free.
fn take_free(
    graph: &Graph,
    made: &[bool],
    left: &[u32],
    seen: &mut [usize],
    queue: &mut Queue,
) -> Option<u32>
    requires graph { IsGraph graph.now }
    requires counted { IsCounted graph.now made.now left.now }
    requires seen { IsSeen graph.now made.now seen.old }
    requires queued { IsQueued graph.now made.now queue.old }
    ensures taken { IsTaken graph.now made.now result }
    ensures rest { IsRest graph.now made.now queue.new result }
    ensures seen { IsSeen graph.now made.now seen.new }
{
    while let Some(place) = queue.pop() {
        if is_free(graph, made, left, seen, place) {
            return Some(place);
        }
    }
    None
}

// Adds the places to the queue.
fn add_all(queue: &mut Queue, places: &[u32]) -> Result<(), AllocError>
    ensures { OnOk result (IsPermutation (queue.old ++ places.now) queue.new) }
{
    for place in places {
        queue.push(*place)?;
    }
    Ok(())
}

// Each place is in the queue.
fn all_places(alloc: Global, count: u32) -> Result<Queue, AllocError>
    ensures { IfOk result (λ q. IsEach q count) }
{
    let mut queue = Queue::new(alloc);
    for place in 0..count {
        queue.push(place)?;
    }
    Ok(queue)
}

// Of each name how many places make it.
fn count_makers(alloc: Global, graph: &Graph) -> Result<Vec<u32>, AllocError>
    requires graph { IsGraph graph.now }
    requires few { count_of graph.now ≤ 1024 }
    ensures names { IfOk result (λ v. length v.items ≡ name_count graph.now) }
    ensures each { IfOk result (λ v. (x : ℕ) → x < name_count graph.now → slice_index v.items x ≡ makers_of graph.now x) }
{
    let mut left = vec![in alloc; 0; graph.users.len()]?;
    for place in &graph.places {
        if let Some(name) = place.makes {
            left[name as usize] += 1;
        }
    }
    Ok(left)
}

// One place fewer is left to make the name. Where it was the last, or the last but one, which may
// stand on the name itself, all that stand on it are queued.
fn pass(graph: &Graph, left: &mut [u32], queue: &mut Queue, name: u32) -> Result<(), AllocError>
    requires same { length left.old ≡ name_count graph.now }
    requires within { name < name_count graph.now }
    requires some { 0 < slice_index left.old name }
    ensures left { OnOk result (left.new ≡ slice_set left.old name (slice_index left.old name - 1)) }
    ensures queue { OnOk result (IsPassed (users_at graph.now name) (slice_index left.new name) queue.old queue.new) }
{
    let at = name as usize;
    left[at] -= 1;
    if left[at] > 1 {
        return Ok(());
    }
    add_all(queue, graph.users[at].as_slice())
}

// What is made so far.
#[derive(Drop)]
pub(crate) struct Making {
    // Of each place whether it is made.
    made: Vec<bool>,
    // Of each name how many places that make it are left.
    left: Vec<u32>,
    // Of each place how many of its names were found not to be waited for.
    seen: Vec<usize>,
    // Each place that is left and doesn't wait stands in it.
    queue: Queue,
    order: Vec<u32>,
}

impl Making {
    // Nothing is made.
    fn new(alloc: Global, graph: &Graph) -> Result<Self, AllocError>
        requires graph { IsGraph graph.now }
        requires few { count_of graph.now ≤ 1024 }
        ensures far { IfOk result (λ m. IsSoFar graph.now m) }
        ensures queued { IfOk result (λ m. IsQueued graph.now m.made.items m.queue) }
    {
        let count = graph.places.len();
        Ok(Making {
            made: vec![in alloc; false; count]?,
            left: count_makers(alloc, graph)?,
            seen: vec![in alloc; 0; count]?,
            queue: all_places(alloc, count as u32)?,
            order: Vec::new(alloc),
        })
    }

    fn make(&mut self, graph: &Graph, place: u32) -> Result<(), AllocError>
        requires graph { IsGraph graph.now }
        requires far { IsSoFar graph.now self.old }
        requires next { IsNext (NeedsIn graph.now) (count_of graph.now) self.old.order.items place }
        requires queued { IsQueuedBut graph.now self.old.made.items self.old.queue place }
        ensures far { OnOk result (IsSoFar graph.now self.new) }
        ensures queued { OnOk result (IsQueued graph.now self.new.made.items self.new.queue) }
        ensures one { OnOk result (MakesOne self.old.made.items self.new.made.items) }
    {
        let at = place as usize;
        self.made[at] = true;
        self.order.push(place)?;
        match graph.places[at].makes {
            Some(name) => pass(graph, self.left.as_mut_slice(), &mut self.queue, name),
            None => Ok(()),
        }
    }

    // Makes the first free place, or this first one where none is free.
    fn make_next(&mut self, graph: &Graph, first: u32) -> Result<(), AllocError>
        requires graph { IsGraph graph.now }
        requires far { IsSoFar graph.now self.old }
        requires queued { IsQueued graph.now self.old.made.items self.old.queue }
        requires left { IsLeft self.old.made.items first }
        requires before { AreMade self.old.made.items first }
        ensures far { OnOk result (IsSoFar graph.now self.new) }
        ensures queued { OnOk result (IsQueued graph.now self.new.made.items self.new.queue) }
        ensures one { OnOk result (MakesOne self.old.made.items self.new.made.items) }
    {
        let place = match take_free(
            graph,
            self.made.as_slice(),
            self.left.as_slice(),
            self.seen.as_mut_slice(),
            &mut self.queue,
        ) {
            Some(place) => place,
            None => first,
        };
        self.make(graph, place)
    }

    // Makes places until this one is made.
    fn reach(&mut self, graph: &Graph, first: u32) -> Result<(), AllocError>
        requires graph { IsGraph graph.now }
        requires far { IsSoFar graph.now self.old }
        requires queued { IsQueued graph.now self.old.made.items self.old.queue }
        requires within { first < length self.old.made.items }
        requires before { AreMade self.old.made.items first }
        ensures far { OnOk result (IsSoFar graph.now self.new) }
        ensures queued { OnOk result (IsQueued graph.now self.new.made.items self.new.queue) }
        ensures made { OnOk result (AreMade self.new.made.items (first + 1)) }
    {
        while !self.made[first as usize] {
            self.make_next(graph, first)?;
        }
        Ok(())
    }
}

// The order in which the places are made.
pub(crate) fn order_of(alloc: Global, graph: &Graph) -> Result<Vec<u32>, AllocError>
    requires graph { IsGraph graph.now }
    requires few { count_of graph.now ≤ 1024 }
    ensures { IfOk result (λ v. IsOrder (NeedsIn graph.now) (count_of graph.now) v.items) }
{
    let count = graph.places.len() as u32;
    let mut making = Making::new(alloc, graph)?;
    for first in 0..count {
        making.reach(graph, first)?;
    }
    Ok(making.order)
}
