//! The sets of sources over a list of kept flows.
ghost use Rattle.std.specs.Prelude.{◌≡◌, ◌≢◌, ◌↔◌, ◌⊎◌, ◌==◌, ◌+◌, ◌-◌, ◌/◌, ◌^◌, ◌<◌, ◌≤◌, ◌∷◌, ◌++◌, [], ℕ, List, false, true, cond, length, slice_index_or, IfOk, IsTrue, None, OnOk};
ghost use Rattle.std.specs.List.{Contains};
ghost use Rattle.flow_base.specs.declared.types.Flow.{Flow as AFlow};
ghost use Rattle.reach_model.specs.Ids.{IsAscending, numbers};
ghost use Rattle.reach_model.specs.Numbers.{known};
ghost use Rattle.reach_model.specs.SourceSets.{HasSource, IsLater};
ghost use Rattle.reach_model.specs.Sources.{first_at};
ghost use Rattle.reduce_source.specs.Pools.{Adds, Fits};
ghost use Rattle.reduce_source.specs.Shelves.{HasNumber, IsAsWide};
ghost use Rattle.reduce_source.specs.declared.standing.Standing.TheVariants as variant;

use crate::shared::Shared;
use crate::standing::{self, Standing};
use flow_base::{EntityId, Flow, List, NoMemory};
use std::alloc::Global;

/// How many ids there are.
const IDS: usize = 1 << 32;

/// How many sources can have a number.
const NUMBERS: u64 = 1 << 32;

/// The set of the sources of each object, and how many sources there are.
#[derive(Drop)]
pub struct SourceSets {
    shared: Shared,
    standings: Vec<Standing>,
    count: u32,
}

impl SourceSets {
    ghost use Rattle.reduce_source.specs.Sets.{HasRoom, IsBetween, StandsFor, count_after, first_given, standing_of};

    /// The sets of no flows.
    pub fn new(alloc: Global) -> SourceSets
        ensures stands { StandsFor result [] }
        ensures standings { (x : ℕ) → standing_of result x ≡ variant.Unknown }
    {
        SourceSets {
            shared: Shared::new(alloc),
            standings: Vec::new(alloc),
            count: 0,
        }
    }

    /// Whether an object has a flow.
    pub fn is_known(&self, id: EntityId) -> bool
        ensures standing { (result ≡ false) ↔ (standing_of self.now id.0 ≡ variant.Unknown) }
        ensures first { (K : List AFlow) → StandsFor self.now K
            → (result ≡ false) ↔ (first_at K id.0 ≡ None) }
    {
        match standing::standing_of(&self.standings, id.0 as usize) {
            Standing::Unknown => false,
            Standing::Entered => true,
            Standing::Source { .. } => true,
        }
    }

    /// Whether one object is a source of another.
    pub fn is_source_of(&self, source: EntityId, id: EntityId) -> bool
        ensures { (K : List AFlow) → StandsFor self.now K
            → IsTrue result ↔ HasSource K id.0 source.0 }
    {
        match standing::standing_of(&self.standings, source.0 as usize) {
            Standing::Unknown => false,
            Standing::Entered => false,
            Standing::Source { number } => {
                self.shared.has_number(id.0 as usize, u64::from(number))
            }
        }
    }

    /// The sources of an object, in ascending order. An object without flows has none.
    pub fn of(&self, alloc: Global, id: EntityId) -> Result<List<EntityId>, NoMemory>
        ensures ascend { IfOk result (λ ids. IsAscending (numbers ids)) }
        ensures exact { IfOk result
            (λ ids. (K : List AFlow) → StandsFor self.now K → (x : ℕ)
            → Contains (numbers ids) x ↔ HasSource K id.0 x) }
    {
        let mut sources = List::new(alloc);
        for place in 0..self.standings.len().min(IDS) {
            let source = EntityId(place as u32);
            if self.is_source_of(source, id) {
                sources.push(source)?;
            }
        }
        Ok(sources)
    }

    /// Whether each source of one object is a source of another.
    pub fn covers(&self, large: EntityId, small: EntityId) -> bool
        ensures yes { (K : List AFlow) → StandsFor self.now K → result ≡ true → (x : ℕ)
            → HasSource K small.0 x → HasSource K large.0 x }
        ensures no { (K : List AFlow) → StandsFor self.now K → result ≡ false
            → (x : ℕ) × HasSource K small.0 x × ¬ HasSource K large.0 x }
    {
        self.shared.is_within(small.0 as usize, large.0 as usize)
    }

    /// Makes room for the unions that these flows can ask for. It fails if memory does, or if the
    /// sets could come to 2^32 sources, pages or blocks by these flows, which take more than 256 GiB.
    pub fn reserve(&mut self, flows: &[Flow]) -> Result<(), NoMemory>
        ensures room { OnOk result (HasRoom self.new flows.now) }
        ensures same { (K : List AFlow) → StandsFor self.old K → StandsFor self.new K }
        ensures standings { (x : ℕ) → standing_of self.new x ≡ standing_of self.old x }
    {
        let alloc = *self.standings.allocator();
        let numbers = u64::from(self.count) + flows.len() as u64;
        if numbers >= NUMBERS {
            return Err(NoMemory);
        }
        standing::grow(&mut self.standings, known_of(flows))?;
        self.shared.grow(alloc, self.standings.len())?;
        self.shared.allow(numbers.div_ceil(8192) as usize);
        self.shared.widen_ends(flows)?;
        self.shared.make_room(flows.len())?;
        Ok(())
    }

    /// Takes in a kept flow between two objects, in the room that was made for it. The object that the
    /// flow leaves is a source if it has no flow yet, and its sources become sources of the object that
    /// the flow enters.
    pub fn union(&mut self, into: EntityId, with: EntityId)
        requires room { (f : AFlow) × IsBetween f with.0 into.0 × HasRoom self.old (f ∷ []) }
        ensures next { (K : List AFlow) (f : AFlow) → IsBetween f with.0 into.0 → with.0 ≢ into.0
            → IsLater K f → StandsFor self.old K → StandsFor self.new (K ++ f ∷ []) }
        ensures others { (x : ℕ) → x ≢ into.0 → x ≢ with.0
            → standing_of self.new x ≡ standing_of self.old x }
        ensures rest { (f : AFlow) (rest : List AFlow) → HasRoom self.old (f ∷ rest)
            → HasRoom self.new rest }
    {
        let (into, with) = (into.0, with.0);
        self.begin(with);
        standing::see(&mut self.standings, into as usize, Standing::Entered);
        self.shared.join(into, with);
    }

    /// Makes an object a source of itself if it has no flow yet.
    fn begin(&mut self, object: u32)
        requires place { object < length self.old.standings.items }
        requires set { object < length self.old.shared.sets.items }
        requires number { self.old.count / 8192
            < length (slice_index_or self.old.shared.sets.items object []) }
        requires room { Fits 1 self.old.shared.pools }
        requires counted { self.old.count + 1 < 2 ^ 32 }
        ensures standings { (x : ℕ)
            → standing_of self.new x ≡
            cond (object == x) (first_given (standing_of self.old x)
            (variant.Source self.old.count)) (standing_of self.old x) }
        ensures sets { (v n : ℕ) → HasNumber self.new.shared v n
            ↔ (HasNumber self.old.shared v n
            ⊎ ((standing_of self.old object ≡ variant.Unknown) × (v ≡ object)
            × (n ≡ self.old.count))) }
        ensures count { self.new.count ≡ count_after (standing_of self.old object) self.old.count }
        ensures places { length self.new.standings.items ≡ length self.old.standings.items }
        ensures shape { IsAsWide self.old.shared self.new.shared }
        ensures adds { Adds 1 self.old.shared.pools self.new.shared.pools }
    {
        let number = self.count;
        let first = standing::see(
            &mut self.standings,
            object as usize,
            Standing::Source { number },
        );
        if first {
            self.shared.mark(object, u64::from(number));
            self.count = number + 1;
        }
    }
}

/// One more than the greatest number at an end of these flows.
fn known_of(flows: &[Flow]) -> usize
    ensures known { result ≡ known flows.now }
    ensures most { result ≤ 2 ^ 32 }
{
    let mut count: usize = 0;
    for flow in flows {
        count = count
            .max(flow.from.0 as usize + 1)
            .max(flow.to.0 as usize + 1);
    }
    count
}
