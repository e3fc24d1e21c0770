//! What the walk through a statement keeps, and its smallest steps.

ghost use Rattle.std.specs.Prelude.{◌≡◌, ◌<◌, ◌≤◌, [], length, position, IfSome};
ghost use Rattle.pdw_walk.specs.Slot.{same_slot};
ghost use Rattle.pdw_walk.specs.Walk as walk;
ghost use Rattle.pdw_walk.specs.Walk.{Walks, beginning, done, is_among};
ghost use Rattle.pdw_walk.specs.declared.fault.TheConstants.{MOST_USED};

use pdw_base::{ColId, Str};
use pdw_expr::Agg;
use pdw_walk::{JudgeFault, LimitName, MOST_QUERIES, MOST_REFERENCES, MOST_USED, Numbered, Slot};
use sqlite_items::Items as ListOf;
use std::alloc::Global;
use std::marker::Model;
use std::mem;

/// What is kept of the part of a statement that was walked.
#[derive(Drop)]
pub struct Walk {
    queries: usize,
    references: usize,
    numbers: Vec<Slot>,
    taken: ListOf<Str>,
    aggs: ListOf<Agg>,
    outer: bool,
}

/// The aliases and the aggregates of an enclosing query, while a query within it is walked.
#[derive(Drop)]
pub struct Outside {
    taken: ListOf<Str>,
    aggs: ListOf<Agg>,
}

impl Model for Walk {
    ghost use Rattle.std.specs.Prelude.{◌≤◌, length};
    ghost use Rattle.pdw_walk.specs.Walk.{Walk as Kept};
    ghost use Rattle.pdw_walk.specs.declared.fault.TheConstants.{MOST_QUERIES as MostQueries, MOST_REFERENCES as MostReferences, MOST_USED as MostUsed};

    ghost Value = { Kept };

    ghost use Rattle.std.specs.Coded.{codes};
    ghost use Rattle.pdw_expr.specs.contracts.scalar.Scalar as scalars;

    ghost coded = { Prim.hlevel (codes, scalars.the_row.coded) };

    ghost view = { λ w. record { queries = w.queries; references = w.references; numbers = w.numbers.items; taken = w.taken; aggs = w.aggs; outer = w.outer } };

    ghost invariant = { λ w. (w.queries ≤ MostQueries) × (w.references ≤ MostReferences) × (length w.numbers.items ≤ MostUsed) };
}

impl Walk {
    /// The walk at its beginning.
    pub fn new(alloc: Global) -> Walk
        ensures { result ≡ beginning }
    {
        Walk {
            queries: 0,
            references: 0,
            numbers: Vec::new(alloc),
            taken: ListOf::new(alloc),
            aggs: ListOf::new(alloc),
            outer: false,
        }
    }

    /// Counts a query that begins.
    #[tactic(auto, unfolding(pdw_walk::specs::Walk::count_query))]
    pub fn count_query(&mut self) -> Result<(), JudgeFault>
        ensures { Walks (walk.count_query self.old) result self.new }
    {
        if self.queries == MOST_QUERIES {
            return Err(JudgeFault::Limit {
                which: LimitName::Queries,
                most: MOST_QUERIES as u64,
            });
        }
        self.queries += 1;
        Ok(())
    }

    /// Counts a table reference that begins, and answers its number.
    #[tactic(auto, unfolding(pdw_walk::specs::Walk::count_reference))]
    pub fn count_reference(&mut self) -> Result<u32, JudgeFault>
        ensures { Walks (walk.count_reference self.old) result self.new }
    {
        if self.references == MOST_REFERENCES {
            return Err(JudgeFault::Limit {
                which: LimitName::References,
                most: MOST_REFERENCES as u64,
            });
        }
        let number = self.references as u32;
        self.references += 1;
        Ok(number)
    }

    // Gives the next number.
    fn next_number(&mut self, slot: Slot) -> Result<ColId, JudgeFault>
        ensures { Walks (walk.next_number slot self.old) result self.new }
    {
        let number = self.numbers.len();
        if number == MOST_USED {
            return Err(JudgeFault::Limit {
                which: LimitName::Used,
                most: MOST_USED as u64,
            });
        }
        self.numbers.push(slot)?;
        Ok(ColId(number as u16))
    }

    // Where the number of this stands.
    fn place_of(&self, slot: Slot) -> Option<usize>
        ensures place { result ≡ position (same_slot slot) self.now.numbers }
        ensures within { IfSome result (λ place. place < 128) }
    {
        self.numbers.iter().position(|other| *other == slot)
    }

    /// The number of what this stands for: the next one where it has none.
    #[tactic(auto, unfolding(pdw_walk::specs::Walk::number_of))]
    pub fn number_of(&mut self, slot: Slot) -> Result<ColId, JudgeFault>
        ensures { Walks (walk.number_of slot self.old) result self.new }
    {
        match self.place_of(slot) {
            Some(place) => Ok(ColId(place as u16)),
            None => self.next_number(slot),
        }
    }

    /// The next number, for a computed item or an aggregate.
    #[tactic(auto, unfolding(pdw_walk::specs::Walk::made_number))]
    pub fn made_number(&mut self) -> Result<Numbered, JudgeFault>
        ensures { Walks (walk.made_number self.old) result self.new }
    {
        let slot = Slot::Made(self.numbers.len() as u32);
        let number = self.next_number(slot)?;
        Ok(Numbered { number, slot })
    }

    /// What each number stands for, from 0.
    pub fn numbers(&self) -> &[Slot]
        ensures numbers { result.now ≡ self.now.numbers }
        ensures within { length result.now ≤ MOST_USED }
    {
        self.numbers.as_slice()
    }

    /// Whether an alias was taken.
    pub fn is_taken(&self, alias: &Str) -> bool
        ensures { result ≡ is_among alias.now self.now.taken }
    {
        self.taken.as_slice().iter().any(|other| *alias == *other)
    }

    /// Takes an alias, which may be taken once in a FROM.
    #[tactic(auto, unfolding(pdw_walk::specs::Walk::take_alias))]
    pub fn take_alias(&mut self, alloc: Global, alias: &Str) -> Result<(), JudgeFault>
        ensures { Walks (walk.take_alias alias.now self.old) result self.new }
    {
        let copy = alias.try_copy(alloc)?;
        if self.is_taken(alias) {
            return Err(JudgeFault::DuplicateName(copy));
        }
        Ok(self.taken.push(copy)?)
    }

    /// Keeps an aggregate of the query that is walked.
    #[tactic(auto, unfolding(pdw_walk::specs::Walk::add_aggregate))]
    pub fn add_aggregate(&mut self, agg: Agg) -> Result<(), JudgeFault>
        ensures { Walks (walk.add_aggregate agg self.old) result self.new }
    {
        Ok(self.aggs.push(agg)?)
    }

    /// Takes the aggregates of the query that is walked out.
    pub fn take_aggs(&mut self, alloc: Global) -> ListOf<Agg>
        ensures aggs { result ≡ self.old.aggs }
        ensures walk { self.new ≡ walk.with_aggs [] self.old }
    {
        mem::replace(&mut self.aggs, ListOf::new(alloc))
    }

    /// Notes that a column of an enclosing query was met.
    #[tactic(auto, unfolding(pdw_walk::specs::Walk::meet_outer))]
    pub fn meet_outer(&mut self)
        ensures { walk.meet_outer self.old ≡ done result self.new }
    {
        self.outer = true;
    }

    /// Notes that none was met since.
    #[tactic(auto, unfolding(pdw_walk::specs::Walk::forget_outer))]
    pub fn forget_outer(&mut self)
        ensures { walk.forget_outer self.old ≡ done result self.new }
    {
        self.outer = false;
    }

    /// Whether one was met.
    pub fn met_outer(&self) -> bool
        ensures { result ≡ self.now.outer }
    {
        self.outer
    }

    /// Sets the aliases and the aggregates of the query that is walked apart, where a query within it begins.
    pub fn begin_query(&mut self, alloc: Global) -> Outside
        ensures kept { (result.taken ≡ self.old.taken) × (result.aggs ≡ self.old.aggs) }
        ensures walk { self.new ≡ walk.with_taken [] (walk.with_aggs [] self.old) }
    {
        let taken = mem::replace(&mut self.taken, ListOf::new(alloc));
        let aggs = mem::replace(&mut self.aggs, ListOf::new(alloc));
        Outside { taken, aggs }
    }

    /// Goes on with the enclosing query where a query ends.
    pub fn end_query(&mut self, outside: Outside)
        ensures { self.new ≡ walk.with_taken outside.taken (walk.with_aggs outside.aggs self.old) }
    {
        let Outside { taken, aggs } = outside;
        self.taken = taken;
        self.aggs = aggs;
    }
}
