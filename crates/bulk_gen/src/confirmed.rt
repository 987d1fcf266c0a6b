//! What is confirmed of each pair of producer and entity, and in sum.
ghost use Rattle.std.specs.Prelude.{◌≡◌, ◌+◌, ◌++◌, ◌∷◌, List, [], false, length, replicate, IfOk, MatchOption, OnOk, OnErr};
ghost use Rattle.std.specs.List.{list_any, position};
ghost use Rattle.yard_model.specs.Script.{is_name};
ghost use Rattle.bulk_gen.specs.Counted.{AreConfirmed, IsPlace};
ghost use Rattle.bulk_gen.specs.SummaryText.{Confirmation};

use crate::row::Row;
use name_index::NameIndex;
use std::alloc::{AllocError, Global};
use std::marker::Model;
use yard_model::{Charter, EntityName, ProducerNo};

/// The number that each pair is confirmed up to, and their sum: of each name, by its place, the numbers of
/// all producers. The names are a script's, and behind them others that it doesn't have; a run of the script
/// confirms none of those.
#[derive(Drop)]
pub(crate) struct Confirmed {
    names: NameIndex,
    others: Vec<EntityName>,
    rows: Vec<Row>,
    sum: u64,
}

impl Model for Confirmed {
    ghost use Rattle.std.specs.Prelude.{◌++◌};
    ghost use Rattle.bulk_gen.specs.Counted.{Sums, IsTable};

    ghost Value = { Sums };

    ghost view = { λ c. record { names = c.names ++ c.others.items; rows = c.rows.items; sum = c.sum } };

    ghost invariant = { λ c. IsTable c.names c.others.items c.rows.items };
}

impl Confirmed {
    /// Nothing is confirmed, of a script with these orders' names. The only error is want of memory.
    pub(crate) fn new(alloc: Global, charter: &Charter) -> Result<Confirmed, AllocError>
        ensures { IfOk result (λ c. AreConfirmed c []) }
    {
        let names = NameIndex::new(charter)?;
        let rows = zero_rows(alloc, names.len())?;
        Ok(Confirmed {
            names,
            others: Vec::new(alloc),
            rows,
            sum: 0,
        })
    }

    /// The sum.
    pub(crate) fn sum(&self) -> u64
        ensures { result ≡ self.now.sum }
    {
        self.sum
    }

    /// The pair is confirmed up to this number. The only error is want of memory, or of room for the sum; then
    /// nothing changes.
    #[inline(never)]
    pub(crate) fn confirm(
        &mut self,
        producer: ProducerNo,
        entity: &EntityName,
        number: u32,
    ) -> Result<(), AllocError>
        ensures ok { OnOk result ((xs : List Confirmation) → AreConfirmed self.old xs
            → AreConfirmed self.new (xs ++ record { producer = producer; entity = entity.now; number = number } ∷ [])) }
        ensures err { OnErr result (self.new ≡ self.old) }
    {
        let more = sum_with(self.sum, number)?;
        let place = self.seat(entity)?;
        self.write(place, producer, entity, number, more);
        Ok(())
    }

    /// The place of a name, which is entered where it isn't there. On an error nothing changes.
    #[inline(always)]
    fn seat(&mut self, entity: &EntityName) -> Result<usize, AllocError>
        ensures place { IfOk result (λ k. IsPlace self.new.names entity.now k) }
        ensures kept { OnOk result ((xs : List Confirmation) → AreConfirmed self.old xs → AreConfirmed self.new xs) }
        ensures sum { self.new.sum ≡ self.old.sum }
        ensures err { OnErr result (self.new ≡ self.old) }
    {
        match self.place(entity) {
            Some(place) => Ok(place),
            None => self.enter(entity),
        }
    }

    /// The place of a name; None exactly where it isn't among them.
    #[inline(always)]
    fn place(&self, entity: &EntityName) -> Option<usize>
        ensures { MatchOption result (list_any (is_name entity.now) self.now.names ≡ false) (λ k. IsPlace self.now.names entity.now k) }
    {
        match self.names.find(entity) {
            Some(place) => Some(place),
            None => match place_in(self.others.as_slice(), entity) {
                Some(place) => Some(self.names.len() + place),
                None => None,
            },
        }
    }

    /// A name is entered behind the others, with nothing confirmed. On an error nothing changes.
    #[inline(never)]
    fn enter(&mut self, entity: &EntityName) -> Result<usize, AllocError>
        requires { list_any (is_name entity.now) self.old.names ≡ false }
        ensures place { IfOk result (λ k. IsPlace self.new.names entity.now k) }
        ensures kept { OnOk result ((xs : List Confirmation) → AreConfirmed self.old xs → AreConfirmed self.new xs) }
        ensures sum { self.new.sum ≡ self.old.sum }
        ensures err { OnErr result (self.new ≡ self.old) }
    {
        let place = self.rows.as_slice().len();
        self.others.reserve(1)?;
        self.rows.push(Row::zero())?;
        self.others.push_reserved(*entity);
        Ok(place)
    }

    /// The pair of the name at this place is confirmed up to this number, with this sum and what the pair had
    /// before.
    #[inline(always)]
    fn write(
        &mut self,
        place: usize,
        producer: ProducerNo,
        entity: &EntityName,
        number: u32,
        more: u64,
    )
        requires place { IsPlace self.old.names entity.now place }
        requires more { more ≡ self.old.sum + number }
        ensures { (xs : List Confirmation) → AreConfirmed self.old xs
            → AreConfirmed self.new (xs ++ record { producer = producer; entity = entity.now; number = number } ∷ []) }
    {
        let _ = entity;
        let before = self.rows[place].of(producer);
        self.rows[place].set(producer, number);
        // what it was before is part of the sum, so nothing is cut off
        self.sum = more.saturating_sub(u64::from(before));
    }
}

/// The first place of a name among these.
fn place_in(names: &[EntityName], name: &EntityName) -> Option<usize>
    ensures { result ≡ position (is_name name.now) names.now }
{
    names.iter().position(|n| n == name)
}

/// So many rows of zeros. The only error is want of memory.
fn zero_rows(alloc: Global, count: usize) -> Result<Vec<Row>, AllocError>
    ensures { IfOk result (λ rows. rows.items ≡ replicate count (replicate 33 0)) }
{
    vec![in alloc; Row::zero(); count]
}

/// The sum of both, where 64 bits have room for it.
fn sum_with(sum: u64, number: u32) -> Result<u64, AllocError>
    ensures { IfOk result (λ n. n ≡ sum + number) }
{
    match sum.checked_add(u64::from(number)) {
        Some(more) => Ok(more),
        None => Err(AllocError),
    }
}
