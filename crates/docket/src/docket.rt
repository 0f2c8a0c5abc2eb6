ghost use Rattle.std.specs.Net.Reader.{map_or};
ghost use Rattle.std.specs.Prelude.{◌≡◌, ◌<◌, ◌-◌, ◌^◌, length, Ok, Err, IfNone, IfSome, OnErr, OnOk, ◌==◌, slice_get};
ghost use Rattle.std.specs.Slice.Iter.{iter_rest};
ghost use Rattle.docket.specs.Docket.{docket_capacity, new_docket, refusal_of, ticket_place, note, remove};

use crate::{DocketRecord, DocketRefusal};
use std::marker::Model;
use std::slice::Iter;

// A docket never holds more records.
const MOST: usize = 65_536;

/// The requests that were sent and are not completed, in memory that a caller lends.
///
/// The records are the front of the slice, in the order in which they were noted, except that the last one takes the
/// place of one that is removed.
#[derive(Drop)]
pub struct Docket<'a> {
    records: &'a mut [DocketRecord],
    count: usize,
    next_ticket: u64,
}

// Contracts see the records that are out, the next ticket and the capacity; memory past the last record is in none
// of them.
impl<'a> Model for Docket<'a> {
    ghost use Rattle.std.specs.Prelude.{◌≤◌, length, take};
    ghost use Rattle.docket.specs.Docket.{Docket as DocketModel, docket_capacity};

    ghost Value = { DocketModel };

    ghost view = { λ d. record {
      records = take d.count d.records.now;
      next = d.next_ticket;
      capacity = docket_capacity (length d.records.now);
    } };

    ghost invariant = { λ d. d.count ≤ docket_capacity (length d.records.now) };
}

impl<'a> Docket<'a> {
    /// An empty docket in this memory, whose first request gets this ticket.
    ///
    /// It holds as many requests as the slice has places, and at most 65,536.
    pub fn new(records: &'a mut [DocketRecord], first_ticket: u64) -> Self
        ensures { result ≡ new_docket (docket_capacity (length records.old)) first_ticket }
    {
        Docket {
            records,
            count: 0,
            next_ticket: first_ticket,
        }
    }

    /// How many records there is room for.
    pub fn capacity(&self) -> usize
        ensures { result ≡ self.now.capacity }
    {
        self.records.len().min(MOST)
    }

    // The records that are out.
    fn records(&self) -> &[DocketRecord]
        ensures { result.now ≡ self.now.records }
    {
        &self.records[..self.count]
    }

    /// How many requests are out.
    pub fn len(&self) -> usize
        ensures { result ≡ length self.now.records }
    {
        self.records().len()
    }

    /// Whether no request is out.
    pub fn is_empty(&self) -> bool
        ensures { result ≡ (length self.now.records == 0) }
    {
        self.len() == 0
    }

    /// The ticket of the next request.
    pub fn next_ticket(&self) -> u64
        ensures { result ≡ self.now.next }
    {
        self.next_ticket
    }

    /// The record at a place.
    pub fn get(&self, i: usize) -> Option<DocketRecord>
        ensures { result ≡ slice_get self.now.records i }
    {
        self.records().get(i).copied()
    }

    /// The records, in order.
    pub fn iter(&self) -> Iter<'_, DocketRecord>
        ensures { iter_rest result ≡ self.now.records }
    {
        self.records().iter()
    }

    /// The place of the ticket's record.
    pub fn position(&self, ticket: u64) -> Option<usize>
        ensures answer { result ≡ ticket_place self.now ticket }
        ensures within { IfSome result (λ i. i < length self.now.records) }
    {
        lists::position(self.records(), |record| record.ticket == ticket)
    }

    /// Whether a request can be noted, and if not, why.
    pub fn admits(&self) -> Result<(), DocketRefusal>
        ensures answer { result ≡ map_or (refusal_of self.now) (Ok tt) Err }
        ensures room { OnOk result (length self.now.records < self.now.capacity) }
        ensures ticket { OnOk result (self.now.next < 2 ^ 64 - 1) }
    {
        if self.len() >= self.capacity() {
            return Err(DocketRefusal::Full);
        }
        if self.next_ticket == u64::MAX {
            return Err(DocketRefusal::TicketsSpent);
        }
        Ok(())
    }

    /// Notes a request that goes to the worker of this serial at the instant `sent`, and answers its ticket.
    ///
    /// Refused where the docket is full or its tickets are spent: then nothing changes.
    pub fn note(&mut self, serial: u64, sent: u64) -> Result<u64, DocketRefusal>
        ensures answer { result ≡ (note self.old serial sent).answer }
        ensures after { self.new ≡ (note self.old serial sent).after }
        ensures refused { OnErr result (self.new ≡ self.old) }
    {
        self.admits()?;
        let ticket = self.next_ticket;
        self.records[self.count] = DocketRecord {
            ticket,
            serial,
            sent,
        };
        self.count += 1;
        self.next_ticket += 1;
        Ok(ticket)
    }

    /// Takes the record of a ticket away; the last one moves into the gap. Without such a record nothing changes.
    pub fn remove(&mut self, ticket: u64) -> Option<DocketRecord>
        ensures answer { result ≡ (remove self.old ticket).answer }
        ensures after { self.new ≡ (remove self.old ticket).after }
        ensures unknown { IfNone result (self.new ≡ self.old) }
    {
        let place = self.position(ticket)?;
        let found = lists::swap_remove(&mut self.records[..self.count], place)?;
        self.count -= 1;
        Some(found)
    }
}
